//! The text of a path as a JSON pointer (RFC 6901).

ghost use Rattle.std.specs.Prelude.{◌≡◌, ◌++◌, codes, encode_utf8, IfOk, OnOk, map};
ghost use Rattle.std.specs.String.{string_bytes};
ghost use Rattle.gltf_base.specs.Steps.{steps_of, step_of};
ghost use Rattle.gltf_base.specs.Pointers.{escaped, pointer_part, pointer_text};

use crate::path::{Path, Step, Steps};
use std::alloc::{AllocError, Global};
use std::fmt::Write;

impl Path {
    /// Returns the JSON pointer (RFC 6901) to the place at the end of the steps, such as
    /// `/accessors/0/bufferView`. The document need not have that place: the pointer may name a
    /// member that is missing. In a name or a key `~` becomes `~0`, and `/` becomes `~1`. A step
    /// to a value adds nothing, since the pointer is that of the place which holds it. Fails only
    /// if out of memory.
    pub fn pointer_of(alloc: Global, steps: &Steps<'_>) -> Result<String, AllocError>
        ensures { IfOk result (λ pointer. string_bytes pointer
            ≡ pointer_text (steps_of steps.now)) }
    {
        Path::pointer_of_steps(alloc, steps.as_slice())
    }

    /// Returns the JSON pointer of steps in a slice, as [`Path::pointer_of`] does.
    pub fn pointer_of_steps(alloc: Global, steps: &[Step<'_>]) -> Result<String, AllocError>
        ensures { IfOk result (λ pointer. string_bytes pointer
            ≡ pointer_text (map step_of steps.now)) }
    {
        let mut pointer = String::new(alloc);
        for step in steps {
            write_part(alloc, &mut pointer, *step)?;
        }
        Ok(pointer)
    }
}

fn write_part(alloc: Global, pointer: &mut String, step: Step<'_>) -> Result<(), AllocError>
    ensures { OnOk result (string_bytes pointer.new
        ≡ string_bytes pointer.old ++ pointer_part (step_of step.entry)) }
{
    match step {
        Step::Field(name) | Step::Key(name) => write_name(pointer, name),
        Step::Index(number) => write!(pointer, "/{number}"),
        Step::Attribute(semantic) => {
            let name = semantic.to_string(alloc)?;
            write_name(pointer, name.as_str())
        }
        Step::Value(_) => Ok(()),
    }
}

fn write_name(pointer: &mut String, name: &str) -> Result<(), AllocError>
    ensures { OnOk result (string_bytes pointer.new
        ≡ string_bytes pointer.old ++ codes "/" ++ escaped name.now) }
{
    pointer.push('/')?;
    for character in name.chars() {
        write_character(pointer, character)?;
    }
    Ok(())
}

fn write_character(pointer: &mut String, character: char) -> Result<(), AllocError>
    ensures { OnOk result (string_bytes pointer.new
        ≡ string_bytes pointer.old ++ escaped (encode_utf8 character)) }
{
    match character {
        '~' => pointer.push_str("~0"),
        '/' => pointer.push_str("~1"),
        _ => pointer.push(character),
    }
}
