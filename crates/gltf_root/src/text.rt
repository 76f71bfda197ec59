//! Whole texts: what the table reads of them, and the place at which it refuses them.

ghost use Rattle.std.specs.Prelude.{◌≡◌, IfOk, map, option_map};
ghost use Rattle.serde_json.specs.Read.{read as read_json};
ghost use Rattle.gltf_base.specs.Steps.{step_of};
ghost use Rattle.gltf_schema.specs.Read.{read};
ghost use Rattle.gltf_schema.specs.RowPlacing.{owned_step};
ghost use Rattle.gltf_root.specs.Decoded.{IsDecoded};
ghost use Rattle.gltf_root.specs.Place.{IsAtEnd, IsPlaceIn, IsFoundIn, IsJsonIn};

use crate::found::Found;
use gltf_base::Path;
use gltf_base::path::Step;
use gltf_schema::{Error, OwnedStep, Refusal, Schema, read_text};
use serde_json::Value;
use std::alloc::{AllocError, Global};
use std::fmt::{self, Display, Formatter, Write};

/// Returns what the table reads of a text. Fails with `Json` if and only if `serde_json` reads no
/// value, and with `Schema` if and only if the table reads nothing of its value. Out of memory, it
/// may fail with `Memory` instead.
pub fn decode_text<T: Schema>(alloc: Global, text: &str) -> Result<T, Error>
    ensures { IsDecoded T.tree (option_map (read T.kind) (read_json text.now)) result }
{
    if let Ok(read) = read_text(alloc, text) {
        return Ok(read);
    }
    // Only a `Value` says why.
    match Value::from_str(alloc, text) {
        Ok(value) => T::decode(alloc, value),
        Err(e) if e.is_memory() => Err(Error::Memory(AllocError)),
        Err(_) => Err(Error::Json),
    }
}

/// A place in a document, as a path and as a JSON pointer.
#[derive(Clone, Debug, Drop, PartialEq)]
pub struct Place {
    /// The names and numbers on the way, for example `accessors[0].count`. An attribute is a member
    /// like any other, as in `meshes[0].primitives[0].attributes.POSITION`. Empty for the document
    /// itself.
    pub path: Path,
    /// As a JSON pointer (RFC 6901), for example `/accessors/0/count`.
    pub pointer: String,
}

impl Place {
    /// The place at the end of these steps. Fails only if out of memory.
    pub(crate) fn of(alloc: Global, steps: &[OwnedStep]) -> Result<Place, AllocError>
        ensures { IfOk result (IsAtEnd (map owned_step steps.now)) }
    {
        let steps = borrowed(alloc, steps)?;
        Ok(Place {
            path: Path::of_steps(alloc, &steps)?,
            pointer: Path::pointer_of_steps(alloc, &steps)?,
        })
    }
}

impl Display for Place {
    ghost use Rattle.std.specs.Prelude.{Some, string_bytes};

    ghost output = { λ place. Some (string_bytes place.path.0) };

    /// The path.
    fn fmt<W: Write>(&self, f: &mut Formatter<W>) -> fmt::Result {
        f.write_str(self.path.as_str())
    }
}

/// The same steps, which borrow their names. Fails only if out of memory.
fn borrowed(alloc: Global, steps: &[OwnedStep]) -> Result<Vec<Step<'_>>, AllocError>
    ensures { IfOk result (λ v. map step_of v.items ≡ map owned_step steps.now) }
{
    let mut found = Vec::with_capacity(alloc, steps.len())?;
    for step in steps {
        found.push(step.as_step())?;
    }
    Ok(found)
}

/// Returns the innermost place that the table refuses in a text, or `None` if the table reads it.
/// Fails with `Json` if the text is no JSON. Out of memory, it may fail with `Memory` instead.
pub fn refused_in_text<T: Schema>(alloc: Global, text: &str) -> Result<Option<Place>, Error>
    ensures { IsPlaceIn T.kind text.now result }
{
    let value = match Value::from_str(alloc, text) {
        Ok(value) => value,
        Err(e) if e.is_memory() => return Err(Error::Memory(AllocError)),
        Err(_) => return Err(Error::Json),
    };
    match T::decode_or_place(alloc, value) {
        Ok(_) => Ok(None),
        Err(Refusal::At(steps)) => Ok(Some(Place::of(alloc, &steps)?)),
        Err(Refusal::Memory(refused)) => Err(Error::Memory(refused)),
    }
}

/// Returns the same place, and what is there. It reads the text twice.
pub(crate) fn found_in_text<T: Schema>(
    alloc: Global,
    text: &str,
) -> Result<Option<(Place, Found)>, Error>
    ensures { IsFoundIn T.kind text.now result }
{
    match refused_in_text::<T>(alloc, text) {
        Ok(Some(place)) => match json_in(alloc, text) {
            Ok(value) => {
                let found = Found::of(value.pointer(place.pointer.as_str()));
                Ok(Some((place, found)))
            }
            Err(e) => Err(e),
        },
        Ok(None) => Ok(None),
        Err(e) => Err(e),
    }
}

/// Returns the value of a text. Fails with `Json` if it is no JSON, and with `Memory` if out of
/// memory.
pub(crate) fn json_in(alloc: Global, text: &str) -> Result<Value, Error>
    ensures { IsJsonIn text.now result }
{
    match Value::from_str(alloc, text) {
        Ok(value) => Ok(value),
        Err(e) if e.is_memory() => Err(Error::Memory(AllocError)),
        Err(_) => Err(Error::Json),
    }
}
