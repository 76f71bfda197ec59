//! Written by tools/derive.py from crates/gltf_base/src/buffer.rt,
//! crates/gltf_base/specs/Choices.antt and crates/gltf_base/specs/GlNames.antt. Do not edit.

ghost use Rattle.gltf_base.specs.Choices.{target_spelling, targets};
ghost use Rattle.gltf_base.specs.GlNames.{target_name};
ghost use Rattle.gltf_base.specs.Spelling.{by_number, item_spelled, spelling_text};
ghost use Rattle.gltf_base.specs.declared.choice.Form.TheVariants.{Number};
ghost use Rattle.std.specs.Prelude.{Some, refl, ◌≡◌};

use super::Target;
use crate::choice::{Choice, Form, Spelling, item_of};
use crate::validation::Checked;
use std::fmt::{self, Display, Formatter, Write};

/// `GL_ARRAY_BUFFER`.
pub const ARRAY_BUFFER: u32 = 34962;

/// `GL_ELEMENT_ARRAY_BUFFER`.
pub const ELEMENT_ARRAY_BUFFER: u32 = 34963;

/// The numbers of the buffer targets.
pub const VALID_TARGETS: &[u32] = &[ARRAY_BUFFER, ELEMENT_ARRAY_BUFFER];

impl Choice for Target {
    ghost spelling = { target_spelling };

    ghost listed = { targets };

    ghost form = { Number };

    ghost reads_back = { (refl, (refl, tt)) };

    fn form() -> Form {
        Form::Number
    }

    fn listed() -> &'static [Target] {
        &[Target::ArrayBuffer, Target::ElementArrayBuffer]
    }

    fn spelling(self) -> Spelling<'static> {
        Spelling::Number(u64::from(self.as_gl_enum()))
    }
}

impl Display for Target {
    ghost output = { λ item. Some (spelling_text (target_spelling item)) };

    fn fmt<W: Write>(&self, f: &mut Formatter<W>) -> fmt::Result {
        Display::fmt(&self.spelling(), f)
    }
}

impl Target {
    /// Returns the target with this number, or `Invalid` if there is none.
    pub fn from_gl_enum(number: u64) -> Checked<Target>
        ensures { result ≡ item_spelled target_spelling targets (by_number number) }
    {
        item_of::<Target>(Spelling::Number(number))
    }

    /// Returns the number that stands for the target in a document.
    pub fn as_gl_enum(self) -> u32
        ensures { by_number result ≡ target_spelling self }
    {
        match self {
            Target::ArrayBuffer => ARRAY_BUFFER,
            Target::ElementArrayBuffer => ELEMENT_ARRAY_BUFFER,
        }
    }

    /// The name that the specification gives to the number that spells it, as
    /// `ELEMENT_ARRAY_BUFFER`.
    pub fn name(self) -> &'static str
        ensures { result.now ≡ target_name self }
    {
        match self {
            Target::ArrayBuffer => "ARRAY_BUFFER",
            Target::ElementArrayBuffer => "ELEMENT_ARRAY_BUFFER",
        }
    }
}
