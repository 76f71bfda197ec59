//! Written by tools/derive.py from crates/gltf_base/src/material.rt and
//! crates/gltf_base/specs/SceneChoices.antt. Do not edit.

ghost use Rattle.gltf_base.specs.SceneChoices.{alpha_mode_spelling, alpha_modes};
ghost use Rattle.gltf_base.specs.Spelling.{by_name, item_spelled, spelling_text};
ghost use Rattle.gltf_base.specs.declared.choice.Form.TheVariants.{Name};
ghost use Rattle.std.specs.Prelude.{Some, refl, ◌≡◌};

use super::AlphaMode;
use crate::choice::{Choice, Form, Spelling, item_of};
use crate::validation::Checked;
use std::fmt::{self, Display, Formatter, Write};

/// The names of the modes.
pub const VALID_ALPHA_MODES: &[&str] = &["OPAQUE", "MASK", "BLEND"];

impl Choice for AlphaMode {
    ghost spelling = { alpha_mode_spelling };

    ghost listed = { alpha_modes };

    ghost form = { Name };

    ghost reads_back = { (refl, (refl, (refl, tt))) };

    fn form() -> Form {
        Form::Name
    }

    fn listed() -> &'static [AlphaMode] {
        &[AlphaMode::Opaque, AlphaMode::Mask, AlphaMode::Blend]
    }

    fn spelling(self) -> Spelling<'static> {
        Spelling::Name(self.name())
    }
}

impl Display for AlphaMode {
    ghost output = { λ item. Some (spelling_text (alpha_mode_spelling item)) };

    fn fmt<W: Write>(&self, f: &mut Formatter<W>) -> fmt::Result {
        Display::fmt(&self.spelling(), f)
    }
}

impl AlphaMode {
    /// Returns the mode with this name, or `Invalid` if there is none.
    pub fn from_name(name: &str) -> Checked<AlphaMode>
        ensures { result ≡ item_spelled alpha_mode_spelling alpha_modes (by_name name.now) }
    {
        item_of::<AlphaMode>(Spelling::Name(name))
    }

    /// Returns the name that stands for the mode in a document.
    pub fn name(self) -> &'static str
        ensures { by_name result.now ≡ alpha_mode_spelling self }
    {
        match self {
            AlphaMode::Opaque => "OPAQUE",
            AlphaMode::Mask => "MASK",
            AlphaMode::Blend => "BLEND",
        }
    }
}
