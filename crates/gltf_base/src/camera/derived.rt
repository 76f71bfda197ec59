//! Written by tools/derive.py from crates/gltf_base/src/camera.rt and
//! crates/gltf_base/specs/SceneChoices.antt. Do not edit.

ghost use Rattle.gltf_base.specs.SceneChoices.{camera_type_spelling, camera_types};
ghost use Rattle.gltf_base.specs.Spelling.{by_name, item_spelled, spelling_text};
ghost use Rattle.gltf_base.specs.declared.choice.Form.TheVariants.{Name};
ghost use Rattle.std.specs.Prelude.{Some, refl, ◌≡◌};

use super::CameraType;
use crate::choice::{Choice, Form, Spelling, item_of};
use crate::validation::Checked;
use std::fmt::{self, Display, Formatter, Write};

/// The names of the camera types.
pub const VALID_CAMERA_TYPES: &[&str] = &["perspective", "orthographic"];

impl Choice for CameraType {
    ghost spelling = { camera_type_spelling };

    ghost listed = { camera_types };

    ghost form = { Name };

    ghost reads_back = { (refl, (refl, tt)) };

    fn form() -> Form {
        Form::Name
    }

    fn listed() -> &'static [CameraType] {
        &[CameraType::Perspective, CameraType::Orthographic]
    }

    fn spelling(self) -> Spelling<'static> {
        Spelling::Name(self.name())
    }
}

impl Display for CameraType {
    ghost output = { λ item. Some (spelling_text (camera_type_spelling item)) };

    fn fmt<W: Write>(&self, f: &mut Formatter<W>) -> fmt::Result {
        Display::fmt(&self.spelling(), f)
    }
}

impl CameraType {
    /// Returns the type with this name, or `Invalid` if there is none.
    pub fn from_name(name: &str) -> Checked<CameraType>
        ensures { result ≡ item_spelled camera_type_spelling camera_types (by_name name.now) }
    {
        item_of::<CameraType>(Spelling::Name(name))
    }

    /// Returns the name that stands for the type in a document.
    pub fn name(self) -> &'static str
        ensures { by_name result.now ≡ camera_type_spelling self }
    {
        match self {
            CameraType::Perspective => "perspective",
            CameraType::Orthographic => "orthographic",
        }
    }
}
