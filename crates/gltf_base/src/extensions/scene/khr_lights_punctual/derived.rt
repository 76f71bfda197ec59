//! Written by tools/derive.py from crates/gltf_base/src/extensions/scene/khr_lights_punctual.rt and
//! crates/gltf_base/specs/SceneChoices.antt. Do not edit.

ghost use Rattle.gltf_base.specs.SceneChoices.{light_type_spelling, light_types};
ghost use Rattle.gltf_base.specs.Spelling.{by_name, item_spelled, spelling_text};
ghost use Rattle.gltf_base.specs.declared.choice.Form.TheVariants.{Name};
ghost use Rattle.std.specs.Prelude.{Some, refl, ◌≡◌};

use super::LightType;
use crate::choice::{Choice, Form, Spelling, item_of};
use crate::validation::Checked;
use std::fmt::{self, Display, Formatter, Write};

/// The names of the light types.
pub const VALID_TYPES: &[&str] = &["directional", "point", "spot"];

impl Choice for LightType {
    ghost spelling = { light_type_spelling };

    ghost listed = { light_types };

    ghost form = { Name };

    ghost reads_back = { (refl, (refl, (refl, tt))) };

    fn form() -> Form {
        Form::Name
    }

    fn listed() -> &'static [LightType] {
        &[LightType::Directional, LightType::Point, LightType::Spot]
    }

    fn spelling(self) -> Spelling<'static> {
        Spelling::Name(self.name())
    }
}

impl Display for LightType {
    ghost output = { λ item. Some (spelling_text (light_type_spelling item)) };

    fn fmt<W: Write>(&self, f: &mut Formatter<W>) -> fmt::Result {
        Display::fmt(&self.spelling(), f)
    }
}

impl LightType {
    /// Returns the type with this name, or `Invalid` if there is none.
    pub fn from_name(name: &str) -> Checked<LightType>
        ensures { result ≡ item_spelled light_type_spelling light_types (by_name name.now) }
    {
        item_of::<LightType>(Spelling::Name(name))
    }

    /// Returns the name that stands for the type in a document.
    pub fn name(self) -> &'static str
        ensures { by_name result.now ≡ light_type_spelling self }
    {
        match self {
            LightType::Directional => "directional",
            LightType::Point => "point",
            LightType::Spot => "spot",
        }
    }
}
