//! Written by tools/derive.py from crates/gltf_base/src/animation.rt and
//! crates/gltf_base/specs/SceneChoices.antt. Do not edit.

ghost use Rattle.gltf_base.specs.SceneChoices.{interpolation_spelling, interpolations, properties, property_spelling};
ghost use Rattle.gltf_base.specs.Spelling.{by_name, item_spelled, spelling_text};
ghost use Rattle.gltf_base.specs.declared.choice.Form.TheVariants.{Name};
ghost use Rattle.std.specs.Prelude.{Some, refl, ◌≡◌};

use super::{Interpolation, Property};
use crate::choice::{Choice, Form, Spelling, item_of};
use crate::validation::Checked;
use std::fmt::{self, Display, Formatter, Write};

/// The names of the interpolations.
pub const VALID_INTERPOLATIONS: &[&str] = &["LINEAR", "STEP", "CUBICSPLINE"];

/// The names of the properties.
pub const VALID_PROPERTIES: &[&str] = &["translation", "rotation", "scale", "weights"];

impl Choice for Interpolation {
    ghost spelling = { interpolation_spelling };

    ghost listed = { interpolations };

    ghost form = { Name };

    ghost reads_back = { (refl, (refl, (refl, tt))) };

    fn form() -> Form {
        Form::Name
    }

    fn listed() -> &'static [Interpolation] {
        &[
            Interpolation::Linear,
            Interpolation::Step,
            Interpolation::CubicSpline,
        ]
    }

    fn spelling(self) -> Spelling<'static> {
        Spelling::Name(self.name())
    }
}

impl Display for Interpolation {
    ghost output = { λ item. Some (spelling_text (interpolation_spelling item)) };

    fn fmt<W: Write>(&self, f: &mut Formatter<W>) -> fmt::Result {
        Display::fmt(&self.spelling(), f)
    }
}

impl Interpolation {
    /// Returns the interpolation with this name, or `Invalid` if there is none.
    pub fn from_name(name: &str) -> Checked<Interpolation>
        ensures { result ≡ item_spelled interpolation_spelling interpolations (by_name name.now) }
    {
        item_of::<Interpolation>(Spelling::Name(name))
    }

    /// Returns the name that stands for the interpolation in a document.
    pub fn name(self) -> &'static str
        ensures { by_name result.now ≡ interpolation_spelling self }
    {
        match self {
            Interpolation::Linear => "LINEAR",
            Interpolation::Step => "STEP",
            Interpolation::CubicSpline => "CUBICSPLINE",
        }
    }
}

impl Choice for Property {
    ghost spelling = { property_spelling };

    ghost listed = { properties };

    ghost form = { Name };

    ghost reads_back = { (refl, (refl, (refl, (refl, tt)))) };

    fn form() -> Form {
        Form::Name
    }

    fn listed() -> &'static [Property] {
        &[
            Property::Translation,
            Property::Rotation,
            Property::Scale,
            Property::MorphTargetWeights,
        ]
    }

    fn spelling(self) -> Spelling<'static> {
        Spelling::Name(self.name())
    }
}

impl Display for Property {
    ghost output = { λ item. Some (spelling_text (property_spelling item)) };

    fn fmt<W: Write>(&self, f: &mut Formatter<W>) -> fmt::Result {
        Display::fmt(&self.spelling(), f)
    }
}

impl Property {
    /// Returns the property with this name, or `Invalid` if there is none.
    pub fn from_name(name: &str) -> Checked<Property>
        ensures { result ≡ item_spelled property_spelling properties (by_name name.now) }
    {
        item_of::<Property>(Spelling::Name(name))
    }

    /// Returns the name that stands for the property in a document.
    pub fn name(self) -> &'static str
        ensures { by_name result.now ≡ property_spelling self }
    {
        match self {
            Property::Translation => "translation",
            Property::Rotation => "rotation",
            Property::Scale => "scale",
            Property::MorphTargetWeights => "weights",
        }
    }
}
