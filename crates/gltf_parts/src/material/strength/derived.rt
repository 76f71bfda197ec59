//! Written by tools/derive.py from crates/gltf_parts/src/material/strength.rt and
//! crates/gltf_parts/specs/Material.antt. Do not edit.

ghost use Rattle.gltf_schema.specs.Fields.{real_tree};
ghost use Rattle.gltf_schema.specs.Floats.{float_or};
ghost use Rattle.gltf_schema.specs.Kind.{Number};
ghost use Rattle.gltf_schema.specs.Tree.{tree_or_absent};
ghost use Rattle.std.specs.Prelude.{◌≡◌};

use super::StrengthFactor;
use gltf_schema::Tabled;

impl StrengthFactor {
    /// The number as a float, or [`StrengthFactor::DEFAULT`] if it is absent.
    pub fn value(&self) -> f64
        ensures { result ≡ float_or Self.DEFAULT self.now.0 }
    {
        match &self.0 {
            Some(number) => number.as_f64(),
            None => StrengthFactor::DEFAULT,
        }
    }
}

impl Tabled for StrengthFactor {
    ghost kind = { Number };

    ghost tree = { λ factor. tree_or_absent real_tree factor.0 };
}
