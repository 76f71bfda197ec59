//! Written by tools/derive.py from crates/gltf_parts/src/extensions/material/emissive_strength.rt
//! and crates/gltf_parts/specs/MaterialExtension.antt. Do not edit.

ghost use Rattle.gltf_parts.specs.MaterialExtension.{emissive_strength_members, emissive_strength_rows};
ghost use Rattle.gltf_parts.specs.MaterialExtensionDerived.{emissive_strength_height, emissive_strength_sound};
ghost use Rattle.gltf_schema.specs.Defaults.{defaults};
ghost use Rattle.gltf_schema.specs.Fields.{real_tree};
ghost use Rattle.gltf_schema.specs.Floats.{float_or};
ghost use Rattle.gltf_schema.specs.Kind.{Number};
ghost use Rattle.gltf_schema.specs.Tree.{tree_or_absent};
ghost use Rattle.serde_json.specs.Data.{no_members};
ghost use Rattle.std.proofs.Common.{lit≤};
ghost use Rattle.std.specs.Prelude.{false, ◌≡◌};

use super::{EmissiveStrength, EmissiveStrengthFactor};
use gltf_schema::{Object, ReadRows, Tabled, WriteRows};
use std::alloc::Global;

impl EmissiveStrength {
    /// Returns the default strength.
    #[tactic(auto, unfolding(crate::specs::MaterialExtension::emissive_strength_rows, crate::specs::MaterialExtension::emissive_strength_members))]
    pub fn new() -> EmissiveStrength
        ensures { emissive_strength_members result ≡ defaults emissive_strength_rows }
    {
        EmissiveStrength {
            emissive_strength: EmissiveStrengthFactor(None),
        }
    }
}

impl Object for EmissiveStrength {
    ghost rows = { emissive_strength_rows };

    ghost keeps = { false };

    ghost members = { emissive_strength_members };

    ghost unknown = { λ _. no_members };

    ghost kind_is_sound = { emissive_strength_sound };

    ghost height = { 0 };

    ghost height_bounds_kind = { (emissive_strength_height.1, lit≤ tt) };

    #[tactic(auto, unfolding(crate::specs::MaterialExtension::emissive_strength_rows, crate::specs::MaterialExtension::emissive_strength_members))]
    fn start(_alloc: Global) -> EmissiveStrength {
        EmissiveStrength::new()
    }

    #[tactic(auto, unfolding(crate::specs::MaterialExtension::emissive_strength_rows))]
    fn count_required() -> usize {
        0
    }

    fn read_rows<R: ReadRows>(&mut self, from: &mut R) {
        from.sometimes("emissiveStrength", &mut self.emissive_strength.0);
    }

    fn write_members<W: WriteRows>(&self, to: &mut W) {
        to.optional("emissiveStrength", &self.emissive_strength.0);
    }
}

impl EmissiveStrengthFactor {
    /// The number as a float, or [`EmissiveStrengthFactor::DEFAULT`] if it is absent.
    pub fn value(&self) -> f64
        ensures { result ≡ float_or Self.DEFAULT self.now.0 }
    {
        match &self.0 {
            Some(number) => number.as_f64(),
            None => EmissiveStrengthFactor::DEFAULT,
        }
    }
}

impl Tabled for EmissiveStrengthFactor {
    ghost kind = { Number };

    ghost tree = { λ factor. tree_or_absent real_tree factor.0 };
}
