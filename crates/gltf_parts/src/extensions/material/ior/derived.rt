//! Written by tools/derive.py from crates/gltf_parts/src/extensions/material/ior.rt and
//! crates/gltf_parts/specs/MaterialExtension.antt. Do not edit.

ghost use Rattle.gltf_parts.specs.MaterialExtension.{ior_members, ior_rows};
ghost use Rattle.gltf_parts.specs.MaterialExtensionDerived.{ior_height, ior_sound};
ghost use Rattle.gltf_schema.specs.Defaults.{defaults};
ghost use Rattle.gltf_schema.specs.Fields.{real_tree};
ghost use Rattle.gltf_schema.specs.Floats.{float_or};
ghost use Rattle.gltf_schema.specs.Kind.{Number};
ghost use Rattle.gltf_schema.specs.Tree.{tree_or_absent};
ghost use Rattle.serde_json.specs.Data.{no_members};
ghost use Rattle.std.proofs.Common.{lit≤};
ghost use Rattle.std.specs.Prelude.{false, ◌≡◌};

use super::{IndexOfRefraction, Ior};
use gltf_schema::{Object, ReadRows, Tabled, WriteRows};
use std::alloc::Global;

impl Ior {
    /// Returns the default index of refraction.
    #[tactic(auto, unfolding(crate::specs::MaterialExtension::ior_rows, crate::specs::MaterialExtension::ior_members))]
    pub fn new() -> Ior
        ensures { ior_members result ≡ defaults ior_rows }
    {
        Ior {
            ior: IndexOfRefraction(None),
            extras: None,
        }
    }
}

impl Object for Ior {
    ghost rows = { ior_rows };

    ghost keeps = { false };

    ghost members = { ior_members };

    ghost unknown = { λ _. no_members };

    ghost kind_is_sound = { ior_sound };

    ghost height = { 0 };

    ghost height_bounds_kind = { (ior_height.1, lit≤ tt) };

    #[tactic(auto, unfolding(crate::specs::MaterialExtension::ior_rows, crate::specs::MaterialExtension::ior_members))]
    fn start(_alloc: Global) -> Ior {
        Ior::new()
    }

    #[tactic(auto, unfolding(crate::specs::MaterialExtension::ior_rows))]
    fn count_required() -> usize {
        0
    }

    fn read_rows<R: ReadRows>(&mut self, from: &mut R) {
        from.sometimes("ior", &mut self.ior.0);
        from.optional("extras", &mut self.extras);
    }

    fn write_members<W: WriteRows>(&self, to: &mut W) {
        to.optional("extras", &self.extras);
        to.optional("ior", &self.ior.0);
    }
}

impl IndexOfRefraction {
    /// The number as a float, or [`IndexOfRefraction::DEFAULT`] if it is absent.
    pub fn value(&self) -> f64
        ensures { result ≡ float_or Self.DEFAULT self.now.0 }
    {
        match &self.0 {
            Some(number) => number.as_f64(),
            None => IndexOfRefraction::DEFAULT,
        }
    }
}

impl Tabled for IndexOfRefraction {
    ghost kind = { Number };

    ghost tree = { λ factor. tree_or_absent real_tree factor.0 };
}
