//! Written by tools/derive.py from crates/gltf_parts/src/extensions/material/specular.rt and
//! crates/gltf_parts/specs/MaterialExtension.antt. Do not edit.

ghost use Rattle.gltf_parts.specs.MaterialExtension.{specular_members, specular_rows};
ghost use Rattle.gltf_parts.specs.MaterialExtensionDerived.{specular_height, specular_sound};
ghost use Rattle.gltf_schema.specs.Defaults.{defaults};
ghost use Rattle.gltf_schema.specs.Fields.{real_tree, reals_tree};
ghost use Rattle.gltf_schema.specs.Floats.{float_or, floats_or};
ghost use Rattle.gltf_schema.specs.Kind.{Number, Numbers};
ghost use Rattle.gltf_schema.specs.Tree.{tree_or_absent};
ghost use Rattle.serde_json.specs.Data.{no_members};
ghost use Rattle.std.proofs.Common.{lit≤};
ghost use Rattle.std.specs.Prelude.{false, ◌≡◌};

use super::{Specular, SpecularColorFactor, SpecularFactor};
use gltf_schema::{Object, ReadRows, StrictObject, StrictRows, Tabled, WriteRows};
use std::alloc::Global;

impl Specular {
    /// Returns an object with every member at its default.
    #[tactic(auto, unfolding(crate::specs::MaterialExtension::specular_rows, crate::specs::MaterialExtension::specular_members))]
    pub fn new() -> Specular
        ensures { specular_members result ≡ defaults specular_rows }
    {
        Specular {
            specular_factor: SpecularFactor(None),
            specular_texture: None,
            specular_color_factor: SpecularColorFactor(None),
            specular_color_texture: None,
            extras: None,
        }
    }
}

impl Object for Specular {
    ghost rows = { specular_rows };

    ghost keeps = { false };

    ghost members = { specular_members };

    ghost unknown = { λ _. no_members };

    ghost kind_is_sound = { specular_sound };

    ghost height = { 2 };

    ghost height_bounds_kind = { (specular_height.1, lit≤ tt) };

    #[tactic(auto, unfolding(crate::specs::MaterialExtension::specular_rows, crate::specs::MaterialExtension::specular_members))]
    fn start(_alloc: Global) -> Specular {
        Specular::new()
    }

    #[tactic(auto, unfolding(crate::specs::MaterialExtension::specular_rows))]
    fn count_required() -> usize {
        0
    }

    fn read_rows<R: ReadRows>(&mut self, from: &mut R) {
        from.sometimes("specularFactor", &mut self.specular_factor.0);
        from.optional("specularTexture", &mut self.specular_texture);
        from.sometimes("specularColorFactor", &mut self.specular_color_factor.0);
        from.optional("specularColorTexture", &mut self.specular_color_texture);
        from.optional("extras", &mut self.extras);
    }

    fn write_members<W: WriteRows>(&self, to: &mut W) {
        to.optional("extras", &self.extras);
        to.optional("specularColorFactor", &self.specular_color_factor.0);
        to.optional("specularColorTexture", &self.specular_color_texture);
        to.optional("specularFactor", &self.specular_factor.0);
        to.optional("specularTexture", &self.specular_texture);
    }
}

impl StrictObject for Specular {
    fn write_strictly<W: StrictRows>(&self, to: &mut W) {
        to.optional("extras", &self.extras);
        to.optional("specularColorFactor", &self.specular_color_factor.0);
        to.optional_strictly("specularColorTexture", &self.specular_color_texture);
        to.optional("specularFactor", &self.specular_factor.0);
        to.optional_strictly("specularTexture", &self.specular_texture);
    }
}

impl SpecularFactor {
    /// The number as a float, or [`SpecularFactor::DEFAULT`] if it is absent.
    pub fn value(&self) -> f64
        ensures { result ≡ float_or Self.DEFAULT self.now.0 }
    {
        match &self.0 {
            Some(number) => number.as_f64(),
            None => SpecularFactor::DEFAULT,
        }
    }
}

impl Tabled for SpecularFactor {
    ghost kind = { Number };

    ghost tree = { λ factor. tree_or_absent real_tree factor.0 };
}

impl SpecularColorFactor {
    /// The numbers as floats, or [`SpecularColorFactor::DEFAULT`] if they are absent.
    pub fn values(&self) -> [f64; 3]
        ensures { result ≡ floats_or Self.DEFAULT self.now.0 }
    {
        match &self.0 {
            Some([r, g, b]) => [r.as_f64(), g.as_f64(), b.as_f64()],
            None => SpecularColorFactor::DEFAULT,
        }
    }
}

impl Tabled for SpecularColorFactor {
    ghost kind = { Numbers 3 };

    ghost tree = { λ factor. tree_or_absent reals_tree factor.0 };
}
