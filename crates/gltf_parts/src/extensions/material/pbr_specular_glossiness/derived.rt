//! Written by tools/derive.py from
//! crates/gltf_parts/src/extensions/material/pbr_specular_glossiness.rt and
//! crates/gltf_parts/specs/MaterialExtension.antt. Do not edit.

ghost use Rattle.gltf_parts.specs.MaterialExtension.{pbr_specular_glossiness_members, pbr_specular_glossiness_rows};
ghost use Rattle.gltf_parts.specs.MaterialExtensionDerived.{pbr_specular_glossiness_height, pbr_specular_glossiness_sound};
ghost use Rattle.gltf_schema.specs.Defaults.{defaults};
ghost use Rattle.gltf_schema.specs.Fields.{reals_tree};
ghost use Rattle.gltf_schema.specs.Floats.{floats_or};
ghost use Rattle.gltf_schema.specs.Kind.{Numbers};
ghost use Rattle.gltf_schema.specs.Tree.{tree_or_absent};
ghost use Rattle.serde_json.specs.Data.{no_members};
ghost use Rattle.serde_json.specs.View.{members_view};
ghost use Rattle.std.proofs.Common.{lit≤};
ghost use Rattle.std.specs.Prelude.{true, ◌≡◌};

use super::{PbrDiffuseFactor, PbrSpecularFactor, PbrSpecularGlossiness};
use crate::material::StrengthFactor;
use gltf_schema::{Object, ReadRows, StrictObject, StrictRows, Tabled, WriteRows};
use serde_json::Map;
use std::alloc::Global;

impl PbrSpecularGlossiness {
    /// Returns parameters with every member at its default.
    #[tactic(auto, unfolding(crate::specs::MaterialExtension::pbr_specular_glossiness_rows, crate::specs::MaterialExtension::pbr_specular_glossiness_members))]
    pub fn new(alloc: Global) -> PbrSpecularGlossiness
        ensures known { pbr_specular_glossiness_members result ≡ defaults pbr_specular_glossiness_rows }
        ensures unknown { members_view result.others.entries ≡ no_members }
    {
        PbrSpecularGlossiness {
            diffuse_factor: PbrDiffuseFactor(None),
            diffuse_texture: None,
            specular_factor: PbrSpecularFactor(None),
            glossiness_factor: StrengthFactor(None),
            specular_glossiness_texture: None,
            extras: None,
            others: Map::new(alloc),
        }
    }
}

impl Object for PbrSpecularGlossiness {
    ghost rows = { pbr_specular_glossiness_rows };

    ghost keeps = { true };

    ghost members = { pbr_specular_glossiness_members };

    ghost unknown = { λ e. members_view e.others.entries };

    ghost kind_is_sound = { pbr_specular_glossiness_sound };

    ghost height = { 2 };

    ghost height_bounds_kind = { (pbr_specular_glossiness_height.1, lit≤ tt) };

    #[tactic(auto, unfolding(crate::specs::MaterialExtension::pbr_specular_glossiness_rows, crate::specs::MaterialExtension::pbr_specular_glossiness_members))]
    fn start(alloc: Global) -> PbrSpecularGlossiness {
        PbrSpecularGlossiness::new(alloc)
    }

    #[tactic(auto, unfolding(crate::specs::MaterialExtension::pbr_specular_glossiness_rows))]
    fn count_required() -> usize {
        0
    }

    fn read_rows<R: ReadRows>(&mut self, from: &mut R) {
        from.sometimes("diffuseFactor", &mut self.diffuse_factor.0);
        from.optional("diffuseTexture", &mut self.diffuse_texture);
        from.sometimes("specularFactor", &mut self.specular_factor.0);
        from.sometimes("glossinessFactor", &mut self.glossiness_factor.0);
        from.optional(
            "specularGlossinessTexture",
            &mut self.specular_glossiness_texture,
        );
        from.optional("extras", &mut self.extras);
        from.others(&mut self.others);
    }

    fn write_members<W: WriteRows>(&self, to: &mut W) {
        to.others(&self.others);
        to.optional("diffuseFactor", &self.diffuse_factor.0);
        to.optional("diffuseTexture", &self.diffuse_texture);
        to.optional("extras", &self.extras);
        to.optional("glossinessFactor", &self.glossiness_factor.0);
        to.optional("specularFactor", &self.specular_factor.0);
        to.optional(
            "specularGlossinessTexture",
            &self.specular_glossiness_texture,
        );
    }
}

impl StrictObject for PbrSpecularGlossiness {
    fn write_strictly<W: StrictRows>(&self, to: &mut W) {
        to.others(&self.others);
        to.optional("diffuseFactor", &self.diffuse_factor.0);
        to.optional_strictly("diffuseTexture", &self.diffuse_texture);
        to.optional("extras", &self.extras);
        to.optional("glossinessFactor", &self.glossiness_factor.0);
        to.optional("specularFactor", &self.specular_factor.0);
        to.optional_strictly(
            "specularGlossinessTexture",
            &self.specular_glossiness_texture,
        );
    }
}

impl PbrDiffuseFactor {
    /// The numbers as floats, or [`PbrDiffuseFactor::DEFAULT`] if they are absent.
    pub fn values(&self) -> [f64; 4]
        ensures { result ≡ floats_or Self.DEFAULT self.now.0 }
    {
        match &self.0 {
            Some([r, g, b, a]) => [r.as_f64(), g.as_f64(), b.as_f64(), a.as_f64()],
            None => PbrDiffuseFactor::DEFAULT,
        }
    }
}

impl Tabled for PbrDiffuseFactor {
    ghost kind = { Numbers 4 };

    ghost tree = { λ factor. tree_or_absent reals_tree factor.0 };
}

impl PbrSpecularFactor {
    /// The numbers as floats, or [`PbrSpecularFactor::DEFAULT`] if they are absent.
    pub fn values(&self) -> [f64; 3]
        ensures { result ≡ floats_or Self.DEFAULT self.now.0 }
    {
        match &self.0 {
            Some([r, g, b]) => [r.as_f64(), g.as_f64(), b.as_f64()],
            None => PbrSpecularFactor::DEFAULT,
        }
    }
}

impl Tabled for PbrSpecularFactor {
    ghost kind = { Numbers 3 };

    ghost tree = { λ factor. tree_or_absent reals_tree factor.0 };
}
