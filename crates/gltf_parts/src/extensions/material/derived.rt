//! Written by tools/derive.py from crates/gltf_parts/src/extensions/material.rt and
//! crates/gltf_parts/specs/MaterialExtension.antt. Do not edit.

ghost use Rattle.gltf_parts.specs.MaterialExtension.{material_extension_members, material_extension_rows};
ghost use Rattle.gltf_parts.specs.MaterialExtensionDerived.{material_extension_height, material_extension_sound};
ghost use Rattle.gltf_schema.specs.Defaults.{defaults};
ghost use Rattle.serde_json.specs.Data.{no_members};
ghost use Rattle.serde_json.specs.View.{members_view};
ghost use Rattle.std.proofs.Common.{lit≤};
ghost use Rattle.std.specs.Prelude.{true, ◌≡◌};

use super::Material;
use gltf_schema::{Object, ReadRows, StrictObject, StrictRows, WriteRows};
use serde_json::Map;
use std::alloc::Global;

impl Material {
    /// Returns an empty extension object.
    #[tactic(auto, unfolding(crate::specs::MaterialExtension::material_extension_rows, crate::specs::MaterialExtension::material_extension_members))]
    pub fn new(alloc: Global) -> Material
        ensures known { material_extension_members result ≡ defaults material_extension_rows }
        ensures unknown { members_view result.others.entries ≡ no_members }
    {
        Material {
            pbr_specular_glossiness: None,
            unlit: None,
            transmission: None,
            volume: None,
            specular: None,
            ior: None,
            emissive_strength: None,
            others: Map::new(alloc),
        }
    }
}

impl Object for Material {
    ghost rows = { material_extension_rows };

    ghost keeps = { true };

    ghost members = { material_extension_members };

    ghost unknown = { λ e. members_view e.others.entries };

    ghost kind_is_sound = { material_extension_sound };

    ghost height = { 3 };

    ghost height_bounds_kind = { (material_extension_height.1, lit≤ tt) };

    #[tactic(auto, unfolding(crate::specs::MaterialExtension::material_extension_rows, crate::specs::MaterialExtension::material_extension_members))]
    fn start(alloc: Global) -> Material {
        Material::new(alloc)
    }

    #[tactic(auto, unfolding(crate::specs::MaterialExtension::material_extension_rows))]
    fn count_required() -> usize {
        0
    }

    fn read_rows<R: ReadRows>(&mut self, from: &mut R) {
        from.optional(
            "KHR_materials_pbrSpecularGlossiness",
            &mut self.pbr_specular_glossiness,
        );
        from.optional("KHR_materials_unlit", &mut self.unlit);
        from.optional("KHR_materials_transmission", &mut self.transmission);
        from.optional("KHR_materials_volume", &mut self.volume);
        from.optional("KHR_materials_specular", &mut self.specular);
        from.optional("KHR_materials_ior", &mut self.ior);
        from.optional(
            "KHR_materials_emissive_strength",
            &mut self.emissive_strength,
        );
        from.others(&mut self.others);
    }

    fn write_members<W: WriteRows>(&self, to: &mut W) {
        to.others(&self.others);
        to.optional("KHR_materials_emissive_strength", &self.emissive_strength);
        to.optional("KHR_materials_ior", &self.ior);
        to.optional(
            "KHR_materials_pbrSpecularGlossiness",
            &self.pbr_specular_glossiness,
        );
        to.optional("KHR_materials_specular", &self.specular);
        to.optional("KHR_materials_transmission", &self.transmission);
        to.optional("KHR_materials_unlit", &self.unlit);
        to.optional("KHR_materials_volume", &self.volume);
    }
}

impl StrictObject for Material {
    fn write_strictly<W: StrictRows>(&self, to: &mut W) {
        to.others(&self.others);
        to.optional("KHR_materials_emissive_strength", &self.emissive_strength);
        to.optional("KHR_materials_ior", &self.ior);
        to.optional_strictly(
            "KHR_materials_pbrSpecularGlossiness",
            &self.pbr_specular_glossiness,
        );
        to.optional_strictly("KHR_materials_specular", &self.specular);
        to.optional_strictly("KHR_materials_transmission", &self.transmission);
        to.optional("KHR_materials_unlit", &self.unlit);
        to.optional_strictly("KHR_materials_volume", &self.volume);
    }
}
