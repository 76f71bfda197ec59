//! Written by tools/derive.py from crates/gltf_scene/src/extensions/mesh.rt and
//! crates/gltf_scene/specs/Mesh.antt. Do not edit.

ghost use Rattle.gltf_scene.specs.Mesh.{primitive_extension_members, primitive_extension_rows, variant_mapping_members, variant_mapping_rows, variant_mappings_members, variant_mappings_rows};
ghost use Rattle.gltf_scene.specs.MeshDerived.{primitive_extension_height, primitive_extension_sound, variant_mapping_height, variant_mapping_sound, variant_mappings_height, variant_mappings_sound};
ghost use Rattle.gltf_schema.specs.Defaults.{defaults};
ghost use Rattle.serde_json.specs.Data.{no_members};
ghost use Rattle.serde_json.specs.View.{members_view};
ghost use Rattle.std.proofs.Common.{lit≤};
ghost use Rattle.std.specs.Prelude.{false, true, ◌≡◌};

use super::{KhrMaterialsVariants, Mapping, Primitive};
use gltf_schema::{Object, ReadRows, WriteRows};
use serde_json::Map;
use std::alloc::Global;

impl Object for Mapping {
    ghost rows = { variant_mapping_rows };

    ghost keeps = { false };

    ghost members = { variant_mapping_members };

    ghost unknown = { λ _. no_members };

    ghost kind_is_sound = { variant_mapping_sound };

    ghost height = { 0 };

    ghost height_bounds_kind = { (variant_mapping_height.1, lit≤ tt) };

    #[tactic(auto, unfolding(crate::specs::Mesh::variant_mapping_rows, crate::specs::Mesh::variant_mapping_members))]
    fn start(alloc: Global) -> Mapping {
        Mapping {
            material: 0,
            variants: Vec::new(alloc),
        }
    }

    #[tactic(auto, unfolding(crate::specs::Mesh::variant_mapping_rows))]
    fn count_required() -> usize {
        2
    }

    fn read_rows<R: ReadRows>(&mut self, from: &mut R) {
        from.required("material", &mut self.material);
        from.required("variants", &mut self.variants);
    }

    fn write_members<W: WriteRows>(&self, to: &mut W) {
        to.always("material", &self.material);
        to.always("variants", &self.variants);
    }
}

impl Object for KhrMaterialsVariants {
    ghost rows = { variant_mappings_rows };

    ghost keeps = { false };

    ghost members = { variant_mappings_members };

    ghost unknown = { λ _. no_members };

    ghost kind_is_sound = { variant_mappings_sound };

    ghost height = { 0 };

    ghost height_bounds_kind = { (variant_mappings_height.1, lit≤ tt) };

    #[tactic(auto, unfolding(crate::specs::Mesh::variant_mappings_rows, crate::specs::Mesh::variant_mappings_members))]
    fn start(alloc: Global) -> KhrMaterialsVariants {
        KhrMaterialsVariants {
            mappings: Vec::new(alloc),
        }
    }

    #[tactic(auto, unfolding(crate::specs::Mesh::variant_mappings_rows))]
    fn count_required() -> usize {
        1
    }

    fn read_rows<R: ReadRows>(&mut self, from: &mut R) {
        from.required("mappings", &mut self.mappings);
    }

    fn write_members<W: WriteRows>(&self, to: &mut W) {
        to.always("mappings", &self.mappings);
    }
}

impl Primitive {
    /// Returns an empty extension object.
    #[tactic(auto, unfolding(crate::specs::Mesh::primitive_extension_rows, crate::specs::Mesh::primitive_extension_members))]
    pub fn new(alloc: Global) -> Primitive
        ensures known { primitive_extension_members result ≡ defaults primitive_extension_rows }
        ensures unknown { members_view result.others.entries ≡ no_members }
    {
        Primitive {
            khr_materials_variants: None,
            others: Map::new(alloc),
        }
    }
}

impl Object for Primitive {
    ghost rows = { primitive_extension_rows };

    ghost keeps = { true };

    ghost members = { primitive_extension_members };

    ghost unknown = { λ e. members_view e.others.entries };

    ghost kind_is_sound = { primitive_extension_sound };

    ghost height = { 0 };

    ghost height_bounds_kind = { (primitive_extension_height.1, lit≤ tt) };

    #[tactic(auto, unfolding(crate::specs::Mesh::primitive_extension_rows, crate::specs::Mesh::primitive_extension_members))]
    fn start(alloc: Global) -> Primitive {
        Primitive::new(alloc)
    }

    #[tactic(auto, unfolding(crate::specs::Mesh::primitive_extension_rows))]
    fn count_required() -> usize {
        0
    }

    fn read_rows<R: ReadRows>(&mut self, from: &mut R) {
        from.optional("KHR_materials_variants", &mut self.khr_materials_variants);
        from.others(&mut self.others);
    }

    fn write_members<W: WriteRows>(&self, to: &mut W) {
        to.others(&self.others);
        to.optional("KHR_materials_variants", &self.khr_materials_variants);
    }
}
