//! Written by tools/derive.py from crates/gltf_scene/specs/Mesh.antt,
//! crates/gltf_scene/src/extensions/mesh.rt and crates/gltf_scene/src/mesh.rt. Do not edit.
#![tactic(auto, using(crate::proofs::Past::past), unfolding(gltf_scene::specs::Mesh::morph_target_rows, gltf_scene::specs::Mesh::morph_target_members, gltf_scene::specs::Mesh::primitive_rows, gltf_scene::specs::Mesh::primitive_extension_rows, gltf_scene::specs::Mesh::variant_mappings_rows, gltf_scene::specs::Mesh::variant_mapping_rows, gltf_scene::specs::Mesh::primitive_members, gltf_scene::specs::Mesh::mesh_rows, gltf_scene::specs::Mesh::mesh_members))]

ghost use Rattle.gltf_scene.specs.Mesh.{mesh_kind, mesh_members, morph_target_kind, morph_target_members, primitive_extension_members, primitive_extension_rows, primitive_extensions, primitive_extensions_kind, primitive_kind, primitive_members, variant_mapping_kind, variant_mapping_members, variant_mapping_rows, variant_mappings_kind, variant_mappings_members, variant_mappings_rows};
ghost use Rattle.gltf_schema.specs.Fields.{closed_object};
ghost use Rattle.std.specs.Prelude.{refl};

use crate::always_valid::AlwaysValid;
use crate::event::EventBuilder;
use crate::events::Events;
use crate::list_item::ListItem;
use crate::lists::are_positions_quiet;
use crate::quiet::{Quiet, is_object_quiet};
use crate::value_ref::ValueRef;
use crate::visitable::Visitable;
use gltf_base::Step;
use gltf_scene::extensions::mesh::{KhrMaterialsVariants, Mapping};
use gltf_scene::mesh::{Mesh, MorphTarget};
use gltf_validation_rules::{Context, HasContext, position_faults};

impl AlwaysValid for Mapping {
    ghost kind = { variant_mapping_kind };

    ghost tree = { λ v. closed_object (variant_mapping_members v) };

    ghost quiet_checklist = { λ _ _. unfold variant_mapping_rows variant_mapping_members in refl };
}

impl AlwaysValid for KhrMaterialsVariants {
    ghost kind = { variant_mappings_kind };

    ghost tree = { λ v. closed_object (variant_mappings_members v) };

    ghost quiet_checklist = { λ _ _. unfold variant_mappings_rows variant_mapping_rows
        variant_mappings_members in refl };
}

impl AlwaysValid for gltf_scene::extensions::mesh::Primitive {
    ghost kind = { primitive_extensions_kind };

    ghost tree = { primitive_extensions };

    ghost quiet_checklist = { λ _ _. unfold primitive_extension_rows variant_mappings_rows
        variant_mapping_rows primitive_extension_members in refl };
}

impl Visitable for MorphTarget {
    ghost kind = { morph_target_kind };

    ghost tree = { λ v. closed_object (morph_target_members v) };

    fn value_ref<'a>(&'a self, _context: &Context<'_>) -> ValueRef<'a> {
        ValueRef::MorphTarget(self)
    }
}

impl<'a, E: EventBuilder<'a>> Events<'a, E> for MorphTarget {
    fn event<C: HasContext>(&'a self, number: usize, context: &C) -> E {
        match number {
            0 => E::member("POSITION", &self.positions, context),
            1 => E::member("NORMAL", &self.normals, context),
            2 => E::member("TANGENT", &self.tangents, context),
            _ => E::end(),
        }
    }
}

impl Quiet for MorphTarget {
    fn is_quiet<C: HasContext>(&self, context: &C) -> bool {
        is_object_quiet(self, context)
    }
}

impl ListItem for MorphTarget {
    fn list_ref<'a>(items: &'a Vec<MorphTarget>) -> ValueRef<'a> {
        ValueRef::MorphTargets(items)
    }
}

impl Visitable for gltf_scene::mesh::Primitive {
    ghost kind = { primitive_kind };

    ghost tree = { λ v. closed_object (primitive_members v) };

    fn value_ref<'a>(&'a self, _context: &Context<'_>) -> ValueRef<'a> {
        ValueRef::Primitive(self)
    }
}

impl<'a, E: EventBuilder<'a>> Events<'a, E> for gltf_scene::mesh::Primitive {
    fn event<C: HasContext>(&'a self, number: usize, context: &C) -> E {
        match number {
            0 => E::member("attributes", &self.attributes, context),
            1 => E::member("indices", &self.indices, context),
            2 => E::member("material", &self.material, context),
            3 => E::member("mode", &self.mode, context),
            4 => E::member("targets", &self.targets, context),
            5 => {
                let faults = position_faults(self, context.context().root);
                E::enter(
                    Step::Field("attributes"),
                    ValueRef::AtPositions(faults),
                    are_positions_quiet(faults),
                    context,
                )
            }
            _ => E::end(),
        }
    }
}

impl Quiet for gltf_scene::mesh::Primitive {
    fn is_quiet<C: HasContext>(&self, context: &C) -> bool {
        is_object_quiet(self, context)
    }
}

impl ListItem for gltf_scene::mesh::Primitive {
    fn list_ref<'a>(items: &'a Vec<gltf_scene::mesh::Primitive>) -> ValueRef<'a> {
        ValueRef::Primitives(items)
    }
}

impl Visitable for Mesh {
    ghost kind = { mesh_kind };

    ghost tree = { λ v. closed_object (mesh_members v) };

    fn value_ref<'a>(&'a self, _context: &Context<'_>) -> ValueRef<'a> {
        ValueRef::Mesh(self)
    }
}

impl<'a, E: EventBuilder<'a>> Events<'a, E> for Mesh {
    fn event<C: HasContext>(&'a self, number: usize, context: &C) -> E {
        match number {
            0 => E::member("primitives", &self.primitives, context),
            _ => E::end(),
        }
    }
}

impl Quiet for Mesh {
    fn is_quiet<C: HasContext>(&self, context: &C) -> bool {
        is_object_quiet(self, context)
    }
}

impl ListItem for Mesh {
    fn list_ref<'a>(items: &'a Vec<Mesh>) -> ValueRef<'a> {
        ValueRef::Meshes(items)
    }
}
