//! Written by tools/derive.py from crates/gltf_parts/specs/Material.antt and
//! crates/gltf_parts/src/material.rt. Do not edit.
#![tactic(auto, unfolding(gltf_parts::specs::Material::pbr_metallic_roughness_rows, gltf_parts::specs::Texture::info_rows, gltf_parts::specs::Material::pbr_metallic_roughness_members, gltf_parts::specs::Material::normal_texture_rows, gltf_parts::specs::Material::normal_texture_members, gltf_parts::specs::Material::occlusion_texture_rows, gltf_parts::specs::Material::occlusion_texture_members))]

ghost use Rattle.gltf_parts.specs.Material.{normal_texture_kind, normal_texture_members, occlusion_texture_kind, occlusion_texture_members, pbr_metallic_roughness_kind, pbr_metallic_roughness_members};
ghost use Rattle.gltf_schema.specs.Fields.{closed_object};
ghost use Rattle.std.specs.Prelude.{refl};

use crate::always_valid::AlwaysValid;
use crate::list_item::ListItem;
use crate::material::parameters_ref;
use crate::quiet::Quiet;
use crate::references::{
    ReferenceState, TextureReference, index_state, is_reference_quiet, member_state,
};
use crate::value_ref::ValueRef;
use crate::visitable::Visitable;
use gltf_parts::material::{
    EmissiveFactor, Material, NormalTexture, OcclusionTexture, PbrBaseColorFactor,
    PbrMetallicRoughness, StrengthFactor,
};
use gltf_validation_rules::{Context, HasContext};

impl Visitable for PbrMetallicRoughness {
    ghost kind = { pbr_metallic_roughness_kind };

    ghost tree = { λ v. closed_object (pbr_metallic_roughness_members v) };

    fn value_ref<'a>(&'a self, context: &Context<'_>) -> ValueRef<'a> {
        parameters_ref(
            member_state(&self.base_color_texture, context),
            member_state(&self.metallic_roughness_texture, context),
        )
    }
}

impl Quiet for PbrMetallicRoughness {
    fn is_quiet<C: HasContext>(&self, context: &C) -> bool {
        self.base_color_texture.is_quiet(context)
            && self.metallic_roughness_texture.is_quiet(context)
    }
}

impl Visitable for NormalTexture {
    ghost kind = { normal_texture_kind };

    ghost tree = { λ v. closed_object (normal_texture_members v) };

    fn value_ref<'a>(&'a self, context: &Context<'_>) -> ValueRef<'a> {
        ValueRef::TextureReference(self.state(context))
    }
}

impl TextureReference for NormalTexture {
    fn state(&self, context: &Context<'_>) -> ReferenceState {
        index_state(&self.index, context)
    }
}

impl Quiet for NormalTexture {
    fn is_quiet<C: HasContext>(&self, context: &C) -> bool {
        is_reference_quiet(self, context)
    }
}

impl Visitable for OcclusionTexture {
    ghost kind = { occlusion_texture_kind };

    ghost tree = { λ v. closed_object (occlusion_texture_members v) };

    fn value_ref<'a>(&'a self, context: &Context<'_>) -> ValueRef<'a> {
        ValueRef::TextureReference(self.state(context))
    }
}

impl TextureReference for OcclusionTexture {
    fn state(&self, context: &Context<'_>) -> ReferenceState {
        index_state(&self.index, context)
    }
}

impl Quiet for OcclusionTexture {
    fn is_quiet<C: HasContext>(&self, context: &C) -> bool {
        is_reference_quiet(self, context)
    }
}

impl ListItem for Material {
    fn list_ref<'a>(items: &'a Vec<Material>) -> ValueRef<'a> {
        ValueRef::Materials(items)
    }
}

impl AlwaysValid for PbrBaseColorFactor {
    ghost quiet_checklist = { λ _ _. refl };
}

impl AlwaysValid for StrengthFactor {
    ghost quiet_checklist = { λ _ _. refl };
}

impl AlwaysValid for EmissiveFactor {
    ghost quiet_checklist = { λ _ _. refl };
}
