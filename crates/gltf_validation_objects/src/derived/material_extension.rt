//! Written by tools/derive.py from crates/gltf_parts/specs/MaterialExtension.antt,
//! crates/gltf_parts/src/extensions/material/emissive_strength.rt,
//! crates/gltf_parts/src/extensions/material/ior.rt,
//! crates/gltf_parts/src/extensions/material/pbr_specular_glossiness.rt,
//! crates/gltf_parts/src/extensions/material/specular.rt,
//! crates/gltf_parts/src/extensions/material/transmission.rt,
//! crates/gltf_parts/src/extensions/material/volume.rt and
//! crates/gltf_parts/src/extensions/material.rt. Do not edit.
#![tactic(auto, using(crate::proofs::Past::past), unfolding(gltf_parts::specs::MaterialExtension::pbr_specular_glossiness_rows, gltf_parts::specs::Texture::info_rows, gltf_parts::specs::MaterialExtension::pbr_specular_glossiness_members, gltf_parts::specs::MaterialExtension::transmission_rows, gltf_parts::specs::MaterialExtension::transmission_members, gltf_parts::specs::MaterialExtension::volume_rows, gltf_parts::specs::MaterialExtension::volume_members, gltf_parts::specs::MaterialExtension::specular_rows, gltf_parts::specs::MaterialExtension::specular_members, gltf_parts::specs::MaterialExtension::material_extension_rows, gltf_parts::specs::MaterialExtension::ior_rows, gltf_parts::specs::MaterialExtension::emissive_strength_rows, gltf_parts::specs::MaterialExtension::material_extension_members))]

ghost use Rattle.gltf_parts.specs.Material.{material_extensions};
ghost use Rattle.gltf_parts.specs.MaterialExtension.{emissive_strength_kind, emissive_strength_members, emissive_strength_rows, ior_kind, ior_members, ior_rows, material_extensions_kind, pbr_specular_glossiness_kind, pbr_specular_glossiness_tree, specular_kind, specular_members, transmission_kind, transmission_members, volume_kind, volume_members};
ghost use Rattle.gltf_schema.specs.Fields.{closed_object};
ghost use Rattle.std.specs.Prelude.{refl};

use crate::always_valid::AlwaysValid;
use crate::event::EventBuilder;
use crate::events::Events;
use crate::member_name::MemberName;
use crate::quiet::{Quiet, is_object_quiet};
use crate::references::member_state;
use crate::value_ref::ValueRef;
use crate::visitable::Visitable;
use gltf_parts::extensions::material::{
    AttenuationColor, AttenuationDistance, EmissiveStrength, EmissiveStrengthFactor,
    IndexOfRefraction, Ior, Material, PbrDiffuseFactor, PbrSpecularFactor, PbrSpecularGlossiness,
    Specular, SpecularColorFactor, SpecularFactor, ThicknessFactor, Transmission,
    TransmissionFactor, Volume,
};
use gltf_validation_rules::{Context, HasContext};

impl Visitable for PbrSpecularGlossiness {
    ghost kind = { pbr_specular_glossiness_kind };

    ghost tree = { pbr_specular_glossiness_tree };

    fn value_ref<'a>(&'a self, context: &Context<'_>) -> ValueRef<'a> {
        ValueRef::TwoTextures(
            member_state(&self.diffuse_texture, context),
            member_state(&self.specular_glossiness_texture, context),
            MemberName::DiffuseTexture,
            MemberName::SpecularGlossinessTexture,
        )
    }
}

impl Quiet for PbrSpecularGlossiness {
    fn is_quiet<C: HasContext>(&self, context: &C) -> bool {
        self.diffuse_texture.is_quiet(context) && self.specular_glossiness_texture.is_quiet(context)
    }
}

impl Visitable for Transmission {
    ghost kind = { transmission_kind };

    ghost tree = { λ v. closed_object (transmission_members v) };

    fn value_ref<'a>(&'a self, context: &Context<'_>) -> ValueRef<'a> {
        ValueRef::OneTexture(
            member_state(&self.transmission_texture, context),
            MemberName::TransmissionTexture,
        )
    }
}

impl Quiet for Transmission {
    fn is_quiet<C: HasContext>(&self, context: &C) -> bool {
        self.transmission_texture.is_quiet(context)
    }
}

impl Visitable for Volume {
    ghost kind = { volume_kind };

    ghost tree = { λ v. closed_object (volume_members v) };

    fn value_ref<'a>(&'a self, context: &Context<'_>) -> ValueRef<'a> {
        ValueRef::OneTexture(
            member_state(&self.thickness_texture, context),
            MemberName::ThicknessTexture,
        )
    }
}

impl Quiet for Volume {
    fn is_quiet<C: HasContext>(&self, context: &C) -> bool {
        self.thickness_texture.is_quiet(context)
    }
}

impl Visitable for Specular {
    ghost kind = { specular_kind };

    ghost tree = { λ v. closed_object (specular_members v) };

    fn value_ref<'a>(&'a self, context: &Context<'_>) -> ValueRef<'a> {
        ValueRef::TwoTextures(
            member_state(&self.specular_texture, context),
            member_state(&self.specular_color_texture, context),
            MemberName::SpecularTexture,
            MemberName::SpecularColorTexture,
        )
    }
}

impl Quiet for Specular {
    fn is_quiet<C: HasContext>(&self, context: &C) -> bool {
        self.specular_texture.is_quiet(context) && self.specular_color_texture.is_quiet(context)
    }
}

impl AlwaysValid for Ior {
    ghost kind = { ior_kind };

    ghost tree = { λ v. closed_object (ior_members v) };

    ghost quiet_checklist = { λ _ _. unfold ior_rows ior_members in refl };
}

impl AlwaysValid for EmissiveStrength {
    ghost kind = { emissive_strength_kind };

    ghost tree = { λ v. closed_object (emissive_strength_members v) };

    ghost quiet_checklist = { λ _ _. unfold emissive_strength_rows emissive_strength_members in refl };
}

impl Visitable for Material {
    ghost kind = { material_extensions_kind };

    ghost tree = { material_extensions };

    fn value_ref<'a>(&'a self, _context: &Context<'_>) -> ValueRef<'a> {
        ValueRef::Material(None, self)
    }
}

impl<'a, E: EventBuilder<'a>> Events<'a, E> for Material {
    fn event<C: HasContext>(&'a self, number: usize, context: &C) -> E {
        match number {
            0 => E::member(
                "KHR_materials_pbrSpecularGlossiness",
                &self.pbr_specular_glossiness,
                context,
            ),
            1 => E::member("KHR_materials_transmission", &self.transmission, context),
            2 => E::member("KHR_materials_volume", &self.volume, context),
            3 => E::member("KHR_materials_specular", &self.specular, context),
            _ => E::end(),
        }
    }
}

impl Quiet for Material {
    fn is_quiet<C: HasContext>(&self, context: &C) -> bool {
        is_object_quiet(self, context)
    }
}

impl AlwaysValid for PbrDiffuseFactor {
    ghost quiet_checklist = { λ _ _. refl };
}

impl AlwaysValid for PbrSpecularFactor {
    ghost quiet_checklist = { λ _ _. refl };
}

impl AlwaysValid for TransmissionFactor {
    ghost quiet_checklist = { λ _ _. refl };
}

impl AlwaysValid for ThicknessFactor {
    ghost quiet_checklist = { λ _ _. refl };
}

impl AlwaysValid for AttenuationDistance {
    ghost quiet_checklist = { λ _ _. refl };
}

impl AlwaysValid for AttenuationColor {
    ghost quiet_checklist = { λ _ _. refl };
}

impl AlwaysValid for SpecularFactor {
    ghost quiet_checklist = { λ _ _. refl };
}

impl AlwaysValid for SpecularColorFactor {
    ghost quiet_checklist = { λ _ _. refl };
}

impl AlwaysValid for IndexOfRefraction {
    ghost quiet_checklist = { λ _ _. refl };
}

impl AlwaysValid for EmissiveStrengthFactor {
    ghost quiet_checklist = { λ _ _. refl };
}
