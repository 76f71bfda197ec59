//! Written by tools/derive.py from crates/gltf_scene/specs/Light.antt,
//! crates/gltf_scene/src/extensions/scene/khr_lights_punctual.rt and
//! crates/gltf_scene/src/extensions/scene/khr_materials_variants.rt. Do not edit.
#![tactic(auto, using(crate::proofs::Past::past), unfolding(gltf_scene::specs::Light::light_of_node_rows, gltf_scene::specs::Light::light_of_node_members, gltf_scene::specs::Light::light_rows, gltf_scene::specs::Light::spot_rows, gltf_scene::specs::Light::light_members))]

ghost use Rattle.gltf_scene.specs.Light.{light_kind, light_members, light_of_node_kind, light_of_node_members, spot_kind, spot_members, spot_rows, variant_kind, variant_members, variant_rows};
ghost use Rattle.gltf_schema.specs.Fields.{closed_object};
ghost use Rattle.std.specs.Prelude.{refl};

use crate::always_valid::AlwaysValid;
use crate::event::EventBuilder;
use crate::events::Events;
use crate::list_item::ListItem;
use crate::quiet::{Quiet, is_object_quiet};
use crate::value_ref::ValueRef;
use crate::visitable::Visitable;
use gltf_scene::extensions::scene::khr_lights_punctual::{KhrLightsPunctual, Light, Spot};
use gltf_scene::extensions::scene::khr_materials_variants::Variant;
use gltf_validation_rules::{Context, HasContext, spot_fault};

impl Visitable for KhrLightsPunctual {
    ghost kind = { light_of_node_kind };

    ghost tree = { λ v. closed_object (light_of_node_members v) };

    fn value_ref<'a>(&'a self, _context: &Context<'_>) -> ValueRef<'a> {
        ValueRef::NodeLight(self)
    }
}

impl<'a, E: EventBuilder<'a>> Events<'a, E> for KhrLightsPunctual {
    fn event<C: HasContext>(&'a self, number: usize, context: &C) -> E {
        match number {
            0 => E::member("light", &self.light, context),
            _ => E::end(),
        }
    }
}

impl Quiet for KhrLightsPunctual {
    fn is_quiet<C: HasContext>(&self, context: &C) -> bool {
        is_object_quiet(self, context)
    }
}

impl AlwaysValid for Spot {
    ghost kind = { spot_kind };

    ghost tree = { λ v. closed_object (spot_members v) };

    ghost quiet_checklist = { λ _ _. unfold spot_rows spot_members in refl };
}

impl Visitable for Light {
    ghost kind = { light_kind };

    ghost tree = { λ v. closed_object (light_members v) };

    fn value_ref<'a>(&'a self, _context: &Context<'_>) -> ValueRef<'a> {
        ValueRef::Light(self)
    }
}

impl<'a, E: EventBuilder<'a>> Events<'a, E> for Light {
    fn event<C: HasContext>(&'a self, number: usize, context: &C) -> E {
        match number {
            0 => E::member("type", &self.type_, context),
            1 => E::fault_at("spot", spot_fault(self)),
            _ => E::end(),
        }
    }
}

impl Quiet for Light {
    fn is_quiet<C: HasContext>(&self, context: &C) -> bool {
        is_object_quiet(self, context)
    }
}

impl ListItem for Light {
    fn list_ref<'a>(items: &'a Vec<Light>) -> ValueRef<'a> {
        ValueRef::Lights(items)
    }
}

impl AlwaysValid for Variant {
    ghost kind = { variant_kind };

    ghost tree = { λ v. closed_object (variant_members v) };

    ghost quiet_checklist = { λ _ _. unfold variant_rows variant_members in refl };
}
