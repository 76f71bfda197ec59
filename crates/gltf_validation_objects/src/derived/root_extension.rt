//! Written by tools/derive.py from crates/gltf_root/specs/RootExtension.antt and
//! crates/gltf_root/src/extensions/root.rt. Do not edit.
#![tactic(auto, using(crate::proofs::Past::past), unfolding(gltf_root::specs::RootExtension::lights_rows, gltf_root::specs::RootExtension::lights_members, gltf_root::specs::RootExtension::root_extension_rows, gltf_root::specs::RootExtension::variants_rows, gltf_scene::specs::Light::variant_rows, gltf_root::specs::RootExtension::root_extension_members))]

ghost use Rattle.gltf_root.specs.RootExtension.{lights_kind, lights_members, root_extensions, root_extensions_kind, variants_kind, variants_members, variants_rows};
ghost use Rattle.gltf_scene.specs.Light.{variant_rows};
ghost use Rattle.gltf_schema.specs.Fields.{closed_object};
ghost use Rattle.std.specs.Prelude.{refl};

use crate::always_valid::AlwaysValid;
use crate::event::EventBuilder;
use crate::events::Events;
use crate::quiet::{Quiet, is_object_quiet};
use crate::value_ref::ValueRef;
use crate::visitable::Visitable;
use gltf_root::extensions::root::{KhrLightsPunctual, KhrMaterialsVariants, Root};
use gltf_validation_rules::{Context, HasContext};

impl Visitable for KhrLightsPunctual {
    ghost kind = { lights_kind };

    ghost tree = { λ v. closed_object (lights_members v) };

    fn value_ref<'a>(&'a self, _context: &Context<'_>) -> ValueRef<'a> {
        ValueRef::RootLights(self)
    }
}

impl<'a, E: EventBuilder<'a>> Events<'a, E> for KhrLightsPunctual {
    fn event<C: HasContext>(&'a self, number: usize, context: &C) -> E {
        match number {
            0 => E::member("lights", &self.lights, context),
            _ => E::end(),
        }
    }
}

impl Quiet for KhrLightsPunctual {
    fn is_quiet<C: HasContext>(&self, context: &C) -> bool {
        is_object_quiet(self, context)
    }
}

impl AlwaysValid for KhrMaterialsVariants {
    ghost kind = { variants_kind };

    ghost tree = { λ v. closed_object (variants_members v) };

    ghost quiet_checklist = { λ _ _. unfold variants_rows variant_rows variants_members in refl };
}

impl Visitable for Root {
    ghost kind = { root_extensions_kind };

    ghost tree = { root_extensions };

    fn value_ref<'a>(&'a self, _context: &Context<'_>) -> ValueRef<'a> {
        ValueRef::RootExtensions(self)
    }
}

impl<'a, E: EventBuilder<'a>> Events<'a, E> for Root {
    fn event<C: HasContext>(&'a self, number: usize, context: &C) -> E {
        match number {
            0 => E::member("KHR_lights_punctual", &self.khr_lights_punctual, context),
            _ => E::end(),
        }
    }
}

impl Quiet for Root {
    fn is_quiet<C: HasContext>(&self, context: &C) -> bool {
        is_object_quiet(self, context)
    }
}
