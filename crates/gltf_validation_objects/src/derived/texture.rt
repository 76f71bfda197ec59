//! Written by tools/derive.py from crates/gltf_parts/specs/Texture.antt,
//! crates/gltf_parts/src/extensions/texture.rt and crates/gltf_parts/src/texture.rt. Do not edit.
#![tactic(auto, using(crate::proofs::Past::past), unfolding(gltf_parts::specs::Texture::sampler_rows, gltf_parts::specs::Texture::sampler_members, gltf_parts::specs::Texture::texture_rows, gltf_parts::specs::Texture::texture_members, gltf_parts::specs::Texture::info_rows, gltf_parts::specs::Texture::info_extension_rows, gltf_parts::specs::Texture::texture_transform_rows, gltf_parts::specs::Texture::info_members))]

ghost use Rattle.gltf_parts.specs.Texture.{info_extension_members, info_extension_rows, info_extensions, info_extensions_kind, info_kind, info_members, sampler_kind, sampler_members, texture_kind, texture_members, texture_transform_kind, texture_transform_members, texture_transform_rows};
ghost use Rattle.gltf_schema.specs.Fields.{closed_object};
ghost use Rattle.std.specs.Prelude.{refl};

use crate::always_valid::AlwaysValid;
use crate::event::EventBuilder;
use crate::events::Events;
use crate::list_item::ListItem;
use crate::quiet::{Quiet, is_object_quiet};
use crate::references::{ReferenceState, TextureReference, index_state, is_reference_quiet};
use crate::value_ref::ValueRef;
use crate::visitable::Visitable;
use gltf_parts::extensions::texture::{
    TextureTransform, TextureTransformOffset, TextureTransformRotation, TextureTransformScale,
};
use gltf_parts::texture::{Sampler, Texture};
use gltf_validation_rules::{Context, HasContext, source_fault};

impl Visitable for Sampler {
    ghost kind = { sampler_kind };

    ghost tree = { λ v. closed_object (sampler_members v) };

    fn value_ref<'a>(&'a self, _context: &Context<'_>) -> ValueRef<'a> {
        ValueRef::Sampler(self)
    }
}

impl<'a, E: EventBuilder<'a>> Events<'a, E> for Sampler {
    fn event<C: HasContext>(&'a self, number: usize, context: &C) -> E {
        match number {
            0 => E::member("magFilter", &self.mag_filter, context),
            1 => E::member("minFilter", &self.min_filter, context),
            2 => E::member("wrapS", &self.wrap_s, context),
            3 => E::member("wrapT", &self.wrap_t, context),
            _ => E::end(),
        }
    }
}

impl Quiet for Sampler {
    fn is_quiet<C: HasContext>(&self, context: &C) -> bool {
        is_object_quiet(self, context)
    }
}

impl ListItem for Sampler {
    fn list_ref<'a>(items: &'a Vec<Sampler>) -> ValueRef<'a> {
        ValueRef::Samplers(items)
    }
}

impl Visitable for Texture {
    ghost kind = { texture_kind };

    ghost tree = { λ v. closed_object (texture_members v) };

    fn value_ref<'a>(&'a self, _context: &Context<'_>) -> ValueRef<'a> {
        ValueRef::Texture(self)
    }
}

impl<'a, E: EventBuilder<'a>> Events<'a, E> for Texture {
    fn event<C: HasContext>(&'a self, number: usize, context: &C) -> E {
        match number {
            0 => E::member("sampler", &self.sampler, context),
            1 => E::fault_at("source", source_fault(self, &context.context())),
            _ => E::end(),
        }
    }
}

impl Quiet for Texture {
    fn is_quiet<C: HasContext>(&self, context: &C) -> bool {
        is_object_quiet(self, context)
    }
}

impl ListItem for Texture {
    fn list_ref<'a>(items: &'a Vec<Texture>) -> ValueRef<'a> {
        ValueRef::Textures(items)
    }
}

impl AlwaysValid for TextureTransform {
    ghost kind = { texture_transform_kind };

    ghost tree = { λ v. closed_object (texture_transform_members v) };

    ghost quiet_checklist = { λ _ _. unfold texture_transform_rows texture_transform_members in refl };
}

impl AlwaysValid for gltf_parts::extensions::texture::Info {
    ghost kind = { info_extensions_kind };

    ghost tree = { info_extensions };

    ghost quiet_checklist = { λ _ _. unfold info_extension_rows texture_transform_rows
        info_extension_members in refl };
}

impl Visitable for gltf_parts::texture::Info {
    ghost kind = { info_kind };

    ghost tree = { λ v. closed_object (info_members v) };

    fn value_ref<'a>(&'a self, context: &Context<'_>) -> ValueRef<'a> {
        ValueRef::TextureReference(self.state(context))
    }
}

impl TextureReference for gltf_parts::texture::Info {
    fn state(&self, context: &Context<'_>) -> ReferenceState {
        index_state(&self.index, context)
    }
}

impl Quiet for gltf_parts::texture::Info {
    fn is_quiet<C: HasContext>(&self, context: &C) -> bool {
        is_reference_quiet(self, context)
    }
}

impl AlwaysValid for TextureTransformOffset {
    ghost quiet_checklist = { λ _ _. refl };
}

impl AlwaysValid for TextureTransformRotation {
    ghost quiet_checklist = { λ _ _. refl };
}

impl AlwaysValid for TextureTransformScale {
    ghost quiet_checklist = { λ _ _. refl };
}
