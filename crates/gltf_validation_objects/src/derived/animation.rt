//! Written by tools/derive.py from crates/gltf_scene/specs/Animation.antt and
//! crates/gltf_scene/src/animation.rt. Do not edit.
#![tactic(auto, using(crate::proofs::Past::past), unfolding(gltf_scene::specs::Animation::animation_sampler_rows, gltf_scene::specs::Animation::animation_sampler_members, gltf_scene::specs::Animation::animation_target_rows, gltf_scene::specs::Animation::animation_target_members, gltf_scene::specs::Animation::animation_rows, gltf_scene::specs::Animation::animation_channel_rows, gltf_scene::specs::Animation::animation_members))]

ghost use Rattle.gltf_scene.specs.Animation.{animation_kind, animation_members, animation_sampler_kind, animation_sampler_members, animation_target_kind, animation_target_members};
ghost use Rattle.gltf_schema.specs.Fields.{closed_object};

use crate::event::EventBuilder;
use crate::events::Events;
use crate::list_item::ListItem;
use crate::lists::are_channels_quiet;
use crate::quiet::{Quiet, is_object_quiet};
use crate::value_ref::ValueRef;
use crate::visitable::Visitable;
use gltf_base::Step;
use gltf_scene::animation::{Animation, Sampler, Target};
use gltf_validation_rules::{Context, HasContext};

impl Visitable for Sampler {
    ghost kind = { animation_sampler_kind };

    ghost tree = { λ v. closed_object (animation_sampler_members v) };

    fn value_ref<'a>(&'a self, _context: &Context<'_>) -> ValueRef<'a> {
        ValueRef::AnimationSampler(self)
    }
}

impl<'a, E: EventBuilder<'a>> Events<'a, E> for Sampler {
    fn event<C: HasContext>(&'a self, number: usize, context: &C) -> E {
        match number {
            0 => E::member("input", &self.input, context),
            1 => E::member("interpolation", &self.interpolation, context),
            2 => E::member("output", &self.output, context),
            _ => E::end(),
        }
    }
}

impl Quiet for Sampler {
    fn is_quiet<C: HasContext>(&self, context: &C) -> bool {
        is_object_quiet(self, context)
    }
}

impl ListItem for Sampler {
    fn list_ref<'a>(items: &'a Vec<Sampler>) -> ValueRef<'a> {
        ValueRef::AnimationSamplers(items)
    }
}

impl Visitable for Target {
    ghost kind = { animation_target_kind };

    ghost tree = { λ v. closed_object (animation_target_members v) };

    fn value_ref<'a>(&'a self, _context: &Context<'_>) -> ValueRef<'a> {
        ValueRef::AnimationTarget(self)
    }
}

impl<'a, E: EventBuilder<'a>> Events<'a, E> for Target {
    fn event<C: HasContext>(&'a self, number: usize, context: &C) -> E {
        match number {
            0 => E::member("node", &self.node, context),
            1 => E::member("path", &self.path, context),
            _ => E::end(),
        }
    }
}

impl Quiet for Target {
    fn is_quiet<C: HasContext>(&self, context: &C) -> bool {
        is_object_quiet(self, context)
    }
}

impl Visitable for Animation {
    ghost kind = { animation_kind };

    ghost tree = { λ v. closed_object (animation_members v) };

    fn value_ref<'a>(&'a self, _context: &Context<'_>) -> ValueRef<'a> {
        ValueRef::Animation(self)
    }
}

impl<'a, E: EventBuilder<'a>> Events<'a, E> for Animation {
    fn event<C: HasContext>(&'a self, number: usize, context: &C) -> E {
        match number {
            0 => E::member("samplers", &self.samplers, context),
            1 => E::enter(
                Step::Field("channels"),
                ValueRef::Channels(self),
                are_channels_quiet(self, context),
                context,
            ),
            _ => E::end(),
        }
    }
}

impl Quiet for Animation {
    fn is_quiet<C: HasContext>(&self, context: &C) -> bool {
        is_object_quiet(self, context)
    }
}

impl ListItem for Animation {
    fn list_ref<'a>(items: &'a Vec<Animation>) -> ValueRef<'a> {
        ValueRef::Animations(items)
    }
}
