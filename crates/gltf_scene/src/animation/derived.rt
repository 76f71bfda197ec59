//! Written by tools/derive.py from crates/gltf_scene/src/animation.rt and
//! crates/gltf_scene/specs/Animation.antt. Do not edit.

ghost use Rattle.gltf_scene.specs.Animation.{animation_channel_members, animation_channel_rows, animation_members, animation_rows, animation_sampler_members, animation_sampler_rows, animation_target_members, animation_target_rows};
ghost use Rattle.gltf_scene.specs.AnimationDerived.{animation_channel_height, animation_channel_sound, animation_height, animation_sampler_height, animation_sampler_sound, animation_sound, animation_target_height, animation_target_sound};
ghost use Rattle.gltf_schema.specs.Kind.{holds_samplers};
ghost use Rattle.serde_json.specs.Data.{no_members};
ghost use Rattle.std.proofs.Common.{lit≤};
ghost use Rattle.std.specs.Prelude.{false};

use super::{Animation, Channel, Sampler, Target};
use gltf_base::Index;
use gltf_base::animation::Interpolation;
use gltf_base::validation::Checked;
use gltf_schema::{Object, ReadRows, WriteRows};
use std::alloc::Global;

impl Object for Sampler {
    ghost rows = { animation_sampler_rows };

    ghost keeps = { false };

    ghost members = { animation_sampler_members };

    ghost unknown = { λ _. no_members };

    ghost kind_is_sound = { animation_sampler_sound };

    ghost height = { 1 };

    ghost height_bounds_kind = { (animation_sampler_height.1, lit≤ tt) };

    #[tactic(auto, unfolding(crate::specs::Animation::animation_sampler_rows, crate::specs::Animation::animation_sampler_members))]
    fn start(_alloc: Global) -> Sampler {
        Sampler {
            input: Index::new(0),
            interpolation: Checked::Valid(Interpolation::Linear),
            output: Index::new(0),
            extensions: None,
            extras: None,
        }
    }

    #[tactic(auto, unfolding(crate::specs::Animation::animation_sampler_rows))]
    fn count_required() -> usize {
        2
    }

    fn read_rows<R: ReadRows>(&mut self, from: &mut R) {
        from.required("input", &mut self.input);
        from.or_default("interpolation", &mut self.interpolation);
        from.required("output", &mut self.output);
        from.optional("extensions", &mut self.extensions);
        from.optional("extras", &mut self.extras);
    }

    fn write_members<W: WriteRows>(&self, to: &mut W) {
        to.optional("extensions", &self.extensions);
        to.optional("extras", &self.extras);
        to.always("input", &self.input);
        to.always("interpolation", &self.interpolation);
        to.always("output", &self.output);
    }
}

impl Object for Target {
    ghost rows = { animation_target_rows };

    ghost keeps = { false };

    ghost members = { animation_target_members };

    ghost unknown = { λ _. no_members };

    ghost kind_is_sound = { animation_target_sound };

    ghost height = { 1 };

    ghost height_bounds_kind = { (animation_target_height.1, lit≤ tt) };

    #[tactic(auto, unfolding(crate::specs::Animation::animation_target_rows, crate::specs::Animation::animation_target_members))]
    fn start(_alloc: Global) -> Target {
        Target {
            node: Index::new(0),
            path: Checked::Invalid,
            extensions: None,
            extras: None,
        }
    }

    #[tactic(auto, unfolding(crate::specs::Animation::animation_target_rows))]
    fn count_required() -> usize {
        2
    }

    fn read_rows<R: ReadRows>(&mut self, from: &mut R) {
        from.required("node", &mut self.node);
        from.required("path", &mut self.path);
        from.optional("extensions", &mut self.extensions);
        from.optional("extras", &mut self.extras);
    }

    fn write_members<W: WriteRows>(&self, to: &mut W) {
        to.optional("extensions", &self.extensions);
        to.optional("extras", &self.extras);
        to.always("node", &self.node);
        to.always("path", &self.path);
    }
}

impl Object for Channel {
    ghost rows = { animation_channel_rows };

    ghost keeps = { false };

    ghost members = { animation_channel_members };

    ghost unknown = { λ _. no_members };

    ghost kind_is_sound = { animation_channel_sound };

    ghost height = { 2 };

    ghost height_bounds_kind = { (animation_channel_height.1, lit≤ tt) };

    #[tactic(auto, unfolding(crate::specs::Animation::animation_channel_rows, crate::specs::Animation::animation_channel_members))]
    fn start(alloc: Global) -> Channel {
        Channel {
            sampler: Index::new(0),
            target: Target::start(alloc),
            extensions: None,
            extras: None,
        }
    }

    #[tactic(auto, unfolding(crate::specs::Animation::animation_channel_rows))]
    fn count_required() -> usize {
        2
    }

    fn read_rows<R: ReadRows>(&mut self, from: &mut R) {
        let mut number = self.sampler.number();
        from.required("sampler", &mut number);
        self.sampler = Index::new(number);
        from.required("target", &mut self.target);
        from.optional("extensions", &mut self.extensions);
        from.optional("extras", &mut self.extras);
    }

    fn write_members<W: WriteRows>(&self, to: &mut W) {
        to.optional("extensions", &self.extensions);
        to.optional("extras", &self.extras);
        to.always("sampler", &self.sampler.number());
        to.always("target", &self.target);
    }
}

impl Object for Animation {
    ghost rule = { holds_samplers };

    ghost rows = { animation_rows };

    ghost keeps = { false };

    ghost members = { animation_members };

    ghost unknown = { λ _. no_members };

    ghost kind_is_sound = { animation_sound };

    ghost height = { 4 };

    ghost height_bounds_kind = { (animation_height.1, lit≤ tt) };

    #[tactic(auto, unfolding(crate::specs::Animation::animation_rows, crate::specs::Animation::animation_members))]
    fn start(alloc: Global) -> Animation {
        Animation {
            samplers: Vec::new(alloc),
            channels: Vec::new(alloc),
            name: None,
            extensions: None,
            extras: None,
        }
    }

    #[tactic(auto, unfolding(crate::specs::Animation::animation_rows))]
    fn count_required() -> usize {
        0
    }

    fn read_rows<R: ReadRows>(&mut self, from: &mut R) {
        from.or_default("samplers", &mut self.samplers);
        from.or_default("channels", &mut self.channels);
        from.optional("name", &mut self.name);
        from.optional("extensions", &mut self.extensions);
        from.optional("extras", &mut self.extras);
    }

    fn write_members<W: WriteRows>(&self, to: &mut W) {
        to.list("channels", &self.channels);
        to.optional("extensions", &self.extensions);
        to.optional("extras", &self.extras);
        to.optional("name", &self.name);
        to.list("samplers", &self.samplers);
    }
}
