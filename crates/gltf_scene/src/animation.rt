//! Animations (glTF 2.0, sections 5.5 to 5.8).

ghost use Rattle.std.specs.Prelude.{◌≡◌, [], ◌∷◌, codes};
ghost use Rattle.gltf_base.specs.Lists.{animations};
ghost use Rattle.gltf_base.specs.SceneChoices.{property_spelling};
ghost use Rattle.gltf_schema.specs.Tree.{chosen};
ghost use Rattle.gltf_schema.specs.WithDefaults.{with_defaults};
ghost use Rattle.gltf_schema.specs.Fields.{index_tree, list_tree, closed_object};
ghost use Rattle.gltf_scene.specs.Animation.{animation_rows, animation_channel_rows, animation_target_rows, animation_sampler_rows, animation_members, animation_channel_members, animation_target_members, animation_sampler_members};

use crate::extensions;
use crate::scene::Node;
pub use gltf_base::animation::{Interpolation, Property, VALID_INTERPOLATIONS, VALID_PROPERTIES};
use gltf_base::validation::Checked;
use gltf_base::{Index, Listed};
use gltf_parts::accessor::Accessor;
use gltf_parts::extras::Extras;

mod derived;

/// A keyframe animation of nodes (glTF 2.0, section 5.5).
#[derive(Clone, Debug)]
pub struct Animation {
    /// The samplers, which channels refer to by index.
    pub samplers: Vec<Sampler>,
    /// The channels: each animates a property of a node by a sampler.
    pub channels: Vec<Channel>,
    pub name: Option<String>,
    pub extensions: Option<extensions::animation::Animation>,
    pub extras: Extras,
}

// Written by tools/derive.py: begin
impl Drop for Animation {
    #[inline(always)]
    fn drop(self) {
        let Animation {
            samplers: _,
            channels: _,
            name: _,
            extensions: _,
            extras: _,
        } = self;
    }
}
// Written by tools/derive.py: end

impl Animation {
    /// Returns an animation of these channels, which refer to the samplers by index.
    #[tactic(auto, unfolding(crate::specs::Animation::animation_rows, crate::specs::Animation::animation_members))]
    pub fn new(samplers: Vec<Sampler>, channels: Vec<Channel>) -> Animation
        ensures { animation_members result ≡ with_defaults animation_rows ((
          codes "samplers",
          list_tree (λ s. closed_object (animation_sampler_members s)) samplers.items,
        )
            ∷ (
              codes "channels",
              list_tree (λ c. closed_object (animation_channel_members c)) channels.items,
            )
            ∷ []) }
    {
        Animation {
            samplers,
            channels,
            name: None,
            extensions: None,
            extras: None,
        }
    }
}

impl Listed for Animation {
    ghost list = { animations };
}

/// A property of a node, and the sampler that animates it (glTF 2.0, section 5.6).
// What takes longest to drop comes last (docs/DECISIONS.md, "Order of fields").
#[derive(Clone, Debug, Drop)]
pub struct Channel {
    /// The index of a sampler of the same animation.
    pub sampler: Index<Sampler>,
    pub extensions: Option<extensions::animation::Channel>,
    pub extras: Extras,
    pub target: Target,
}

impl Channel {
    /// Returns a channel that animates a property by a sampler of the same animation.
    #[tactic(auto, unfolding(crate::specs::Animation::animation_channel_rows, crate::specs::Animation::animation_channel_members))]
    pub fn new(sampler: Index<Sampler>, target: Target) -> Channel
        ensures { animation_channel_members result ≡ with_defaults animation_channel_rows (
            (codes "sampler", index_tree sampler)
            ∷ (codes "target", closed_object (animation_target_members target))
            ∷ []) }
    {
        Channel {
            sampler,
            target,
            extensions: None,
            extras: None,
        }
    }
}

/// The node and its property that a channel animates (glTF 2.0, section 5.7).
#[derive(Clone, Debug, Drop)]
pub struct Target {
    pub node: Index<Node>,
    /// The property to animate.
    pub path: Checked<Property>,
    pub extensions: Option<extensions::animation::Target>,
    pub extras: Extras,
}

impl Target {
    /// Returns a target: a property of a node.
    #[tactic(auto, unfolding(crate::specs::Animation::animation_target_rows, crate::specs::Animation::animation_target_members))]
    pub fn new(node: Index<Node>, path: Property) -> Target
        ensures { animation_target_members result ≡ with_defaults animation_target_rows (
            (codes "node", index_tree node)
            ∷ (codes "path", chosen (property_spelling path))
            ∷ []) }
    {
        Target {
            node,
            path: Checked::Valid(path),
            extensions: None,
            extras: None,
        }
    }
}

/// Keyframes, and how to interpolate between them (glTF 2.0, section 5.8).
#[derive(Clone, Debug, Drop)]
pub struct Sampler {
    /// The timestamps of the keyframes, in seconds.
    pub input: Index<Accessor>,
    /// How to interpolate between keyframes.
    pub interpolation: Checked<Interpolation>,
    /// The values at the keyframes.
    pub output: Index<Accessor>,
    pub extensions: Option<extensions::animation::Sampler>,
    pub extras: Extras,
}

impl Sampler {
    /// Returns a sampler with linear interpolation.
    #[tactic(auto, unfolding(crate::specs::Animation::animation_sampler_rows, crate::specs::Animation::animation_sampler_members))]
    pub fn new(input: Index<Accessor>, output: Index<Accessor>) -> Sampler
        ensures { animation_sampler_members result ≡ with_defaults animation_sampler_rows (
            (codes "input", index_tree input)
            ∷ (codes "output", index_tree output)
            ∷ []) }
    {
        Sampler {
            input,
            interpolation: Checked::Valid(Interpolation::default()),
            output,
            extensions: None,
            extras: None,
        }
    }
}
