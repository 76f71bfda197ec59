//! Indexes that name no item.

ghost use Rattle.std.specs.Prelude.{◌≡◌, List, slice_get};
ghost use Rattle.std.specs.Option.{option_copied};
ghost use Rattle.gltf_base.specs.Indexes.{index_number};
ghost use Rattle.gltf_base.specs.Lists.{ListName};
ghost use Rattle.gltf_base.specs.Steps.{Step};
ghost use Rattle.gltf_schema.specs.Fields.{closed_object, index_tree};
ghost use Rattle.gltf_scene.specs.Animation.{animation_members};
ghost use Rattle.gltf_root.specs.Lists.{count_in, sampler_count};
ghost use Rattle.gltf_root.specs.Root.{root_tree};
ghost use Rattle.gltf_validation_rules.specs.Report.{found_at};
ghost use Rattle.gltf_validation_rules.specs.Context.{context_of};
ghost use Rattle.gltf_validation_rules.specs.Faults.{index_faults, source_faults};

use crate::context::Context;
use gltf_base::validation::Error;
use gltf_base::{Index, IndexTo, Names};
use gltf_parts::texture::{NO_IMAGE, Texture};
use gltf_root::root::{Root, RootItem};
use gltf_scene::animation::{Animation, Channel, Sampler};

/// What is wrong with an index: `IndexOutOfBounds` if it is past the end of its list in `root`.
pub fn index_fault<P: Names>(index: &IndexTo<P>, root: &Root) -> Option<Error>
where
    P::Item: RootItem,
    ensures { (base : List Step) → found_at result base
        ≡ index_faults (count_in P.Item.list (root_tree root.now)) (index_tree index.now) base }
{
    match root.get(Index::<P::Item>::new(index.number())) {
        Some(_) => None,
        None => Some(Error::IndexOutOfBounds),
    }
}

/// What is wrong with the image that a texture names. Where its number is [`NO_IMAGE`] that is
/// `Missing`, and nothing if the rules allow it; otherwise it is what is wrong with the index.
pub fn source_fault(texture: &Texture, context: &Context<'_>) -> Option<Error>
    ensures { (base : List Step) → found_at result base
        ≡ source_faults (context_of context.now).rules.empty_texture
        (count_in ListName.images (context_of context.now).root)
        (index_tree texture.now.source) base }
{
    if texture.source != Index::new(NO_IMAGE) {
        index_fault(&texture.source, context.root)
    } else if context.rules.empty_texture {
        None
    } else {
        Some(Error::Missing)
    }
}

/// What is wrong with the sampler that a channel names: `IndexOutOfBounds` if it is past the end of
/// the animation's own samplers.
pub fn sampler_fault(channel: &Channel, animation: &Animation) -> Option<Error>
    ensures { (base : List Step) → found_at result base
        ≡ index_faults (sampler_count (closed_object (animation_members animation.now)))
        (index_tree channel.now.sampler) base }
{
    match sampler_of(channel, animation) {
        Some(_) => None,
        None => Some(Error::IndexOutOfBounds),
    }
}

/// The sampler that a channel names.
fn sampler_of<'a>(channel: &Channel, animation: &'a Animation) -> Option<&'a Sampler>
    ensures { option_copied result
        ≡ slice_get animation.now.samplers.items (index_number channel.now.sampler) }
{
    animation.samplers.get(channel.sampler.value())
}
