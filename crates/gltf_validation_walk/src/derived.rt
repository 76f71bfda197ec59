//! Written by tools/derive.py from the rows and the structs of all objects and
//! tools/derive_exceptions.py. Do not edit.

ghost use Rattle.gltf_validation_objects.specs.Checklist.{move_at, quiet};
ghost use Rattle.gltf_validation_objects.specs.ValueRefs.{IsNumbered, checklist_of, is_looked_at};
ghost use Rattle.std.specs.Prelude.{◌&&◌, ◌+◌, ◌<◌, ◌^◌, ◌≡◌};

use crate::values::FromEvent;
use gltf_validation_objects::{
    Events, Quiet, ValueRef, at_attributes, at_material, channel_at, extension_at, in_attribute,
    in_channel, in_extension, in_material, in_one_texture, in_positions, in_reference,
    in_two_textures, is_channel_quiet, is_material_quiet, is_name_quiet, item_at, leaf_at,
};
use gltf_validation_rules::HasContext;

/// [`event`](crate::event) as anything that can be made of one. Code that doesn't name `Event` and
/// `Context` is cheaper to prove.
pub(crate) fn event_of<'a, E: FromEvent<'a>, C: HasContext>(
    value: ValueRef<'a>,
    number: usize,
    context: &C,
) -> E
    requires { IsNumbered value }
    ensures comes { E.describes_move (C.context context.now)
        (move_at (checklist_of (C.context context.now) value.entry) number) result }
    ensures small { E.is_more result → number + 1 < 2 ^ 64 }
{
    match value {
        ValueRef::Leaf(fault) => leaf_at(fault, number),
        ValueRef::RequiredExtensions(names) => E::from_event(extension_at(names, number)),
        ValueRef::RequiredExtension(name) => E::from_event(in_extension(name, number, context)),
        ValueRef::Channels(animation) => E::from_event(channel_at(animation, number)),
        ValueRef::Channel(channel, animation) => in_channel(channel, animation, number, context),
        ValueRef::Material(faults, extensions) => at_material(faults, extensions, number, context),
        ValueRef::PlainMaterial(faults) => in_material(faults, None, number, context),
        ValueRef::TextureReference(state) => in_reference(state, number),
        ValueRef::OneTexture(state, name) => E::from_event(in_one_texture(state, name, number)),
        ValueRef::TwoTextures(first, second, first_name, second_name) => E::from_event(
            in_two_textures(first, second, first_name, second_name, number),
        ),
        ValueRef::Attributes(_) => unreachable!(),
        ValueRef::Attribute(key, index) => in_attribute(key, index, number),
        ValueRef::AtPositions(faults) => E::from_event(at_attributes(faults, number)),
        ValueRef::Positions(faults) => in_positions(faults, number),
        ValueRef::NodeIndexes(indexes) => item_at(indexes, number, context),
        ValueRef::SparseIndices(value) => value.event(number, context),
        ValueRef::SparseValues(value) => value.event(number, context),
        ValueRef::Sparse(value) => value.event(number, context),
        ValueRef::Accessors(value) => item_at(value, number, context),
        ValueRef::Accessor(value) => value.event(number, context),
        ValueRef::Views(value) => item_at(value, number, context),
        ValueRef::View(value) => value.event(number, context),
        ValueRef::Images(value) => item_at(value, number, context),
        ValueRef::Image(value) => value.event(number, context),
        ValueRef::Materials(value) => item_at(value, number, context),
        ValueRef::Samplers(value) => item_at(value, number, context),
        ValueRef::Sampler(value) => value.event(number, context),
        ValueRef::Textures(value) => item_at(value, number, context),
        ValueRef::Texture(value) => value.event(number, context),
        ValueRef::Root(value) => value.event(number, context),
        ValueRef::RootLights(value) => value.event(number, context),
        ValueRef::RootExtensions(value) => value.event(number, context),
        ValueRef::AnimationSamplers(value) => item_at(value, number, context),
        ValueRef::AnimationSampler(value) => value.event(number, context),
        ValueRef::AnimationTarget(value) => value.event(number, context),
        ValueRef::Animations(value) => item_at(value, number, context),
        ValueRef::Animation(value) => value.event(number, context),
        ValueRef::Cameras(value) => item_at(value, number, context),
        ValueRef::Camera(value) => value.event(number, context),
        ValueRef::NodeLight(value) => value.event(number, context),
        ValueRef::Lights(value) => item_at(value, number, context),
        ValueRef::Light(value) => value.event(number, context),
        ValueRef::MorphTargets(value) => item_at(value, number, context),
        ValueRef::MorphTarget(value) => value.event(number, context),
        ValueRef::Primitives(value) => item_at(value, number, context),
        ValueRef::Primitive(value) => value.event(number, context),
        ValueRef::Meshes(value) => item_at(value, number, context),
        ValueRef::Mesh(value) => value.event(number, context),
        ValueRef::NodeExtensions(value) => value.event(number, context),
        ValueRef::Nodes(value) => item_at(value, number, context),
        ValueRef::Node(value) => value.event(number, context),
        ValueRef::Scenes(value) => item_at(value, number, context),
        ValueRef::Scene(value) => value.event(number, context),
        ValueRef::Skins(value) => item_at(value, number, context),
        ValueRef::Skin(value) => value.event(number, context),
    }
}

/// Whether a walk looks at the value as a whole, and nothing is wrong in it. A walk looks at the
/// items of lists and at values that hold all their faults. Other values get a frame without a
/// look, which keeps a walk linear: a fault is looked at once for each list above it.
pub fn is_quiet<C: HasContext>(value: &ValueRef<'_>, context: &C) -> bool
    ensures { result ≡ is_looked_at value.now
        && quiet (checklist_of (C.context context.now) value.now) }
{
    match value {
        ValueRef::Accessor(item) => item.is_quiet(context),
        ValueRef::View(item) => item.is_quiet(context),
        ValueRef::Image(item) => item.is_quiet(context),
        ValueRef::Sampler(item) => item.is_quiet(context),
        ValueRef::Texture(item) => item.is_quiet(context),
        ValueRef::AnimationSampler(item) => item.is_quiet(context),
        ValueRef::Animation(item) => item.is_quiet(context),
        ValueRef::Camera(item) => item.is_quiet(context),
        ValueRef::Light(item) => item.is_quiet(context),
        ValueRef::MorphTarget(item) => item.is_quiet(context),
        ValueRef::Primitive(item) => item.is_quiet(context),
        ValueRef::Mesh(item) => item.is_quiet(context),
        ValueRef::Node(item) => item.is_quiet(context),
        ValueRef::Scene(item) => item.is_quiet(context),
        ValueRef::Skin(item) => item.is_quiet(context),
        ValueRef::Material(Some(faults), extensions) => is_material_quiet(
            faults,
            Some(*extensions),
            context,
        ),
        ValueRef::PlainMaterial(faults) => is_material_quiet(faults, None, context),
        ValueRef::Channel(channel, animation) => is_channel_quiet(channel, animation, context),
        ValueRef::RequiredExtension(name) => is_name_quiet(name, context),
        found => found.has_no_fault(),
    }
}
