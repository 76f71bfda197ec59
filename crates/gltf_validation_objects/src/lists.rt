//! The events of lists, of attributes, and of the places that the rules of objects name.
#![tactic(auto, using(crate::proofs::Past::past, crate::proofs::Past::at_most_one_fault))]

ghost use Rattle.std.specs.Prelude.{◌≡◌, ◌+◌, ◌<◌, ◌^◌, []};
ghost use Rattle.gltf_scene.specs.Animation.{animation_channel_kind, animation_channel_members, animation_members};
ghost use Rattle.gltf_schema.specs.Fields.{closed_object, list_tree, text_tree};
ghost use Rattle.gltf_schema.specs.Kind.{ListOf};
ghost use Rattle.gltf_schema.specs.Tree.{absent, items_in};
ghost use Rattle.gltf_validation_rules.specs.Context.{context_of};
ghost use Rattle.gltf_validation_objects.specs.Moves.{IsGiven, IsMore};
ghost use Rattle.gltf_validation_objects.specs.Checklist.{move_at, first_move, leaf, place, quiet, rest_after};
ghost use Rattle.gltf_validation_objects.specs.ChecklistOf.{at_positions, entry_checklist, faults_checklist, item_checklists, name_checklist, checklist};

use crate::event::{Event, EventBuilder};
use crate::quiet::Quiet;
use crate::value_ref::ValueRef;
use gltf_base::Step;
use gltf_base::validation::Error;
use gltf_scene::animation::{Animation, Channel};
use gltf_validation_rules::{HasContext, PositionFaults, extension_fault, sampler_fault};

/// The event at a number of a place with nothing below.
pub fn leaf_at<'a, E: EventBuilder<'a>>(fault: Option<Error>, number: usize) -> E
    ensures comes { (context : _) → E.describes_move context (move_at (leaf fault) number) result }
    ensures small { E.is_more result → number + 1 < 2 ^ 64 }
{
    match number {
        0 => E::fault_here(fault),
        _ => E::end(),
    }
}

/// The item of a list at a number.
pub fn item_at<'a, T: Quiet, E: EventBuilder<'a>, C: HasContext>(
    items: &'a Vec<T>,
    number: usize,
    context: &C,
) -> E
    ensures comes { E.describes_move (C.context context.now)
        (move_at (checklist (ListOf T.kind) (list_tree T.tree items.now.items)
        (C.context context.now) absent) number) result }
    ensures small { E.is_more result → number + 1 < 2 ^ 64 }
{
    match items.get(number) {
        Some(item) => E::item(number, item, context),
        None => E::end(),
    }
}

/// The event at a number of an attribute: the fault of its key, then the fault of its index.
pub fn in_attribute<'a, E: EventBuilder<'a>>(
    key: Option<Error>,
    index: Option<Error>,
    number: usize,
) -> E
    ensures comes { (context : _)
        → E.describes_move context (move_at (entry_checklist key index) number) result }
    ensures small { E.is_more result → number + 1 < 2 ^ 64 }
{
    match (key, index) {
        (Some(_), Some(_)) => match number {
            0 => E::fault_here(key),
            1 => E::fault_here(index),
            _ => E::end(),
        },
        (Some(_), None) => leaf_at(key, number),
        (None, _) => leaf_at(index, number),
    }
}

/// The channel of an animation at a number.
pub fn channel_at<'a>(animation: &'a Animation, number: usize) -> Event<'a>
    ensures comes { (context : _) → IsGiven context (move_at (checklist (ListOf animation_channel_kind)
        (list_tree (λ x. closed_object (animation_channel_members x)) animation.now.channels.items)
        context (closed_object (animation_members animation.now))) number) result }
    ensures small { IsMore result → number + 1 < 2 ^ 64 }
{
    match animation.channels.get(number) {
        Some(channel) => Event::Enter(Step::Index(number), ValueRef::Channel(channel, animation)),
        None => Event::End,
    }
}

/// The event at a number of a channel: its sampler, which the animation holds, then its target.
#[tactic(auto, using(crate::proofs::Past::past), unfolding(gltf_scene::specs::Animation::animation_channel_rows, gltf_scene::specs::Animation::animation_target_rows, gltf_scene::specs::Animation::animation_channel_members, gltf_scene::specs::Animation::animation_target_members))]
pub fn in_channel<'a, E: EventBuilder<'a>, C: HasContext>(
    channel: &'a Channel,
    animation: &Animation,
    number: usize,
    context: &C,
) -> E
    ensures comes { E.describes_move (C.context context.now)
        (move_at (checklist animation_channel_kind
        (closed_object (animation_channel_members channel.now))
        (C.context context.now) (closed_object (animation_members animation.now))) number) result }
    ensures small { E.is_more result → number + 1 < 2 ^ 64 }
{
    match number {
        0 => E::fault_at("sampler", sampler_fault(channel, animation)),
        1 => E::member("target", &channel.target, context),
        _ => E::end(),
    }
}

/// Whether nothing is wrong in the channels of an animation.
pub(crate) fn are_channels_quiet<C: HasContext>(animation: &Animation, context: &C) -> bool
    ensures { result ≡ quiet (checklist (ListOf animation_channel_kind)
        (list_tree (λ x. closed_object (animation_channel_members x)) animation.now.channels.items)
        (C.context context.now) (closed_object (animation_members animation.now))) }
{
    for channel in &animation.channels {
        if !is_channel_quiet(channel, animation, context) {
            return false;
        }
    }
    true
}

/// Whether nothing is wrong in a channel.
#[tactic(auto, unfolding(gltf_scene::specs::Animation::animation_channel_rows, gltf_scene::specs::Animation::animation_target_rows, gltf_scene::specs::Animation::animation_channel_members, gltf_scene::specs::Animation::animation_target_members))]
pub fn is_channel_quiet<C: HasContext>(
    channel: &Channel,
    animation: &Animation,
    context: &C,
) -> bool
    ensures { result ≡ quiet (checklist animation_channel_kind
        (closed_object (animation_channel_members channel.now)) (C.context context.now)
        (closed_object (animation_members animation.now))) }
{
    sampler_fault(channel, animation).is_none() && channel.target.is_quiet(context)
}

/// The event at a number of the attributes of a primitive, as its rule looks at them.
pub fn at_attributes<'a>(faults: PositionFaults, number: usize) -> Event<'a>
    ensures comes { (context : _)
        → IsGiven context (move_at (at_positions (faults_checklist faults)) number) result }
    ensures small { IsMore result → number + 1 < 2 ^ 64 }
{
    match number {
        0 => Event::Enter(Step::Key("POSITION"), ValueRef::Positions(faults)),
        _ => Event::End,
    }
}

/// The event at a number of the positions of a primitive: the bounds of their accessor, then the
/// fault if there are no positions.
pub fn in_positions<'a, E: EventBuilder<'a>>(faults: PositionFaults, number: usize) -> E
    ensures comes { (context : _)
        → E.describes_move context (move_at (faults_checklist faults) number) result }
    ensures small { E.is_more result → number + 1 < 2 ^ 64 }
{
    match number {
        0 => E::fault_at("min", faults.min),
        1 => E::fault_at("max", faults.max),
        2 => E::fault_here(faults.positions),
        _ => E::end(),
    }
}

/// Whether nothing is wrong in the positions of a primitive.
pub(crate) fn are_positions_quiet(faults: PositionFaults) -> bool
    ensures positions { result ≡ quiet (faults_checklist faults) }
    ensures attributes { result ≡ quiet (at_positions (faults_checklist faults)) }
{
    faults.positions.is_none() && faults.min.is_none() && faults.max.is_none()
}

/// The required extension at a number.
pub fn extension_at<'a>(names: &'a Vec<String>, number: usize) -> Event<'a>
    ensures comes { (context : _) → IsGiven context (move_at (place (item_checklists
        (name_checklist context.rules.enabled) 0 (items_in (list_tree text_tree names.now.items))) [])
        number) result }
    ensures small { IsMore result → number + 1 < 2 ^ 64 }
{
    match names.get(number) {
        Some(name) => Event::Enter(Step::Index(number), ValueRef::RequiredExtension(name)),
        None => Event::End,
    }
}

/// The event at a number of the name of a required extension: the name, as a step.
pub fn in_extension<'a, C: HasContext>(name: &'a String, number: usize, context: &C) -> Event<'a>
    ensures comes { IsGiven (C.context context.now)
        (move_at (name_checklist (C.context context.now).rules.enabled (text_tree name.now)) number)
        result }
    ensures small { IsMore result → number + 1 < 2 ^ 64 }
{
    match number {
        0 => Event::Enter(
            Step::Value(name),
            ValueRef::Leaf(extension_fault(context.context().rules, name)),
        ),
        _ => Event::End,
    }
}

/// Whether nothing is wrong with the name of a required extension.
pub fn is_name_quiet<C: HasContext>(name: &String, context: &C) -> bool
    ensures { result ≡ quiet (name_checklist (C.context context.now).rules.enabled
        (text_tree name.now)) }
{
    extension_fault(context.context().rules, name).is_none()
}

/// Whether nothing is wrong with the names of the required extensions.
pub(crate) fn are_names_quiet<C: HasContext>(names: &Vec<String>, context: &C) -> bool
    ensures { result ≡ quiet (place (item_checklists
        (name_checklist (C.context context.now).rules.enabled) 0
        (items_in (list_tree text_tree names.now.items))) []) }
{
    for name in names {
        if !is_name_quiet(name, context) {
            return false;
        }
    }
    true
}
