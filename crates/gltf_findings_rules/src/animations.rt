//! Animations (glTF 2.0, sections 3.11 and 5.5 to 5.8).

ghost use Rattle.std.specs.Prelude.{◌≡◌, ◌++◌, [], length, Option, OnOk, Some, slice_get};
ghost use Rattle.gltf_base.specs.Indexes.{index_number};
ghost use Rattle.gltf_findings_codes.specs.Found.{found, findings_from};
ghost use Rattle.gltf_findings_rules.specs.Animations.{animation_findings, sampler_findings, stride_rules, sampler_rules, channel_rules, has_no_bounds, has_few_times, is_spline, transforms, has_matrix, has_skin, output_format, excludes_output, channel_findings, morph_rules, animates_weights, is_zero, morphs_of, width_of, has_other_count, differs, target_findings, target_number};

use crate::targets_of_mesh;
use gltf_base::Index;
use gltf_base::animation::{Interpolation, Property};
use gltf_base::validation::Checked;
use gltf_findings_codes::{
    AllowedFormat, Code, Finding, Name, Object, Rules, Subject, accessor_of, add_all, add_found,
    broken, has_bounds, is_accessor_strided, is_invalid, is_unresolved,
};
use gltf_parts::accessor::Accessor;
use gltf_parts::buffer::View;
use gltf_scene::animation::{Animation, Channel, Sampler, Target};
use gltf_scene::mesh::Mesh;
use gltf_scene::scene::Node;
use std::alloc::AllocError;
use std::collections::BTreeSet;

/// The rules for animations, which name accessors and nodes.
#[derive(Clone, Copy)]
pub struct AnimationRules<'a> {
    /// The buffer views of the document.
    pub views: &'a [View],
    /// The accessors of the document.
    pub accessors: &'a [Accessor],
    /// The nodes of the document.
    pub nodes: &'a [Node],
    /// The meshes of the document.
    pub meshes: &'a [Mesh],
}

impl Rules<Animation> for AnimationRules<'_> {
    ghost findings = { λ s n animation.
        animation_findings s.views.now s.accessors.now s.nodes.now s.meshes.now n animation };

    #[tactic(auto, using(std::proofs::lemmas::List::append_assoc))]
    fn add(
        &self,
        number: usize,
        item: &Animation,
        to: &mut Vec<Finding>,
    ) -> Result<(), AllocError> {
        let samplers = SamplerRules {
            animation: number,
            views: self.views,
            accessors: self.accessors,
        };
        add_all(to, &samplers, &item.samplers)?;
        let channels = ChannelRules {
            animation: number,
            samplers: &item.samplers,
            accessors: self.accessors,
            nodes: self.nodes,
            meshes: self.meshes,
        };
        add_all(to, &channels, &item.channels)?;
        add_target_repeats(to, number, &item.channels)
    }
}

/// The rules for the samplers of an animation.
#[derive(Clone, Copy)]
struct SamplerRules<'a> {
    animation: usize,
    views: &'a [View],
    accessors: &'a [Accessor],
}

impl Rules<Sampler> for SamplerRules<'_> {
    ghost findings = { λ s k sampler.
        sampler_findings s.views.now s.accessors.now s.animation k sampler };

    #[tactic(auto, using(std::proofs::lemmas::List::append_assoc))]
    fn add(&self, number: usize, item: &Sampler, to: &mut Vec<Finding>) -> Result<(), AllocError> {
        add_found(to, &stride_rules(self, number, item))?;
        add_found(
            to,
            &sampler_rules(self.accessors, self.animation, number, item),
        )
    }
}

/// The rules for one sampler.
fn sampler_rules(
    accessors: &[Accessor],
    animation: usize,
    number: usize,
    sampler: &Sampler,
) -> [Option<Finding>; 6]
    ensures { result ≡ sampler_rules accessors.now animation number sampler.now }
{
    // derived
    let at = Object::Nested(Name::Animations, animation, Name::Samplers, number);
    let input_at = Subject::Member(at, Name::Input);
    [
        broken(
            is_unresolved(sampler.input, accessors.len()),
            Code::UnresolvedReference,
            input_at,
        ),
        broken(
            is_unresolved(sampler.output, accessors.len()),
            Code::UnresolvedReference,
            Subject::Member(at, Name::Output),
        ),
        broken(
            is_invalid(&sampler.interpolation),
            Code::ValueNotInList,
            Subject::Member(at, Name::Interpolation),
        ),
        broken(
            AllowedFormat::Times.excludes_named(accessors, Some(sampler.input)),
            Code::AnimationSamplerInputAccessorInvalidFormat,
            input_at,
        ),
        broken(
            has_no_bounds(accessors, sampler),
            Code::AnimationSamplerInputAccessorWithoutBounds,
            input_at,
        ),
        broken(
            has_few_times(accessors, sampler),
            Code::AnimationSamplerInputAccessorTooFewElements,
            input_at,
        ),
    ]
}

/// The rules for the views of times and values.
fn stride_rules(lists: &SamplerRules<'_>, number: usize, sampler: &Sampler) -> [Option<Finding>; 2]
    ensures { result ≡ stride_rules lists.now.views.now lists.now.accessors.now
        lists.now.animation number sampler.now }
{
    // derived
    let at = Object::Nested(Name::Animations, lists.animation, Name::Samplers, number);
    [
        broken(
            is_accessor_strided(lists.views, lists.accessors, Some(sampler.input)),
            Code::AnimationSamplerAccessorWithBytestride,
            Subject::Member(at, Name::Input),
        ),
        broken(
            is_accessor_strided(lists.views, lists.accessors, Some(sampler.output)),
            Code::AnimationSamplerAccessorWithBytestride,
            Subject::Member(at, Name::Output),
        ),
    ]
}

/// Whether the accessor of the times lacks a bound.
fn has_no_bounds(accessors: &[Accessor], sampler: &Sampler) -> bool
    ensures { result ≡ has_no_bounds accessors.now sampler.now }
{
    // derived
    match accessor_of(accessors, Some(sampler.input)) {
        Some(accessor) => !has_bounds(accessor),
        None => false,
    }
}

/// Whether a spline has fewer than two times.
fn has_few_times(accessors: &[Accessor], sampler: &Sampler) -> bool
    ensures { result ≡ has_few_times accessors.now sampler.now }
{
    // derived
    match accessor_of(accessors, Some(sampler.input)) {
        Some(accessor) => is_spline(sampler.interpolation) && accessor.count.0 < 2,
        None => false,
    }
}

/// Whether an interpolation is that of a cubic spline.
fn is_spline(interpolation: Checked<Interpolation>) -> bool
    ensures { result ≡ is_spline interpolation }
{
    // derived
    match interpolation {
        Checked::Valid(Interpolation::CubicSpline) => true,
        _ => false,
    }
}

/// The rules for the channels of an animation.
#[derive(Clone, Copy)]
struct ChannelRules<'a> {
    animation: usize,
    samplers: &'a [Sampler],
    accessors: &'a [Accessor],
    nodes: &'a [Node],
    meshes: &'a [Mesh],
}

impl Rules<Channel> for ChannelRules<'_> {
    ghost findings = { λ s k channel. channel_findings s.samplers.now s.accessors.now
        s.nodes.now s.meshes.now s.animation k channel };

    #[tactic(auto, using(std::proofs::lemmas::List::append_assoc))]
    fn add(&self, number: usize, item: &Channel, to: &mut Vec<Finding>) -> Result<(), AllocError> {
        add_found(to, &channel_rules(self, number, item))?;
        add_found(to, &morph_rules(self, number, item))
    }
}

/// The rules for one channel.
fn channel_rules(lists: &ChannelRules<'_>, number: usize, channel: &Channel) -> [Option<Finding>; 6]
    ensures { result ≡ channel_rules lists.now.samplers.now lists.now.accessors.now
        lists.now.nodes.now lists.now.animation number channel.now }
{
    // derived
    let at = Object::Nested(Name::Animations, lists.animation, Name::Channels, number);
    let sampler_at = Subject::Member(at, Name::Sampler);
    let target = Object::NestedPart(
        Name::Animations,
        lists.animation,
        Name::Channels,
        number,
        Name::Target,
    );
    let path_at = Subject::Member(target, Name::Path);
    let transforms = transforms(channel.target.path);
    [
        broken(
            is_unresolved(channel.sampler, lists.samplers.len()),
            Code::UnresolvedReference,
            sampler_at,
        ),
        broken(
            is_unresolved(channel.target.node, lists.nodes.len()),
            Code::UnresolvedReference,
            Subject::Member(target, Name::Node),
        ),
        broken(
            is_invalid(&channel.target.path),
            Code::ValueNotInList,
            path_at,
        ),
        broken(
            transforms && has_matrix(lists.nodes, channel.target.node),
            Code::AnimationChannelTargetNodeMatrix,
            path_at,
        ),
        broken(
            transforms && has_skin(lists.nodes, channel.target.node),
            Code::AnimationChannelTargetNodeSkin,
            path_at,
        ),
        broken(
            excludes_output(lists, channel),
            Code::AnimationSamplerOutputAccessorInvalidFormat,
            sampler_at,
        ),
    ]
}

/// Whether a property is a transform.
fn transforms(path: Checked<Property>) -> bool
    ensures { result ≡ transforms path }
{
    // derived
    match path {
        Checked::Valid(Property::Translation | Property::Rotation | Property::Scale) => true,
        _ => false,
    }
}

/// Whether an index names a node that has a matrix.
fn has_matrix(nodes: &[Node], node: Index<Node>) -> bool
    ensures { result ≡ has_matrix (slice_get nodes.now (index_number node)) }
{
    // derived
    match nodes.get(node.value()) {
        Some(node) => node.matrix.is_some(),
        None => false,
    }
}

/// Whether an index names a node that has a skin.
fn has_skin(nodes: &[Node], node: Index<Node>) -> bool
    ensures { result ≡ has_skin (slice_get nodes.now (index_number node)) }
{
    // derived
    match nodes.get(node.value()) {
        Some(node) => node.skin.is_some(),
        None => false,
    }
}

/// Whether the values of the sampler of a channel have a format that the property excludes.
fn excludes_output(lists: &ChannelRules<'_>, channel: &Channel) -> bool
    ensures { result ≡ excludes_output lists.now.samplers.now lists.now.accessors.now
        channel.now }
{
    // derived
    match (
        lists.samplers.get(channel.sampler.value()),
        channel.target.path,
    ) {
        (Some(sampler), Checked::Valid(path)) => {
            output_format(path).excludes_named(lists.accessors, Some(sampler.output))
        }
        _ => false,
    }
}

/// The rules for the number of values, and for weights.
fn morph_rules(lists: &ChannelRules<'_>, number: usize, channel: &Channel) -> [Option<Finding>; 2]
    ensures { result ≡ morph_rules lists.now.samplers.now lists.now.accessors.now
        lists.now.nodes.now lists.now.meshes.now lists.now.animation number channel.now }
{
    // derived
    let at = Object::Nested(Name::Animations, lists.animation, Name::Channels, number);
    let target = Object::NestedPart(
        Name::Animations,
        lists.animation,
        Name::Channels,
        number,
        Name::Target,
    );
    let morphs = morphs_of(lists, channel.target.node);
    [
        broken(
            animates_weights(channel.target.path) && is_zero(morphs),
            Code::AnimationChannelTargetNodeWeightsNoMorphs,
            Subject::Member(target, Name::Path),
        ),
        broken(
            has_other_count(lists, channel, width_of(channel.target.path, morphs)),
            Code::AnimationSamplerOutputAccessorInvalidCount,
            Subject::Member(at, Name::Sampler),
        ),
    ]
}

/// Whether a property is that of weights.
fn animates_weights(path: Checked<Property>) -> bool
    ensures { result ≡ animates_weights path }
{
    // derived
    match path {
        Checked::Valid(Property::MorphTargetWeights) => true,
        _ => false,
    }
}

/// Whether a number is known and 0.
fn is_zero(number: Option<u64>) -> bool
    ensures { result ≡ is_zero number }
{
    // derived
    match number {
        Some(number) => number == 0,
        None => false,
    }
}

/// How many morph targets a node has, if its mesh is known.
fn morphs_of(lists: &ChannelRules<'_>, node: Index<Node>) -> Option<u64>
    ensures { result ≡ morphs_of lists.now.meshes.now
        (slice_get lists.now.nodes.now (index_number node)) }
{
    // derived
    match lists.nodes.get(node.value()) {
        Some(node) => match node.mesh {
            Some(mesh) => match lists.meshes.get(mesh.value()) {
                Some(mesh) => Some(targets_of_mesh(&mesh.primitives) as u64),
                None => None,
            },
            None => Some(0),
        },
        None => None,
    }
}

/// How many values a property takes for each time, if it is known.
fn width_of(path: Checked<Property>, morphs: Option<u64>) -> Option<u64>
    ensures { result ≡ width_of path morphs }
{
    // derived
    match path {
        Checked::Valid(Property::MorphTargetWeights) => morphs,
        Checked::Valid(_) => Some(1),
        Checked::Invalid => None,
    }
}

/// Whether the sampler of a channel has not as many values as its times need.
fn has_other_count(lists: &ChannelRules<'_>, channel: &Channel, width: Option<u64>) -> bool
    ensures { result ≡ has_other_count lists.now.accessors.now
        (slice_get lists.now.samplers.now (index_number channel.now.sampler)) width }
{
    // derived
    match (lists.samplers.get(channel.sampler.value()), width) {
        (Some(sampler), Some(width)) => match (
            accessor_of(lists.accessors, Some(sampler.input)),
            accessor_of(lists.accessors, Some(sampler.output)),
        ) {
            (Some(accessor), Some(output)) => differs(
                accessor.count.0,
                is_spline(sampler.interpolation),
                width,
                output.count.0,
            ),
            _ => false,
        },
        _ => false,
    }
}

/// Whether so many times with values of a width need another number of values. A spline has three
/// values for each time.
fn differs(times: u64, is_spline: bool, width: u64, values: u64) -> bool
    ensures { result ≡ differs times is_spline width values }
{
    if width == 0 {
        return false;
    }
    let width = if is_spline {
        width.checked_mul(3)
    } else {
        Some(width)
    };
    match width {
        Some(width) => match times.checked_mul(width) {
            Some(needed) => values != needed,
            None => true,
        },
        None => times != 0 || values != 0,
    }
}

/// Adds the findings of the channels whose target an earlier channel has. It takes `n log n` steps.
/// Fails only if out of memory.
fn add_target_repeats(
    to: &mut Vec<Finding>,
    animation: usize,
    channels: &[Channel],
) -> Result<(), AllocError>
    ensures { OnOk result (to.new.items
        ≡ to.old.items ++ target_findings animation [] 0 channels.now) }
{
    let mut before = BTreeSet::new(*to.allocator());
    for number in 0..channels.len() {
        if let Some(target) = target_number(&channels[number].target) {
            let is_new = before.insert(target)?;
            let at = Object::NestedPart(
                Name::Animations,
                animation,
                Name::Channels,
                number,
                Name::Target,
            );
            let rule = broken(
                !is_new,
                Code::AnimationDuplicateTargets,
                Subject::Object(at),
            );
            add_found(to, &[rule])?;
        }
    }
    Ok(())
}

/// A number that stands for a property of a node.
fn target_number(target: &Target) -> Option<u64>
    ensures { result ≡ target_number target.now }
{
    // derived
    let node = target.node.number() as u64;
    match target.path {
        Checked::Valid(Property::Translation) => Some(4 * node),
        Checked::Valid(Property::Rotation) => Some(4 * node + 1),
        Checked::Valid(Property::Scale) => Some(4 * node + 2),
        Checked::Valid(Property::MorphTargetWeights) => Some(4 * node + 3),
        Checked::Invalid => None,
    }
}

/// The format of the values of a property.
fn output_format(path: Property) -> AllowedFormat
    ensures { result ≡ output_format path }
{
    // derived
    match path {
        Property::Translation | Property::Scale => AllowedFormat::Vectors,
        Property::Rotation => AllowedFormat::Rotations,
        Property::MorphTargetWeights => AllowedFormat::Weights,
    }
}
