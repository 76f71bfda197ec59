//! Joints and skeletons of skins by the hierarchy of nodes (glTF 2.0, sections 3.7.3.2 and 5.28).

ghost use Rattle.std.specs.Prelude.{◌≡◌, ◌&&◌, [], length, map, not, IfOk};
ghost use Rattle.gltf_base.specs.Indexes.{index_number};
ghost use Rattle.gltf_load.specs.Named.{children_named};
ghost use Rattle.gltf_hierarchy.specs.Forest.{IsOutOfMemory};
ghost use Rattle.gltf_findings.specs.Skeletons.{AreSkeletonMarks, skeleton_findings};
ghost use Rattle.gltf_findings.specs.Rooting.{AreMarksBy, are_below, have_one_root, is_headed, are_among, is_whole};

use gltf_base::Index;
use gltf_findings_codes::{
    Code, Finding, Name, Object, Rules, Subject, add_found, broken, is_marked, is_some_unresolved,
};
use gltf_hierarchy::Subtrees;
use gltf_load::{Document, HierarchyFault};
use gltf_root::root::Root;
use gltf_scene::scene::Node;
use gltf_scene::skin::Skin;
use std::alloc::{AllocError, Global};

/// For each skin whether it breaks a rule.
#[derive(Drop)]
pub struct SkeletonMarks {
    /// Whether its joints have no common root.
    pub apart: Vec<bool>,
    /// Whether its skeleton is no common root of them.
    pub astray: Vec<bool>,
}

/// Marks the skins whose joints or skeletons do not fit the hierarchy of nodes. It takes time in
/// proportion to the nodes, their children and the joints, if there is a skin. Fails only if out of
/// memory.
pub fn skeleton_marks(alloc: Global, root: &Root) -> Result<SkeletonMarks, AllocError>
    ensures { IfOk result (λ marks. AreSkeletonMarks (children_named root.now.nodes.items)
        root.now.skins.items marks.apart.items marks.astray.items) }
{
    if root.skins.is_empty() {
        return Ok(unmarked(alloc));
    }
    match Subtrees::of(alloc, &Document::of(root)) {
        Ok(subtrees) => marks_by(alloc, &subtrees, root.nodes.len(), &root.skins),
        Err(fault) => without_marks(alloc, fault),
    }
}

/// No marks, unless memory was refused.
fn without_marks(alloc: Global, fault: HierarchyFault) -> Result<SkeletonMarks, AllocError>
    ensures apart { IfOk result (λ marks. marks.apart.items ≡ []) }
    ensures astray { IfOk result (λ marks. marks.astray.items ≡ []) }
    ensures fault { IfOk result (λ _. IsOutOfMemory fault → ⊥) }
{
    match fault {
        HierarchyFault::Memory(error) => Err(error),
        HierarchyFault::TooManyNodes
        | HierarchyFault::NoSuchChild { .. }
        | HierarchyFault::TwoParents { .. }
        | HierarchyFault::Cycle { .. } => Ok(unmarked(alloc)),
    }
}

/// No marks.
fn unmarked(alloc: Global) -> SkeletonMarks
    ensures apart { result.apart.items ≡ [] }
    ensures astray { result.astray.items ≡ [] }
{
    SkeletonMarks {
        apart: Vec::new(alloc),
        astray: Vec::new(alloc),
    }
}

/// The marks of skins among so many nodes, by which nodes are below which.
fn marks_by(
    alloc: Global,
    subtrees: &Subtrees,
    count: usize,
    skins: &[Skin],
) -> Result<SkeletonMarks, AllocError>
    ensures { IfOk result (λ marks. AreMarksBy subtrees.now count skins.now marks.apart.items
        marks.astray.items (length skins.now)) }
{
    let mut marks = unmarked(alloc);
    for number in 0..skins.len() {
        let skin = &skins[number];
        marks.apart.push(is_apart(subtrees, count, skin))?;
        marks.astray.push(is_astray(subtrees, count, skin))?;
    }
    Ok(marks)
}

/// Whether a skin names nodes, and its joints have no common root.
fn is_apart(subtrees: &Subtrees, count: usize, skin: &Skin) -> bool
    ensures { result ≡ (is_whole count skin.now
        && not (have_one_root subtrees.now (map index_number skin.now.joints.items))) }
{
    is_whole(skin, count) && !have_one_root(subtrees, &skin.joints)
}

/// Whether a skin names nodes, and its skeleton is no common root of its joints.
fn is_astray(subtrees: &Subtrees, count: usize, skin: &Skin) -> bool
    ensures { result ≡ (is_whole count skin.now && not (is_headed subtrees.now skin.now.skeleton
        (map index_number skin.now.joints.items))) }
{
    is_whole(skin, count) && !is_headed(subtrees, skin.skeleton, &skin.joints)
}

/// Whether the joints and the skeleton of a skin are among so many nodes.
fn is_whole(skin: &Skin, count: usize) -> bool
    ensures { result ≡ is_whole count skin.now }
{
    are_among(&skin.joints, count) && !is_some_unresolved(skin.skeleton, count)
}

/// Whether indexes name some of so many nodes.
fn are_among(indexes: &[Index<Node>], count: usize) -> bool
    ensures { result ≡ are_among count (map index_number indexes.now) }
{
    for index in indexes {
        if index.value() >= count {
            return false;
        }
    }
    true
}

/// Whether nodes are in one tree.
fn have_one_root(subtrees: &Subtrees, joints: &[Index<Node>]) -> bool
    ensures { result ≡ have_one_root subtrees.now (map index_number joints.now) }
{
    if joints.is_empty() {
        return true;
    }
    match subtrees.root(joints[0].number()) {
        Some(root) => are_below(subtrees, root, joints),
        None => false,
    }
}

/// Whether a skeleton, if it is there, is each of the joints or above it.
fn is_headed(subtrees: &Subtrees, skeleton: Option<Index<Node>>, joints: &[Index<Node>]) -> bool
    ensures { result ≡ is_headed subtrees.now skeleton (map index_number joints.now) }
{
    // derived
    match skeleton {
        Some(skeleton) => are_below(subtrees, skeleton.number(), joints),
        None => true,
    }
}

/// Whether each of some nodes is another or below it.
fn are_below(subtrees: &Subtrees, top: u32, nodes: &[Index<Node>]) -> bool
    ensures { result ≡ are_below subtrees.now top (map index_number nodes.now) }
{
    for node in nodes {
        if !subtrees.is_at_or_below(top, node.number()) {
            return false;
        }
    }
    true
}

/// The rules for skins by these marks.
#[derive(Clone, Copy)]
pub struct SkeletonRules<'a>(pub &'a SkeletonMarks);

impl Rules<Skin> for SkeletonRules<'_> {
    ghost findings = { λ s n skin.
        skeleton_findings s.0.now.apart.items s.0.now.astray.items n skin };

    fn add(&self, number: usize, _item: &Skin, to: &mut Vec<Finding>) -> Result<(), AllocError> {
        let at = Object::Item(Name::Skins, number);
        let is_apart = is_marked(&self.0.apart, number);
        let is_astray = is_marked(&self.0.astray, number);
        add_found(
            to,
            &[
                broken(
                    is_apart,
                    Code::SkinNoCommonRoot,
                    Subject::Member(at, Name::Joints),
                ),
                broken(
                    is_astray,
                    Code::SkinSkeletonInvalid,
                    Subject::Member(at, Name::Skeleton),
                ),
            ],
        )
    }
}
