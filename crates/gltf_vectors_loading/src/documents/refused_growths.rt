//! Loading where growths are refused.

use super::{chain, line};
use gltf_base::Index;
use gltf_base::accessor::{AccessorType, ComponentType};
use gltf_hierarchy::{Forest, HierarchyFault, JointFault};
use gltf_layout::{Layout, LayoutError};
use gltf_load::{Document, forest_of, joints_of};
use gltf_parts::accessor::Accessor;
use gltf_scene::scene::Node;
use gltf_scene::skin::Skin;
use gltf_vectors::{End, Tried, holds, refusal_count};
use std::alloc::{AllocError, Global};
use std::test::Fail;

/// How many nodes a forest has. All its lists have room in what is given back.
const FOREST_COUNT: u32 = 40;

/// How many joints a skin has. A list of so many numbers has more bytes than a freed block that the
/// allocator keeps for its size.
const COUNT: u32 = 300;

/// A call that takes memory, and what it is given.
#[derive(Clone, Copy)]
enum Call<'a> {
    /// `Forest::of`, of a chain.
    Forest(Document<'a>),
    /// `Forest::faults`, of a ring.
    Faults(Document<'a>),
    /// `Forest::common_root`, of all nodes.
    CommonRoot(&'a Forest, &'a [u32]),
    /// `joints_of`.
    Joints(&'a Skin),
    /// `Layout::of`, of two accessors.
    Layout(Document<'a>),
}

impl Tried for Call<'_> {
    fn attempt(&mut self, alloc: Global) -> End {
        match *self {
            Call::Forest(document) => forest_end(alloc, &document),
            Call::Faults(ring) => faults_end(alloc, &ring),
            Call::CommonRoot(forest, joints) => common_root_end(alloc, forest, joints),
            Call::Joints(skin) => joints_end(alloc, skin),
            Call::Layout(document) => layout_end(alloc, &document),
        }
    }
}

/// `Whole` if this is so.
fn whole_if(is_whole: bool) -> End {
    if is_whole { End::Whole } else { End::Wrong }
}

/// How the forest of a chain is made.
fn forest_end(alloc: Global, document: &Document<'_>) -> End {
    match Forest::of(alloc, document) {
        Ok(forest) => whole_if(forest.depth(FOREST_COUNT - 1) == Some(FOREST_COUNT as usize - 1)),
        Err(HierarchyFault::Memory(_)) => End::Refused,
        Err(_) => End::Wrong,
    }
}

/// How the fault of a ring is listed.
fn faults_end(alloc: Global, ring: &Document<'_>) -> End {
    match Forest::faults(alloc, ring) {
        Ok(faults) => whole_if(faults.len() == 1),
        Err(_) => End::Refused,
    }
}

/// How the search for the common root ends.
fn common_root_end(alloc: Global, forest: &Forest, joints: &[u32]) -> End {
    match forest.common_root(alloc, joints) {
        Ok(root) => whole_if(root == Some(0)),
        Err(JointFault::Memory(_)) => End::Refused,
        Err(_) => End::Wrong,
    }
}

/// How the list of the joints is made.
fn joints_end(alloc: Global, skin: &Skin) -> End {
    match joints_of(alloc, skin) {
        Ok(joints) => whole_if(joints.last() == Some(&(COUNT - 1))),
        Err(_) => End::Refused,
    }
}

/// How the layout is made.
fn layout_end(alloc: Global, document: &Document<'_>) -> End {
    match Layout::of(alloc, document) {
        Ok(layout) => whole_if(layout.place(1).is_some()),
        Err(LayoutError::Memory(_)) => End::Refused,
        Err(_) => End::Wrong,
    }
}

/// A document that has only these nodes and accessors.
fn document_of<'a>(nodes: &'a [Node], accessors: &'a [Accessor]) -> Document<'a> {
    Document {
        nodes,
        buffers: &[],
        views: &[],
        accessors,
    }
}

/// A skin whose joints are all nodes.
fn skin(alloc: Global) -> Result<Skin, AllocError> {
    let mut joints = Vec::new(alloc);
    for number in 0..COUNT {
        joints.push(Index::new(number))?;
    }
    Ok(Skin::new(joints))
}

// Under `rt try` nothing is refused, and these tests fail: its allocator is another one.
#[test]
fn forests_without_memory(rt: HostRuntime) -> Result<(), Fail> {
    let nodes = line(rt.alloc(), FOREST_COUNT - 1)?;
    let mut forest = Call::Forest(document_of(&nodes, &[]));
    holds(refusal_count(rt.alloc(), &mut forest)? > 0, "Forest::of")
}

#[test]
fn faults_without_memory(rt: HostRuntime) -> Result<(), Fail> {
    let ring = chain(rt.alloc(), FOREST_COUNT, 0)?;
    let mut faults = Call::Faults(document_of(&ring, &[]));
    holds(
        refusal_count(rt.alloc(), &mut faults)? > 0,
        "Forest::faults",
    )
}

/// The forest of a line of as many nodes as there are joints.
fn line_forest(alloc: Global) -> Result<Forest, Fail> {
    let nodes = line(alloc, COUNT - 1)?;
    Ok(forest_of(alloc, &nodes)?)
}

#[test]
fn common_roots_without_memory(rt: HostRuntime) -> Result<(), Fail> {
    let forest = line_forest(rt.alloc())?;
    let joints = joints_of(rt.alloc(), &skin(rt.alloc())?)?;
    let mut common_root = Call::CommonRoot(&forest, &joints);
    holds(
        refusal_count(rt.alloc(), &mut common_root)? > 0,
        "common_root",
    )
}

#[test]
fn joints_without_memory(rt: HostRuntime) -> Result<(), Fail> {
    let skin = skin(rt.alloc())?;
    let mut joints = Call::Joints(&skin);
    holds(refusal_count(rt.alloc(), &mut joints)? > 0, "joints_of")
}

/// An accessor with one zero.
fn zero() -> Accessor {
    Accessor::new(1, ComponentType::U8, AccessorType::Scalar)
}

#[test]
fn layouts_without_memory(rt: HostRuntime) -> Result<(), Fail> {
    let accessors = [zero(), zero()];
    let mut layout = Call::Layout(document_of(&[], &accessors));
    holds(refusal_count(rt.alloc(), &mut layout)? > 0, "Layout::of")
}
