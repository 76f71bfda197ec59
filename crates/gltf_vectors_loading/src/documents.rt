//! Forests, places and faults that are worked by hand.

mod hostile;
mod refused_growths;
mod small;

use gltf_base::Index;
use gltf_base::accessor::{AccessorType, ComponentType};
use gltf_base::validation::Checked;
use gltf_hierarchy::{Forest, HierarchyFault};
use gltf_layout::{LayoutFaults, Misfit, Span, StorageFault};
use gltf_load::{Document, LayoutFault, forest_of, is_scene_of, span_of};
use gltf_parts::accessor::Accessor;
use gltf_parts::buffer::{Buffer, View};
use gltf_scene::scene::{Node, Scene};
use gltf_vectors::holds;
use std::alloc::{AllocError, Global};
use std::test::Fail;

/// A node with one child, which has such a number.
fn over(alloc: Global, child: u32) -> Result<Node, AllocError> {
    let mut node = Node::new();
    node.children = Some(vec![in alloc; Index::new(child)]?);
    Ok(node)
}

/// Nodes of which each has the next one as its child, and the last one has `child`.
fn chain(alloc: Global, count: u32, child: u32) -> Result<Vec<Node>, AllocError> {
    let mut nodes = Vec::new(alloc);
    for number in 1..count {
        nodes.push(over(alloc, number)?)?;
    }
    nodes.push(over(alloc, child)?)?;
    Ok(nodes)
}

/// Nodes up to this last one, of which each but the last has the next one as its child.
fn line(alloc: Global, last: u32) -> Result<Vec<Node>, AllocError> {
    let mut nodes = chain(alloc, last, last)?;
    nodes.push(Node::new())?;
    Ok(nodes)
}

/// Three vectors in a view. Without one they are zeros.
fn vectors_in(view: Option<Index<View>>) -> Accessor {
    let mut vectors = Accessor::new(3, ComponentType::F32, AccessorType::Vec3);
    vectors.buffer_view = view;
    vectors
}

/// Whether a document has these faults, in this order, and no others.
fn has_faults(document: Document<'_>, expected: &[StorageFault]) -> bool {
    let mut faults = LayoutFaults::of(document);
    for fault in expected {
        if faults.next_fault() != Some(*fault) {
            return false;
        }
    }
    faults.next_fault().is_none()
}

/// The forest of two nodes, of which the second is over the first.
fn forest_of_two(alloc: Global) -> Result<Forest, Fail> {
    let nodes = [Node::new(), over(alloc, 0)?];
    Ok(forest_of(alloc, &nodes)?)
}

/// Whether a scene may list these nodes.
fn may_list(alloc: Global, forest: &Forest, nodes: &[u32]) -> Result<bool, AllocError> {
    let mut indexes = Vec::new(alloc);
    for node in nodes {
        indexes.push(Index::new(*node))?;
    }
    Ok(is_scene_of(forest, &Scene::new(indexes)))
}

#[test]
fn a_scene_lists_root_nodes(rt: HostRuntime) -> Result<(), Fail> {
    let forest = forest_of_two(rt.alloc())?;
    holds(
        forest.order() == [1, 0].as_slice(),
        "parents are before their children",
    )?;
    holds(may_list(rt.alloc(), &forest, &[1])?, "a scene lists roots")?;
    holds(
        !may_list(rt.alloc(), &forest, &[1, 0])?,
        "a scene lists no nodes below others",
    )
}

#[test]
fn a_ring_is_a_fault(rt: HostRuntime) -> Result<(), Fail> {
    let nodes = chain(rt.alloc(), 2, 0)?;
    let made = forest_of(rt.alloc(), &nodes);
    holds(
        matches!(made, Err(HierarchyFault::Cycle { .. })),
        "a ring is a cycle",
    )
}

/// Where vectors lie in a view of 36 bytes, or in one of 41, in a buffer of 40.
fn vectors_span(view: Option<Index<View>>) -> Result<Option<Span>, LayoutFault> {
    let buffers = [Buffer::new(40)];
    let views = [View::new(Index::new(0), 36), View::new(Index::new(0), 41)];
    span_of(&views, &buffers, &vectors_in(view))
}

#[test]
fn elements_lie_in_the_buffer_of_a_view() -> Result<(), Fail> {
    holds(vectors_span(None) == Ok(None), "zeros lie nowhere")?;
    let span = Span {
        start: 0,
        stride: 12,
        size: 12,
        count: 3,
    };
    holds(
        vectors_span(Some(Index::new(0))) == Ok(Some(span)),
        "vectors lie in the buffer of their view",
    )?;
    holds(
        vectors_span(Some(Index::new(1))) == Err(LayoutFault::Misfit(Misfit::ViewTooLong)),
        "a view is no longer than its buffer",
    )
}

/// Vectors of which only the number is valid.
fn invalid_vectors_in(view: Option<Index<View>>) -> Accessor {
    let mut vectors = vectors_in(view);
    vectors.component_type = Checked::Invalid;
    vectors.type_ = Checked::Invalid;
    vectors
}

/// Vectors of which the type is invalid.
fn untyped_vectors_in(view: Option<Index<View>>) -> Accessor {
    let mut vectors = vectors_in(view);
    vectors.type_ = Checked::Invalid;
    vectors
}

/// Where elements lie if the only view names no buffer.
fn unbuffered_span(accessor: &Accessor) -> Result<Option<Span>, LayoutFault> {
    span_of(
        &[View::new(Index::new(1), 36)],
        &[Buffer::new(40)],
        accessor,
    )
}

#[test]
fn the_first_fault_of_invalid_elements_is_returned() -> Result<(), Fail> {
    holds(
        unbuffered_span(&invalid_vectors_in(None)) == Ok(None),
        "zeros lie nowhere",
    )?;
    let fault = LayoutFault::InvalidComponentType;
    holds(
        unbuffered_span(&invalid_vectors_in(Some(Index::new(1)))) == Err(fault),
        "a component type is before a type",
    )?;
    let fault = LayoutFault::InvalidType;
    holds(
        unbuffered_span(&untyped_vectors_in(Some(Index::new(0)))) == Err(fault),
        "a type is before a buffer",
    )
}

#[test]
fn the_first_fault_of_views_is_returned() -> Result<(), Fail> {
    let fault = LayoutFault::NoSuchView { view: 1 };
    holds(
        unbuffered_span(&vectors_in(Some(Index::new(1)))) == Err(fault),
        "there is no view 1",
    )?;
    let fault = LayoutFault::NoSuchBuffer { buffer: 1 };
    holds(
        unbuffered_span(&vectors_in(Some(Index::new(0)))) == Err(fault),
        "there is no buffer 1",
    )
}
