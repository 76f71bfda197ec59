//! Documents with the greatest numbers, and long chains and rings of nodes.

use super::{chain, has_faults, line, over, vectors_in};
use gltf_base::Index;
use gltf_base::accessor::{AccessorType, ComponentType};
use gltf_base::validation::USize64;
use gltf_hierarchy::{Forest, HierarchyFault, JointFault};
use gltf_layout::{AccessorFault, Misfit, PlaceFault, Span, SparseFault, StorageFault, ViewFault};
use gltf_load::{Document, LayoutFault, forest_of, joints_of, span_of};
use gltf_parts::accessor::Accessor;
use gltf_parts::accessor::sparse::{Indices, Sparse, Values};
use gltf_parts::buffer::{Buffer, Stride, View};
use gltf_scene::scene::Node;
use gltf_scene::skin::Skin;
use gltf_vectors::holds;
use std::alloc::Global;
use std::test::Fail;

/// Where a view lies in a buffer of 2^64 - 1 bytes, and an accessor of bytes in the view.
#[derive(Clone, Copy)]
struct Extreme {
    view_offset: u64,
    view_length: u64,
    stride: usize,
    offset: u64,
    count: u64,
}

/// The last byte of the accessor is the last byte of the view and of the buffer. With m = 2^32 - 1
/// the view has m + m * (m - 1) + 1 = 2^64 - 2^33 + 2 bytes.
const EXACT: Extreme = Extreme {
    view_offset: 8589934589,
    view_length: 18446744065119617026,
    stride: 4294967295,
    offset: 4294967295,
    count: 4294967295,
};

/// The view.
fn extreme_view(extreme: Extreme) -> View {
    let mut view = View::new(Index::new(0), extreme.view_length);
    view.byte_offset = Some(USize64(extreme.view_offset));
    view.byte_stride = Some(Stride(extreme.stride));
    view
}

/// The accessor.
fn extreme_accessor(extreme: Extreme) -> Accessor {
    let mut accessor = Accessor::new(extreme.count, ComponentType::U8, AccessorType::Scalar);
    accessor.buffer_view = Some(Index::new(0));
    accessor.byte_offset = Some(USize64(extreme.offset));
    accessor
}

/// Where the bytes of the accessor lie.
fn extreme_span(extreme: Extreme) -> Result<Option<Span>, LayoutFault> {
    span_of(
        &[extreme_view(extreme)],
        &[Buffer::new(u64::MAX)],
        &extreme_accessor(extreme),
    )
}

/// Whether the view is too long for the buffer.
fn is_view_too_long(extreme: Extreme) -> bool {
    extreme_span(extreme) == Err(LayoutFault::Misfit(Misfit::ViewTooLong))
}

/// Whether the accessor is too long for the view.
fn is_accessor_too_long(extreme: Extreme) -> bool {
    extreme_span(extreme) == Err(LayoutFault::Misfit(Misfit::AccessorTooLong))
}

#[test]
fn the_greatest_numbers_fit() -> Result<(), Fail> {
    let span = Span {
        start: 12884901884,
        stride: 4294967295,
        size: 1,
        count: 4294967295,
    };
    holds(extreme_span(EXACT) == Ok(Some(span)), "all bytes fit")
}

#[test]
fn views_at_the_greatest_offsets_are_too_long() -> Result<(), Fail> {
    let behind = Extreme {
        view_offset: 8589934590,
        ..EXACT
    };
    holds(is_view_too_long(behind), "a view one byte behind")?;
    let greatest = Extreme {
        view_offset: u64::MAX,
        ..EXACT
    };
    holds(is_view_too_long(greatest), "a view at the greatest offset")
}

#[test]
fn accessors_of_the_greatest_numbers_are_too_long() -> Result<(), Fail> {
    let shorter = Extreme {
        view_length: 18446744065119617025,
        ..EXACT
    };
    holds(is_accessor_too_long(shorter), "a view one byte shorter")?;
    let behind = Extreme {
        offset: 4294967296,
        ..EXACT
    };
    holds(is_accessor_too_long(behind), "an accessor one byte behind")?;
    let more = Extreme {
        count: u64::MAX,
        ..EXACT
    };
    holds(is_accessor_too_long(more), "as many elements as can be")
}

#[test]
fn accessors_of_the_greatest_strides_are_too_long() -> Result<(), Fail> {
    let wider = Extreme {
        stride: 4294967296,
        ..EXACT
    };
    holds(is_accessor_too_long(wider), "a stride one byte wider")?;
    let widest = Extreme {
        stride: usize::MAX,
        ..EXACT
    };
    holds(is_accessor_too_long(widest), "the greatest stride")
}

/// The number of no buffer, and of no view.
const GREATEST: u32 = 4294967295;

/// Zeros of which so many deviate. Their indices lie in a view, and their values at an offset.
fn deviating(count: u64, view: u32, offset: u64) -> Accessor {
    let indices = Indices::new(Index::new(view), ComponentType::U16);
    let mut values = Values::new(Index::new(1));
    values.byte_offset = USize64(offset);
    let mut zeros = vectors_in(None);
    zeros.sparse = Some(Sparse::new(count, indices, values));
    zeros
}

/// Accessors of which each names a view that isn't there, one without a buffer, or bytes past its
/// view.
fn lost_accessors() -> [Accessor; 5] {
    [
        vectors_in(Some(Index::new(GREATEST))),
        vectors_in(Some(Index::new(0))),
        deviating(4294967295, 1, 0),
        deviating(1, GREATEST, 0),
        deviating(1, 1, 4294967295),
    ]
}

/// The fault of an accessor.
fn fault_of(accessor: usize, fault: AccessorFault) -> StorageFault {
    StorageFault::Accessor { accessor, fault }
}

const NO_VIEW: PlaceFault = PlaceFault::NoSuchView { view: GREATEST };

const NO_BUFFER: PlaceFault = PlaceFault::NoSuchBuffer { buffer: GREATEST };

const TOO_LONG: PlaceFault = PlaceFault::Misfit(Misfit::AccessorTooLong);

/// What is wrong with the view that names no buffer, and with each accessor.
fn faults_of_lost() -> [StorageFault; 6] {
    [
        StorageFault::View {
            view: 0,
            fault: ViewFault::NoSuchBuffer { buffer: GREATEST },
        },
        fault_of(0, AccessorFault::Elements(NO_VIEW)),
        fault_of(1, AccessorFault::Elements(NO_BUFFER)),
        fault_of(2, AccessorFault::Sparse(SparseFault::TooMany)),
        fault_of(3, AccessorFault::Sparse(SparseFault::Indices(NO_VIEW))),
        fault_of(4, AccessorFault::Sparse(SparseFault::Values(TOO_LONG))),
    ]
}

#[test]
fn the_greatest_indexes_name_nothing() -> Result<(), Fail> {
    let views = [
        View::new(Index::new(GREATEST), 36),
        View::new(Index::new(0), 40),
    ];
    let document = Document {
        nodes: &[],
        buffers: &[Buffer::new(40)],
        views: &views,
        accessors: &lost_accessors(),
    };
    holds(
        has_faults(document, &faults_of_lost()),
        "each index names nothing",
    )
}

/// The common root of the joints of a skin: nodes 999, 500 and 700.
fn root_over_joints(alloc: Global, forest: &Forest) -> Result<Option<u32>, Fail> {
    let skin = Skin::new(vec![in alloc; Index::new(999), Index::new(500), Index::new(700)]?);
    let joints = joints_of(alloc, &skin)?;
    Ok(forest.common_root(alloc, &joints)?)
}

/// Whether the greatest number is found to be no node's.
fn is_greatest_no_node(alloc: Global, forest: &Forest) -> bool {
    matches!(
        forest.common_root(alloc, &[0, 4294967295]),
        Err(JointFault::NoSuchNode {
            place: 1,
            node: 4294967295,
        })
    )
}

#[test]
fn a_long_chain_is_a_forest(rt: HostRuntime) -> Result<(), Fail> {
    let alloc = rt.alloc();
    let nodes = line(alloc, 999)?;
    let forest = forest_of(alloc, &nodes)?;
    holds(forest.depth(999) == Some(999), "the last node is deepest")?;
    holds(
        root_over_joints(alloc, &forest)? == Some(500),
        "node 500 is over the others",
    )?;
    holds(
        is_greatest_no_node(alloc, &forest),
        "the greatest number is no node's",
    )
}

/// A document that has only nodes.
fn of_nodes(nodes: &[Node]) -> Document<'_> {
    Document {
        nodes,
        buffers: &[],
        views: &[],
        accessors: &[],
    }
}

/// Whether the only fault is that the first node is below itself.
fn is_cycle_alone(faults: &[HierarchyFault]) -> bool {
    faults.len() == 1 && matches!(faults.first(), Some(HierarchyFault::Cycle { node: 0 }))
}

#[test]
fn a_long_ring_is_one_fault(rt: HostRuntime) -> Result<(), Fail> {
    let ring = chain(rt.alloc(), 1000, 0)?;
    let made = forest_of(rt.alloc(), &ring);
    holds(
        matches!(made, Err(HierarchyFault::Cycle { .. })),
        "a ring is no forest",
    )?;
    let faults = Forest::faults(rt.alloc(), &of_nodes(&ring))?;
    holds(is_cycle_alone(&faults), "a ring is one cycle")
}

/// Whether there is no forest because node 0 has the greatest child.
fn is_greatest_no_child(alloc: Global, document: &Document<'_>) -> bool {
    matches!(
        Forest::of(alloc, document),
        Err(HierarchyFault::NoSuchChild {
            parent: 0,
            child: 4294967295,
        })
    )
}

#[test]
fn the_greatest_child_does_not_exist(rt: HostRuntime) -> Result<(), Fail> {
    let nodes = [over(rt.alloc(), 4294967295)?];
    let document = of_nodes(&nodes);
    holds(
        is_greatest_no_child(rt.alloc(), &document),
        "there is no such child",
    )?;
    let faults = Forest::faults(rt.alloc(), &document)?;
    holds(faults.len() == 1, "there is no other fault")
}
