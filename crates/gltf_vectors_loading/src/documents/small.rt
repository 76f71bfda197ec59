//! Small documents: their layouts, forests and faults, and the chunks that fit them.

use super::{has_faults, untyped_vectors_in, vectors_in};
use gltf_base::Index;
use gltf_base::accessor::ComponentType;
use gltf_base::validation::USize64;
use gltf_buffers::Glb;
use gltf_hierarchy::Forest;
use gltf_layout::{
    AccessorFault, Layout, LayoutError, Location, Span, SparseFault, SparsePlace, StorageFault,
};
use gltf_load::{Document, glb_fits, joints_of};
use gltf_parts::accessor::Accessor;
use gltf_parts::accessor::sparse::{Indices, Sparse, Values};
use gltf_parts::buffer::{Buffer, View};
use gltf_root::root::Root;
use gltf_scene::skin::Skin;
use gltf_vectors::holds;
use std::alloc::{AllocError, Global};
use std::test::Fail;

/// Three zeros of which one deviates. The indices are of such a type.
fn deviating(index_type: ComponentType) -> Accessor {
    let mut indices = Indices::new(Index::new(1), index_type);
    indices.byte_offset = USize64(36);
    let mut zeros = vectors_in(None);
    zeros.sparse = Some(Sparse::new(1, indices, Values::new(Index::new(0))));
    zeros
}

/// Views of a buffer of 40 bytes.
fn views() -> [View; 2] {
    [View::new(Index::new(0), 36), View::new(Index::new(0), 40)]
}

/// The layout of three vectors, and of zeros of which one deviates.
fn layout_of_vectors(alloc: Global) -> Result<Layout, LayoutError> {
    let accessors = [
        vectors_in(Some(Index::new(0))),
        deviating(ComponentType::U16),
    ];
    let document = Document {
        nodes: &[],
        buffers: &[Buffer::new(40)],
        views: &views(),
        accessors: &accessors,
    };
    Layout::of(alloc, &document)
}

/// Where elements lie in buffer 0, packed tightly.
fn located(start: u64, size: u64, count: u64) -> Location {
    let span = Span {
        start,
        stride: size,
        size,
        count,
    };
    Location { buffer: 0, span }
}

/// Where the elements of an accessor lie.
fn elements_at(layout: &Layout, accessor: usize) -> Option<Location> {
    match layout.place(accessor) {
        Some(place) => place.elements,
        None => None,
    }
}

/// Where the elements of an accessor lie that deviate.
fn deviating_at(layout: &Layout, accessor: usize) -> Option<SparsePlace> {
    match layout.place(accessor) {
        Some(place) => place.sparse,
        None => None,
    }
}

#[test]
fn a_document_has_a_layout(rt: HostRuntime) -> Result<(), Fail> {
    let layout = layout_of_vectors(rt.alloc())?;
    holds(
        elements_at(&layout, 0) == Some(located(0, 12, 3)),
        "vectors lie in their view",
    )?;
    let deviating = SparsePlace {
        count: 1,
        index_type: ComponentType::U16,
        indices: located(36, 2, 1),
        values: located(0, 12, 1),
    };
    holds(
        deviating_at(&layout, 1) == Some(deviating),
        "what deviates lies in its views",
    )
}

/// What is wrong with vectors without a type, and with zeros of which the indices are fractions.
const FAULTS: [StorageFault; 2] = [
    StorageFault::Accessor {
        accessor: 0,
        fault: AccessorFault::InvalidType,
    },
    StorageFault::Accessor {
        accessor: 1,
        fault: AccessorFault::Sparse(SparseFault::InvalidIndexType),
    },
];

#[test]
fn faults_of_a_document_are_listed() -> Result<(), Fail> {
    let accessors = [
        untyped_vectors_in(Some(Index::new(0))),
        deviating(ComponentType::F32),
    ];
    let document = Document {
        nodes: &[],
        buffers: &[Buffer::new(40)],
        views: &views(),
        accessors: &accessors,
    };
    holds(has_faults(document, &FAULTS), "both faults are listed")
}

/// Node 1 is over nodes 0 and 2, which are joints. The accessor has bytes 3 and 4, and 9 and 10.
const SKINNED: &str = r#"{"asset":{"version":"2.0"},
"nodes":[{},{"children":[2,0]},{}],
"skins":[{"joints":[2,0]}],
"buffers":[{"byteLength":11}],
"bufferViews":[{"buffer":0,"byteOffset":1,"byteLength":10,"byteStride":6}],
"accessors":[{"bufferView":0,"byteOffset":2,"componentType":5121,"type":"VEC2","count":2}]}"#;

#[test]
fn elements_of_a_document_that_is_read_are_found(rt: HostRuntime) -> Result<(), Fail> {
    let root = Root::from_str(rt.alloc(), SKINNED)?;
    let document = Document::of(&root);
    let layout = Layout::of(rt.alloc(), &document)?;
    let span = Span {
        start: 3,
        stride: 6,
        size: 2,
        count: 2,
    };
    holds(
        elements_at(&layout, 0) == Some(Location { buffer: 0, span }),
        "elements lie a stride apart",
    )?;
    holds(has_faults(document, &[]), "there is no fault")
}

/// Whether node 1 is over nodes 0 and 2.
fn is_root_over_others(forest: &Forest) -> bool {
    forest.order().first() == Some(&1) && forest.parent(0) == Some(1) && forest.depth(2) == Some(1)
}

/// Whether the nodes of a document have no faults.
fn is_faultless(alloc: Global, document: &Document<'_>) -> Result<bool, AllocError> {
    Ok(Forest::faults(alloc, document)?.is_empty())
}

/// Whether the joints of the first skin are nodes 2 and 0, below node 1.
fn are_joints_below(alloc: Global, skins: &[Skin], forest: &Forest) -> Result<bool, Fail> {
    let skin = skins.first().ok_or("no skin")?;
    let joints = joints_of(alloc, skin)?;
    let root = forest.common_root(alloc, &joints)?;
    Ok(joints.as_slice() == [2, 0].as_slice() && root == Some(1))
}

#[test]
fn nodes_of_a_document_that_is_read_are_a_forest(rt: HostRuntime) -> Result<(), Fail> {
    let alloc = rt.alloc();
    let root = Root::from_str(alloc, SKINNED)?;
    let document = Document::of(&root);
    let forest = Forest::of(alloc, &document)?;
    holds(is_root_over_others(&forest), "node 1 is over the others")?;
    holds(is_faultless(alloc, &document)?, "there is no fault")?;
    holds(
        are_joints_below(alloc, &root.skins, &forest)?,
        "the joints are below node 1",
    )
}

/// A buffer of 17 bytes that a BIN chunk has.
const CHUNK: &str = r#"{"asset":{"version":"2.0"},"buffers":[{"byteLength":17}]}"#;

/// Whether a BIN chunk has the bytes of the first buffer.
fn fits(document: &Document<'_>, bin: Option<&[u8]>) -> bool {
    glb_fits(&Glb { json: b"{}", bin }, document)
}

/// The same for a chunk of so many bytes, up to 21.
fn fits_length(document: &Document<'_>, length: usize) -> bool {
    fits(document, [0; 21].get(..length))
}

#[test]
fn a_chunk_has_the_bytes_of_the_first_buffer(rt: HostRuntime) -> Result<(), Fail> {
    let root = Root::from_str(rt.alloc(), CHUNK)?;
    let document = Document::of(&root);
    holds(
        fits_length(&document, 17) && fits_length(&document, 20),
        "a chunk is padded by up to 3 bytes",
    )?;
    holds(
        !fits_length(&document, 16) && !fits_length(&document, 21),
        "a chunk is no shorter, and no longer",
    )?;
    holds(!fits(&document, None), "there is a chunk")
}

#[test]
fn a_document_without_buffers_needs_no_chunk(rt: HostRuntime) -> Result<(), Fail> {
    let root = Root::from_str(rt.alloc(), r#"{"asset":{"version":"2.0"}}"#)?;
    holds(fits(&Document::of(&root), None), "no chunk is needed")
}
