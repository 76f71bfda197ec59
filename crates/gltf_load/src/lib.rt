//! Loads what a document describes without bounds checks: its nodes as a forest (glTF 2.0, section
//! 3.5.2), the scenes that list root nodes (section 3.5.1), the joints of skins (section 3.7.3.2),
//! where the elements of accessors lie (section 3.6), the bytes of its buffers (section 3.6.1), and
//! the elements themselves, in the formats that their usage allows (section 3.7.2.1). It requires
//! no valid document.
//!
//! `Document::of` binds the lists of a `Root` to the traits of the crates that know no document:
//! `Storage` of `gltf_layout`, `Hierarchy` of `gltf_hierarchy` and `BufferList` of `gltf_buffers`.
//! `Layout::of`, `LayoutFaults::of`, `Forest::of`, `Forest::faults` and `Buffers::of` take such a
//! document. With a layout and buffers, `Reader` reads the attributes of a primitive, and
//! `Accessors` what skins, morph targets and animations name. `Forest::common_root` takes the
//! joints that `joints_of` returns.
#![tactic(auto)]

mod accessors;
mod attribute;
mod buffers;
mod document;
mod fault;
mod glb;
pub mod laws;
mod nodes;
mod place;
mod reader;
mod scene;
mod skin;
mod transform;

pub use accessors::Accessors;
pub use document::Document;
pub use fault::{LayoutFault, ReadFault};
pub use glb::glb_fits;
pub use gltf_accessors::{
    AccessFault, Accessor, AccessorData, AccessorDataFault, Colors, Component, Components,
    ComponentsFault, DeviatingFault, Elements, ElementsFault, Floats, Format, FormatFault,
    IndexType, Indices, IndicesFault, Integers, Joints, Normalized, Outputs, PartFault,
    PrimitiveIndices, Sparse, SparseFault as SparseIndicesFault, Usage, Vectors, VertexFault,
    indices_are_vertices,
};
pub use gltf_buffers::{
    BufferFault, BufferList, Buffers, DataFault, FileFault, Folder, Glb, GlbError, PathFault,
    Resolve, StoredBuffer, WriteError,
};
pub use gltf_hierarchy::{Forest, HierarchyFault, JointFault};
pub use gltf_layout::{
    AccessorFault, Layout, LayoutError, LayoutFaults, Location, Misfit, Place, PlaceFault, Span,
    SparseFault, SparsePlace, StorageFault, ViewFault, element_size,
};
pub use nodes::forest_of;
pub use place::{element_size_of, span_of};
pub use reader::Reader;
pub use scene::is_scene_of;
pub use skin::joints_of;
pub use transform::local_matrix;
