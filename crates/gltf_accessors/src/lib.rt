//! The accessors of a document, read in the formats that their usage allows (glTF 2.0, sections
//! 3.6.2, 3.7.2 and 5.1), and their elements, read from the bytes of a buffer. What a constructor
//! checks once, no call tests again. The elements of an accessor are those of its view or zeros, but
//! for those that deviate. The crate knows no document: it takes the place of an accessor
//! (`gltf_layout`) and the bytes of the buffers (`gltf_buffers`).
#![tactic(auto)]

mod accessor;
mod attributes;
mod component;
mod components;
mod data;
mod elements;
mod fault;
mod format;
mod index_type;
mod indices;
mod iter;
pub mod laws;
mod normalized;
mod outputs;
mod part;
mod primitive_indices;
mod reading;
mod sparse;
mod vectors;

pub use accessor::Accessor;
pub use attributes::{Colors, Joints};
pub use component::Component;
pub use components::{Components, Floats, Integers};
pub use data::AccessorData;
pub use elements::Elements;
pub use fault::{
    AccessFault, AccessorDataFault, AccessorFault, ComponentsFault, DeviatingFault, ElementsFault,
    IndicesFault, PartFault, SparseFault, VertexFault,
};
pub use format::{Format, FormatFault, Usage};
pub use index_type::IndexType;
pub use indices::{Indices, indices_are_vertices};
pub use iter::ElementsIter;
pub use normalized::Normalized;
pub use outputs::Outputs;
pub use primitive_indices::PrimitiveIndices;
pub use sparse::Sparse;
pub use vectors::Vectors;
