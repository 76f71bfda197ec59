//! Why bytes are not what an accessor says of them, and why accessors can't be read.

use crate::format::FormatFault;
use thiserror::Error;

/// Why elements don't lie in the bytes of a buffer.
#[derive(Clone, Copy, Debug, PartialEq, Eq, Error)]
pub enum ElementsFault {
    /// The last element ends behind the bytes.
    #[error("the elements end behind the buffer")]
    BehindBuffer,
}

/// Why elements have no components of a type.
#[derive(Clone, Copy, Debug, PartialEq, Eq, Error)]
pub enum ComponentsFault {
    /// An element has more or fewer bytes than so many components.
    #[error("the size of an element is not that of its components")]
    Size,
    /// A component is NaN or infinite, which section 3.6.2.2 forbids.
    #[error("component {component} of element {element} is NaN or infinite")]
    NotFinite {
        /// The number of the element.
        element: u64,
        /// The number of the component in the element.
        component: usize,
    },
}

/// Why elements are no indices.
#[derive(Clone, Copy, Debug, PartialEq, Eq, Error)]
pub enum IndicesFault {
    /// Their component type is no unsigned integer.
    #[error("the component type of the indices is no unsigned integer")]
    NoIndexType,
    /// An element has more or fewer bytes than an index.
    #[error("the size of an element is not that of an index")]
    Size,
}

/// An index that names no vertex.
#[derive(Clone, Copy, Debug, PartialEq, Eq, Error)]
#[error("index {index}, at place {place}, names no vertex")]
pub struct VertexFault {
    /// The place of the index.
    pub place: u64,
    /// The index.
    pub index: u32,
}

/// Why elements can't deviate from those of a base.
#[derive(Clone, Copy, Debug, PartialEq, Eq, Error)]
pub enum SparseFault {
    /// There are not as many indices as values.
    #[error("there are not as many sparse indices as values")]
    Count,
    /// An index is not above the one before.
    #[error("the sparse index {index} is not above the one at place {place}")]
    NotRising {
        /// The place of the index before.
        place: u64,
        /// The index.
        index: u32,
    },
    /// An index is that of no element.
    #[error("the sparse index {index}, at place {place}, is that of no element")]
    BehindEnd {
        /// The place of the index.
        place: u64,
        /// The index.
        index: u32,
    },
}

/// Why elements are not those of an accessor.
#[derive(Clone, Copy, Debug, PartialEq, Eq, Error)]
pub enum AccessorFault {
    /// The view has more or fewer elements than the accessor.
    #[error("the view has not as many elements as the accessor")]
    Count,
    /// The elements that deviate are those of another count.
    #[error("the sparse indices were checked for another count")]
    SparseCount,
}

/// Why elements at a place can't be read.
#[derive(Clone, Copy, Debug, PartialEq, Eq, Error)]
pub enum PartFault {
    /// There are no bytes of the buffer. Those of another document were given.
    #[error("there is no buffer {buffer}")]
    NoSuchBuffer {
        /// The number of the buffer.
        buffer: u32,
    },
    /// The elements don't lie in the bytes of the buffer.
    #[error("{0}")]
    Elements(ElementsFault),
    /// The elements have no such components.
    #[error("{0}")]
    Components(ComponentsFault),
    /// The elements are no indices.
    #[error("{0}")]
    Indices(IndicesFault),
}

/// Why elements that deviate can't be read.
#[derive(Clone, Copy, Debug, PartialEq, Eq, Error)]
pub enum DeviatingFault {
    /// Their indices.
    #[error("sparse indices: {0}")]
    Indices(PartFault),
    /// The elements themselves.
    #[error("sparse values: {0}")]
    Values(PartFault),
    /// The indices don't rise, or are those of no elements.
    #[error("{0}")]
    Sparse(SparseFault),
}

/// Why the data of an accessor can't be read.
#[derive(Clone, Copy, Debug, PartialEq, Eq, Error)]
pub enum AccessorDataFault {
    /// The elements of the view.
    #[error("{0}")]
    Elements(PartFault),
    /// The elements that deviate.
    #[error("{0}")]
    Deviating(DeviatingFault),
    /// The view has more or fewer elements than the accessor.
    #[error("the view has not as many elements as the accessor")]
    Count,
}

/// Why an accessor can't be read.
#[derive(Clone, Copy, Debug, PartialEq, Eq, Error)]
pub enum AccessFault {
    /// Its format is none of those that its usage allows.
    #[error("{0}")]
    Format(FormatFault),
    /// Its data is not what it says.
    #[error("{0}")]
    Data(AccessorDataFault),
}
