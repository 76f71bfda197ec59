//! Why a document has no layout.

use crate::misfit::Misfit;
use std::alloc::AllocError;
use thiserror::Error;

/// Why a buffer view is no part of its buffer.
#[derive(Clone, Copy, Debug, PartialEq, Eq, Error)]
pub enum ViewFault {
    /// The view names a buffer that doesn't exist.
    #[error("there is no buffer {buffer}")]
    NoSuchBuffer {
        /// The number that is no buffer's.
        buffer: u32,
    },
    /// The view ends behind its buffer.
    #[error("the view ends behind its buffer")]
    TooLong,
}

/// Why elements don't lie in a view.
#[derive(Clone, Copy, Debug, PartialEq, Eq, Error)]
pub enum PlaceFault {
    /// There is no such view.
    #[error("there is no buffer view {view}")]
    NoSuchView {
        /// The number that is no view's.
        view: u32,
    },
    /// The view names a buffer that doesn't exist.
    #[error("there is no buffer {buffer}")]
    NoSuchBuffer {
        /// The number that is no buffer's.
        buffer: u32,
    },
    /// The view has a stride, which no view of indices or values of a sparse accessor has.
    #[error("the view of a sparse accessor has a stride")]
    Strided,
    /// The elements don't fit the view, or the view its buffer.
    #[error("{0}")]
    Misfit(Misfit),
}

/// What is wrong with the deviating elements of a sparse accessor.
#[derive(Clone, Copy, Debug, PartialEq, Eq, Error)]
pub enum SparseFault {
    /// More elements deviate than there are.
    #[error("more elements deviate than there are")]
    TooMany,
    /// The component type of the indices is none that indices can have.
    #[error("the component type of the indices is invalid")]
    InvalidIndexType,
    /// The indices don't lie in their view.
    #[error("indices: {0}")]
    Indices(PlaceFault),
    /// The values don't lie in their view.
    #[error("values: {0}")]
    Values(PlaceFault),
}

/// What is wrong with an accessor: the first reason in this order.
#[derive(Clone, Copy, Debug, PartialEq, Eq, Error)]
pub enum AccessorFault {
    /// The component type is none that an accessor can have.
    #[error("the component type is invalid")]
    InvalidComponentType,
    /// The type is none that an accessor can have.
    #[error("the type is invalid")]
    InvalidType,
    /// The accessor has no element.
    #[error("the accessor has no element")]
    NoElements,
    /// The elements don't lie in the view that the accessor names.
    #[error("{0}")]
    Elements(PlaceFault),
    /// The deviating elements are at fault.
    #[error("sparse: {0}")]
    Sparse(SparseFault),
}

/// What is wrong with a buffer view or an accessor of a document. Each is named by its number.
#[derive(Clone, Copy, Debug, PartialEq, Eq, Error)]
pub enum StorageFault {
    /// A buffer view is no part of its buffer.
    #[error("buffer view {view}: {fault}")]
    View {
        /// The number of the view.
        view: usize,
        /// What is wrong with it.
        fault: ViewFault,
    },
    /// The elements of an accessor don't lie in their buffers.
    #[error("accessor {accessor}: {fault}")]
    Accessor {
        /// The number of the accessor.
        accessor: usize,
        /// What is wrong with it.
        fault: AccessorFault,
    },
}

/// Why a document has no layout.
#[derive(Debug, Drop, Error)]
pub enum LayoutError {
    /// A buffer view or an accessor is at fault.
    #[error("{0}")]
    Fault(StorageFault),
    /// Out of memory.
    #[error("out of memory")]
    Memory(AllocError),
}
