//! Why accessors are not read, and why their elements are not found.

use gltf_accessors::AccessFault;
use gltf_layout::Misfit;
use thiserror::Error;

/// Why an accessor of a document is not read.
#[derive(Clone, Copy, Debug, PartialEq, Eq, Error)]
pub enum ReadFault {
    /// The document has no such accessor.
    #[error("there is no accessor {accessor}")]
    NoSuchAccessor {
        /// The number that is no accessor's.
        accessor: u32,
    },
    /// The accessor has another format, or its data is not what it says.
    #[error("accessor {accessor}: {fault}")]
    Accessor {
        /// The number of the accessor.
        accessor: u32,
        /// What is wrong with it.
        fault: AccessFault,
    },
}

/// Why the elements of an accessor are not found in a buffer.
#[derive(Clone, Copy, Debug, PartialEq, Eq, Error)]
pub enum LayoutFault {
    /// The component type is none that an accessor can have.
    #[error("the component type is invalid")]
    InvalidComponentType,
    /// The type is none that an accessor can have.
    #[error("the type is invalid")]
    InvalidType,
    /// The accessor names a view that doesn't exist.
    #[error("there is no buffer view {view}")]
    NoSuchView {
        /// The number that is no view's.
        view: u32,
    },
    /// The view names a buffer that doesn't exist.
    #[error("there is no buffer {buffer}")]
    NoSuchBuffer {
        /// The number that is no buffer's.
        buffer: u32,
    },
    /// The accessor doesn't fit its view, or the view its buffer.
    #[error("{0}")]
    Misfit(Misfit),
}
