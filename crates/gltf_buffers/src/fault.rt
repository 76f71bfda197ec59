//! Why a document's buffers have no bytes.

use crate::data::DataFault;
use std::alloc::AllocError;
use std::fmt::Display;
use thiserror::Error;

/// What is wrong with the buffer of a number. `E` is why a caller gives no bytes for a URI.
#[derive(Debug, Drop, Error)]
#[error_bound(E: Display)]
pub enum BufferFault<E> {
    /// The buffer has no URI, and isn't the first one, or there is no BIN chunk.
    #[error("buffer {buffer} has no bytes")]
    NoSource {
        /// The number of the buffer.
        buffer: usize,
    },
    /// Its URI is a data URI that isn't valid.
    #[error("buffer {buffer}: {fault}")]
    Data {
        /// The number of the buffer.
        buffer: usize,
        /// What is wrong with the URI.
        fault: DataFault,
    },
    /// There are no bytes for its URI.
    #[error("buffer {buffer}: {error}")]
    Unresolved {
        /// The number of the buffer.
        buffer: usize,
        /// Why there are none.
        error: E,
    },
    /// There are fewer bytes than its `byteLength`.
    #[error("buffer {buffer} has only {found} bytes")]
    Short {
        /// The number of the buffer.
        buffer: usize,
        /// How many there are.
        found: usize,
    },
    /// Out of memory.
    #[error("out of memory")]
    Memory(AllocError),
}
