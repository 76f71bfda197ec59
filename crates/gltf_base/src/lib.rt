//! What every part of a glTF 2.0 document uses: paths, choices, indexes, numbers, and what documents
//! are read from and written to: readers, writers, and devices that show what their calls did.
#![tactic(auto)]

pub mod accessor;
pub mod animation;
pub mod buffer;
pub mod camera;
pub mod choice;
mod device;
mod error;
pub mod extensions;
pub mod image;
mod index;
pub mod laws;
pub mod material;
pub mod mesh;
pub mod path;
mod pointer;
mod real;
pub mod texture;
pub mod validation;
mod watched;

pub use device::{ByteIn, ByteOut, Failed, read_to_end, read_to_end_into, write_all};
pub use error::Error;
pub use index::{Index, IndexTo, Listed, Names, PushError};
pub use path::{KeyStep, Path, Step, Steps};
pub use real::Real;
pub use watched::Watched;

/// Indexes into the lists of a document, and why one more item is refused there.
pub mod root {
    pub use crate::index::{Index, PushError};
}
