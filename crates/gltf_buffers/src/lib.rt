//! The bytes of the buffers of a document (glTF 2.0, section 3.6.1). It knows no document: a trait
//! says what its buffers are, and another one gives the bytes of files. A container of binary glTF,
//! `.glb` (section 4.4), is read and written too.
#![tactic(auto)]

mod buffers;
mod content;
mod data;
mod error;
mod fault;
mod folder;
mod glb;
mod list;
mod path;
mod resolve;
mod write;

pub use buffers::Buffers;
pub use data::{DataError, DataFault, decode_data_uri, is_data_uri};
pub use error::GlbError;
pub use fault::BufferFault;
pub use folder::{FileFault, Folder};
pub use glb::Glb;
pub use list::{BufferList, StoredBuffer};
pub use path::{PathFault, decode_path};
pub use resolve::Resolve;
pub use write::WriteError;
