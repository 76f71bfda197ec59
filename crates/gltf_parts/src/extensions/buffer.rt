//! The extension objects of buffers and their views.

use gltf_schema::KeptExtensions;

/// The extensions of a buffer.
pub type Buffer = KeptExtensions;

/// The extensions of a buffer view.
pub type View = KeptExtensions;
