//! The extension objects of sparse accessors, of which no extension is kept.

use gltf_schema::DroppedExtensions;

/// The extensions of a sparse storage.
pub type Sparse = DroppedExtensions;

/// The extensions of the indices of a sparse storage.
pub type Indices = DroppedExtensions;

/// The extensions of the values of a sparse storage.
pub type Values = DroppedExtensions;
