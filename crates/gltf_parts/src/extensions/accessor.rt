//! The extension objects of accessors.

use gltf_schema::KeptExtensions;

pub mod sparse;

/// The extensions of an accessor.
pub type Accessor = KeptExtensions;
