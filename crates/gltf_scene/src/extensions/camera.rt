//! The extension objects of cameras and their projections.

use gltf_schema::KeptExtensions;

/// The extensions of a camera.
pub type Camera = KeptExtensions;

/// The extensions of an orthographic projection.
pub type Orthographic = KeptExtensions;

/// The extensions of a perspective projection.
pub type Perspective = KeptExtensions;
