//! The extension object of images.

use gltf_schema::KeptExtensions;

/// The extensions of an image.
pub type Image = KeptExtensions;
