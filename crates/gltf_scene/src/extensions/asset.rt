//! The extension object of an asset, which keeps no extension.

use gltf_schema::DroppedExtensions;

/// The extensions of an asset.
pub type Asset = DroppedExtensions;
