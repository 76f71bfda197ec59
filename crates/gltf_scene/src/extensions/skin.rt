//! The extension objects of skins.

use gltf_schema::KeptExtensions;

/// The extensions of a skin.
pub type Skin = KeptExtensions;
