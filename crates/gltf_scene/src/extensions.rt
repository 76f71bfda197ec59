//! Extension objects: the values of an object's member `extensions`.

pub mod animation;
pub mod asset;
pub mod camera;
pub mod mesh;
pub mod scene;
pub mod skin;

pub use gltf_base::extensions::{ENABLED_EXTENSIONS, SUPPORTED_EXTENSIONS};
