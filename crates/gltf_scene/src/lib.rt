//! The glTF 2.0 objects of meshes, nodes, scenes and animations, and a document's own description.
#![tactic(auto)]

pub mod animation;
pub mod asset;
pub mod camera;
pub mod extensions;
pub mod laws;
pub mod mesh;
pub mod scene;
pub mod skin;
