//! The extension objects of nodes and scenes.

use gltf_schema::KeptExtensions;
use serde_json::{Map, Value};

mod derived;
pub mod khr_lights_punctual;
pub mod khr_materials_variants;

/// The extensions of a node.
#[derive(Clone, Debug, Drop)]
pub struct Node {
    /// `KHR_lights_punctual`: the light at the node.
    pub khr_lights_punctual: Option<khr_lights_punctual::KhrLightsPunctual>,
    /// Unknown extensions, kept as they are.
    pub others: Map<String, Value>,
}

/// The extensions of a scene.
pub type Scene = KeptExtensions;
