//! The extension objects of a whole document.

ghost use Rattle.std.specs.Prelude.{◌≡◌};
ghost use Rattle.gltf_schema.specs.Tree.{end, list, with_tree};
ghost use Rattle.gltf_root.specs.RootExtension.{lights_members, variants_members};

use gltf_scene::extensions::scene::khr_lights_punctual::Light;
use gltf_scene::extensions::scene::khr_materials_variants::Variant;
use serde_json::{Map, Value};
use std::alloc::Global;

mod derived;

/// The extensions of a whole document.
#[derive(Clone, Debug, Drop)]
pub struct Root {
    /// `KHR_lights_punctual`: the lights that nodes name.
    pub khr_lights_punctual: Option<KhrLightsPunctual>,
    /// `KHR_materials_variants`: the variants that primitives name.
    pub khr_materials_variants: Option<KhrMaterialsVariants>,
    /// Unknown extensions, kept as they are.
    pub others: Map<String, Value>,
}

/// The lights of a document (`KHR_lights_punctual`).
#[derive(Clone, Debug, Drop)]
pub struct KhrLightsPunctual {
    pub lights: Vec<Light>,
}

impl KhrLightsPunctual {
    /// Returns an object without lights.
    #[tactic(auto, unfolding(crate::specs::RootExtension::lights_members))]
    pub fn new(alloc: Global) -> KhrLightsPunctual
        ensures { lights_members result ≡ with_tree (list end) end }
    {
        KhrLightsPunctual {
            lights: Vec::new(alloc),
        }
    }
}

/// The variants of a document (`KHR_materials_variants`).
#[derive(Clone, Debug, Drop)]
pub struct KhrMaterialsVariants {
    pub variants: Vec<Variant>,
}

impl KhrMaterialsVariants {
    /// Returns an object without variants.
    #[tactic(auto, unfolding(crate::specs::RootExtension::variants_members))]
    pub fn new(alloc: Global) -> KhrMaterialsVariants
        ensures { variants_members result ≡ with_tree (list end) end }
    {
        KhrMaterialsVariants {
            variants: Vec::new(alloc),
        }
    }
}
