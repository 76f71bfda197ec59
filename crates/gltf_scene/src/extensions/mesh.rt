//! The extension objects of meshes and their primitives.

ghost use Rattle.std.specs.Prelude.{◌≡◌};
ghost use Rattle.gltf_schema.specs.Tree.{end, list, whole, with_tree};
ghost use Rattle.gltf_scene.specs.Mesh.{variant_mappings_members, variant_mapping_members};

use gltf_schema::KeptExtensions;
use serde_json::{Map, Value};
use std::alloc::Global;

mod derived;

/// The extensions of a mesh.
pub type Mesh = KeptExtensions;

/// The extensions of a primitive.
#[derive(Clone, Debug, Drop)]
pub struct Primitive {
    /// `KHR_materials_variants`: the material of the primitive for each variant.
    pub khr_materials_variants: Option<KhrMaterialsVariants>,
    /// Unknown extensions, kept as they are.
    pub others: Map<String, Value>,
}

/// The material of a primitive for each variant (`KHR_materials_variants`).
#[derive(Clone, Debug, Drop)]
pub struct KhrMaterialsVariants {
    pub mappings: Vec<Mapping>,
}

impl KhrMaterialsVariants {
    /// Returns an object without mappings.
    #[tactic(auto, unfolding(crate::specs::Mesh::variant_mappings_members))]
    pub fn new(alloc: Global) -> KhrMaterialsVariants
        ensures { variant_mappings_members result ≡ with_tree (list end) end }
    {
        KhrMaterialsVariants {
            mappings: Vec::new(alloc),
        }
    }
}

/// The material of a primitive for some variants.
#[derive(Clone, Debug, Drop)]
pub struct Mapping {
    /// The index of the material, as a plain number.
    pub material: u32,
    /// The indices of the variants, as plain numbers.
    pub variants: Vec<u32>,
}

impl Mapping {
    /// Returns a mapping to material 0, for no variant.
    #[tactic(auto, unfolding(crate::specs::Mesh::variant_mapping_members))]
    pub fn new(alloc: Global) -> Mapping
        ensures { variant_mapping_members result ≡ with_tree (whole 0) (with_tree (list end) end) }
    {
        Mapping {
            material: 0,
            variants: Vec::new(alloc),
        }
    }
}
