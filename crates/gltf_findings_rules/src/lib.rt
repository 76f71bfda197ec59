//! The rules for the items of a document: accessors, buffers, images, materials, textures, cameras
//! and lights; meshes with their primitives, attributes and morph targets; nodes, scenes, skins and
//! animations; what items are used for, and items that nothing uses.
#![tactic(auto)]

mod accessors;
mod animations;
mod attributes;
mod cameras;
mod counts;
mod drawing;
mod lights;
mod marking;
mod materials;
mod meshes;
mod nodes;
mod placed;
mod sets;
mod shading;
mod sharing;
mod skins;
mod surfaces;
mod targets;
mod textures;
mod unused;
mod usage;
mod variants;
mod views;

pub use accessors::AccessorRules;
pub use animations::AnimationRules;
pub use cameras::CameraRules;
pub use lights::LightRules;
pub use marking::{
    Marking, OfAttributes, OfBuffers, OfCameras, OfDefaultWeights, OfIndices, OfKeyframes,
    OfMaterials, OfMatrices, OfMeshes, OfSkins, OfTargets, OfViews, mark_items,
};
pub use materials::MaterialRules;
pub use meshes::{MeshRules, is_skinned, targets_of_mesh};
pub use nodes::{NodeRules, SceneRules};
pub use placed::{PlacedRules, child_marks, joint_marks, skinned_marks};
pub use sharing::{ViewUses, shared_views, view_uses, views_of};
pub use skins::SkinRules;
pub use surfaces::{OfImages, OfSamplers, OfTextures};
pub use textures::{ImageRules, SamplerRules, TextureRules};
pub use unused::{UnusedRules, WeightRules};
pub use usage::{UsageRules, ViewUsageRules};
pub use views::{BufferRules, ViewRules};
