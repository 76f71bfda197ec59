//! The extension objects of materials and of their references to textures.

use gltf_schema::KeptExtensions;
use serde_json::{Map, Value};

mod derived;
mod emissive_strength;
mod ior;
mod pbr_specular_glossiness;
mod specular;
mod transmission;
mod unlit;
mod volume;

pub use emissive_strength::{EmissiveStrength, EmissiveStrengthFactor};
pub use ior::{IndexOfRefraction, Ior};
pub use pbr_specular_glossiness::{PbrDiffuseFactor, PbrSpecularFactor, PbrSpecularGlossiness};
pub use specular::{Specular, SpecularColorFactor, SpecularFactor};
pub use transmission::{Transmission, TransmissionFactor};
pub use unlit::Unlit;
pub use volume::{AttenuationColor, AttenuationDistance, ThicknessFactor, Volume};

/// The extensions of a material.
#[derive(Clone, Debug)]
pub struct Material {
    /// `KHR_materials_pbrSpecularGlossiness`: the specular-glossiness model in place of the
    /// metallic-roughness one.
    pub pbr_specular_glossiness: Option<PbrSpecularGlossiness>,
    /// `KHR_materials_unlit`: the material isn't affected by light.
    pub unlit: Option<Unlit>,
    /// `KHR_materials_transmission`: light is transmitted through the surface.
    pub transmission: Option<Transmission>,
    /// `KHR_materials_volume`: the surface is the boundary of a volume.
    pub volume: Option<Volume>,
    /// `KHR_materials_specular`: the strength and the color of the specular reflection.
    pub specular: Option<Specular>,
    /// `KHR_materials_ior`: the index of refraction.
    pub ior: Option<Ior>,
    /// `KHR_materials_emissive_strength`: the strength of the emission.
    pub emissive_strength: Option<EmissiveStrength>,
    /// Unknown extensions, kept as they are.
    pub others: Map<String, Value>,
}

// Written by tools/derive.py: begin
impl Drop for Material {
    #[inline(always)]
    fn drop(self) {
        let Material {
            pbr_specular_glossiness: _,
            unlit: _,
            transmission: _,
            volume: _,
            specular: _,
            ior: _,
            emissive_strength: _,
            others: _,
        } = self;
    }
}
// Written by tools/derive.py: end

/// The extensions of the parameters of the metallic-roughness model.
pub type PbrMetallicRoughness = KeptExtensions;

/// The extensions of a reference to a normal texture.
pub type NormalTexture = KeptExtensions;

/// The extensions of a reference to an occlusion texture.
pub type OcclusionTexture = KeptExtensions;
