//! The specular-glossiness model (`KHR_materials_pbrSpecularGlossiness`).

use crate::extras::Extras;
use crate::material::StrengthFactor;
use crate::texture::Info;
use gltf_base::Real;
use serde_json::{Map, Value};

mod derived;

/// The parameters of the specular-glossiness model (`KHR_materials_pbrSpecularGlossiness`).
#[derive(Clone, Debug)]
pub struct PbrSpecularGlossiness {
    /// The diffuse factor.
    pub diffuse_factor: PbrDiffuseFactor,
    /// The diffuse texture.
    pub diffuse_texture: Option<Info>,
    /// The specular factor.
    pub specular_factor: PbrSpecularFactor,
    /// The glossiness factor.
    pub glossiness_factor: StrengthFactor,
    /// The texture with the specular color, and the glossiness in its alpha channel.
    pub specular_glossiness_texture: Option<Info>,
    /// Unknown members, kept as they are.
    pub others: Map<String, Value>,
    pub extras: Extras,
}

// Written by tools/derive.py: begin
impl Drop for PbrSpecularGlossiness {
    #[inline(always)]
    fn drop(self) {
        let PbrSpecularGlossiness {
            diffuse_factor: _,
            diffuse_texture: _,
            specular_factor: _,
            glossiness_factor: _,
            specular_glossiness_texture: _,
            others: _,
            extras: _,
        } = self;
    }
}
// Written by tools/derive.py: end

/// A diffuse factor: red, green, blue, alpha; `None` means ones.
#[derive(Clone, Debug, Default, Drop)]
pub struct PbrDiffuseFactor(pub Option<[Real; 4]>);

impl PbrDiffuseFactor {
    /// The numbers that an absent factor means.
    pub const DEFAULT: [f64; 4] = [1.0; 4];
}

/// A specular factor: red, green, blue; `None` means ones.
#[derive(Clone, Debug, Default, Drop)]
pub struct PbrSpecularFactor(pub Option<[Real; 3]>);

impl PbrSpecularFactor {
    /// The numbers that an absent factor means.
    pub const DEFAULT: [f64; 3] = [1.0; 3];
}
