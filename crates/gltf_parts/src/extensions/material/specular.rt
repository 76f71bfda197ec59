//! The specular reflection (`KHR_materials_specular`).

use crate::extras::Extras;
use crate::texture::Info;
use gltf_base::Real;

mod derived;

/// The strength and the color of the specular reflection (`KHR_materials_specular`).
#[derive(Clone, Debug)]
pub struct Specular {
    /// How much of the light is reflected like by a mirror, from 0 to 1.
    pub specular_factor: SpecularFactor,
    /// The texture with the strength in its alpha channel.
    pub specular_texture: Option<Info>,
    /// The specular color factor.
    pub specular_color_factor: SpecularColorFactor,
    /// The specular color texture.
    pub specular_color_texture: Option<Info>,
    pub extras: Extras,
}

// Written by tools/derive.py: begin
impl Drop for Specular {
    #[inline(always)]
    fn drop(self) {
        let Specular {
            specular_factor: _,
            specular_texture: _,
            specular_color_factor: _,
            specular_color_texture: _,
            extras: _,
        } = self;
    }
}
// Written by tools/derive.py: end

/// The strength of a specular reflection, from 0 to 1; `None` means 1.
#[derive(Clone, Debug, Default, Drop)]
pub struct SpecularFactor(pub Option<Real>);

impl SpecularFactor {
    /// The number that an absent factor means.
    pub const DEFAULT: f64 = 1.0;
}

/// A specular color factor: red, green, blue; `None` means ones.
#[derive(Clone, Debug, Default, Drop)]
pub struct SpecularColorFactor(pub Option<[Real; 3]>);

impl SpecularColorFactor {
    /// The numbers that an absent factor means.
    pub const DEFAULT: [f64; 3] = [1.0; 3];
}
