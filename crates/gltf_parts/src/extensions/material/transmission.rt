//! How light passes through a surface (`KHR_materials_transmission`).

use crate::extras::Extras;
use crate::texture::Info;
use gltf_base::Real;

mod derived;

/// The light that is transmitted through a surface (`KHR_materials_transmission`).
#[derive(Clone, Debug)]
pub struct Transmission {
    /// The fraction of light that is transmitted.
    pub transmission_factor: TransmissionFactor,
    /// The texture with this fraction in its red channel.
    pub transmission_texture: Option<Info>,
    pub extras: Extras,
}

// Written by tools/derive.py: begin
impl Drop for Transmission {
    #[inline(always)]
    fn drop(self) {
        let Transmission {
            transmission_factor: _,
            transmission_texture: _,
            extras: _,
        } = self;
    }
}
// Written by tools/derive.py: end

/// The fraction of light that is transmitted, from 0 to 1; `None` means 0.
#[derive(Clone, Debug, Default, Drop)]
pub struct TransmissionFactor(pub Option<Real>);

impl TransmissionFactor {
    /// The number that an absent factor means.
    pub const DEFAULT: f64 = 0.0;
}
