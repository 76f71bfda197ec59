//! The index of refraction (`KHR_materials_ior`).

use crate::extras::Extras;
use gltf_base::Real;

mod derived;

/// The index of refraction of a material (`KHR_materials_ior`).
#[derive(Clone, Debug, Drop)]
pub struct Ior {
    /// The index of refraction.
    pub ior: IndexOfRefraction,
    pub extras: Extras,
}

/// An index of refraction; `None` means 1.5.
#[derive(Clone, Debug, Default, Drop)]
pub struct IndexOfRefraction(pub Option<Real>);

impl IndexOfRefraction {
    /// The number that an absent factor means.
    pub const DEFAULT: f64 = 1.5;
}
