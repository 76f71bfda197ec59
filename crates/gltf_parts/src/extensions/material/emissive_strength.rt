//! How strong the emitted light is (`KHR_materials_emissive_strength`).

use gltf_base::Real;

mod derived;

/// The strength of a surface's emission (`KHR_materials_emissive_strength`).
#[derive(Clone, Debug, Drop)]
pub struct EmissiveStrength {
    /// The strength of the emission.
    pub emissive_strength: EmissiveStrengthFactor,
}

/// The strength of an emission; `None` means 1.
#[derive(Clone, Debug, Default, Drop)]
pub struct EmissiveStrengthFactor(pub Option<Real>);

impl EmissiveStrengthFactor {
    /// The number that an absent factor means.
    pub const DEFAULT: f64 = 1.0;
}
