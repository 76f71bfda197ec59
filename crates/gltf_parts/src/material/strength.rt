//! Factors from 0 to 1.

use gltf_base::Real;

mod derived;

/// A factor from 0 to 1; `None` means 1.
#[derive(Clone, Debug, Default, Drop)]
pub struct StrengthFactor(pub Option<Real>);

impl StrengthFactor {
    /// The number that an absent factor means.
    pub const DEFAULT: f64 = 1.0;
}
