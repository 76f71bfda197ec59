//! The values of keyframes.

use crate::Accessor;
use crate::vectors::Vectors;

/// The values of keyframes, by the property that they animate (glTF 2.0, section 3.11). For cubic
/// splines there are three for each keyframe: an in-tangent, a value and an out-tangent.
#[derive(Debug, Drop)]
pub enum Outputs<'a> {
    /// Translations.
    Translations(Accessor<'a, f32, 3>),
    /// Rotations, as quaternions: x, y, z and w.
    Rotations(Vectors<'a, 4>),
    /// Scales.
    Scales(Accessor<'a, f32, 3>),
    /// Weights of morph targets, for each keyframe as many as there are targets.
    MorphWeights(Vectors<'a, 1>),
}
