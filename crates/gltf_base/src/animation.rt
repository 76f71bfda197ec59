//! The choices of animations.

ghost use Rattle.std.specs.Prelude.{◌≡◌, map};
ghost use Rattle.gltf_base.specs.Spelling.{by_name};
ghost use Rattle.gltf_base.specs.SceneChoices.{interpolation_spelling, interpolations, property_spelling, properties};

mod derived;

pub use derived::{VALID_INTERPOLATIONS, VALID_PROPERTIES};

/// How to interpolate between keyframes (glTF 2.0, section 5.8.2).
#[derive(Clone, Copy, Debug, PartialEq, Eq)]
pub enum Interpolation {
    /// Linear interpolation.
    Linear = 1,
    /// The value of the previous keyframe.
    Step,
    /// A cubic spline with specified tangents.
    CubicSpline,
}

impl Default for Interpolation {
    ghost use Rattle.gltf_base.specs.declared.animation.Interpolation.TheVariants.{Linear};

    ghost is_default = { λ x. x ≡ Linear };

    fn default() -> Interpolation {
        Interpolation::Linear
    }
}

/// The property of a node that a channel animates (glTF 2.0, section 5.7.2).
#[derive(Clone, Copy, Debug, PartialEq, Eq)]
pub enum Property {
    /// Translation.
    Translation = 1,
    /// Rotation, as a quaternion.
    Rotation,
    /// Scale.
    Scale,
    /// Weights of morph targets.
    MorphTargetWeights,
}

/// The constants of this module are those by which the choices are spelled.
pub fn constants_are_listed()
    ensures interpolations { map (λ name. by_name name.now) VALID_INTERPOLATIONS.now
        ≡ map interpolation_spelling interpolations }
    ensures properties { map (λ name. by_name name.now) VALID_PROPERTIES.now
        ≡ map property_spelling properties }
{}
