//! The choices of materials.

ghost use Rattle.std.specs.Prelude.{◌≡◌, map};
ghost use Rattle.gltf_base.specs.Spelling.{by_name};
ghost use Rattle.gltf_base.specs.SceneChoices.{alpha_mode_spelling, alpha_modes};

mod derived;

pub use derived::VALID_ALPHA_MODES;

/// An alpha rendering mode (glTF 2.0, section 5.19.9).
#[derive(Clone, Copy, Debug, PartialEq, Eq)]
pub enum AlphaMode {
    /// The alpha is ignored.
    Opaque = 1,
    /// Opaque or fully transparent, by the alpha cutoff.
    Mask,
    /// Blended with the background.
    Blend,
}

impl Default for AlphaMode {
    ghost use Rattle.gltf_base.specs.declared.material.AlphaMode.TheVariants.{Opaque};

    ghost is_default = { λ x. x ≡ Opaque };

    fn default() -> AlphaMode {
        AlphaMode::Opaque
    }
}

/// The constants of this module are those by which the choices are spelled.
pub fn constants_are_listed()
    ensures { map (λ name. by_name name.now) VALID_ALPHA_MODES.now
        ≡ map alpha_mode_spelling alpha_modes }
{}
