//! The choices of textures.

ghost use Rattle.std.specs.Prelude.{◌≡◌, map};
ghost use Rattle.gltf_base.specs.Spelling.{by_number};
ghost use Rattle.gltf_base.specs.TextureChoices.{mag_filter_spelling, mag_filters, min_filter_spelling, min_filters, wrapping_mode_spelling, wrapping_modes};

mod derived;

pub use derived::{
    CLAMP_TO_EDGE, LINEAR, LINEAR_MIPMAP_LINEAR, LINEAR_MIPMAP_NEAREST, MIRRORED_REPEAT, NEAREST,
    NEAREST_MIPMAP_LINEAR, NEAREST_MIPMAP_NEAREST, REPEAT, VALID_MAG_FILTERS, VALID_MIN_FILTERS,
    VALID_WRAPPING_MODES,
};

/// A magnification filter (glTF 2.0, section 5.26.1).
#[derive(Clone, Copy, Debug, PartialEq, Eq)]
pub enum MagFilter {
    /// The nearest texel.
    Nearest = 1,
    /// Linear interpolation of texels.
    Linear,
}

/// A minification filter (glTF 2.0, section 5.26.2).
#[derive(Clone, Copy, Debug, PartialEq, Eq)]
pub enum MinFilter {
    /// The nearest texel.
    Nearest = 1,
    /// Linear interpolation of texels.
    Linear,
    /// The nearest texel of the nearest mipmap.
    NearestMipmapNearest,
    /// Linear interpolation of texels in the nearest mipmap.
    LinearMipmapNearest,
    /// Linear interpolation between the nearest texels of two mipmaps.
    NearestMipmapLinear,
    /// Linear interpolation of texels in two mipmaps, and between the two.
    LinearMipmapLinear,
}

/// A wrapping mode of texture coordinates (glTF 2.0, sections 5.26.3 and 5.26.4).
#[derive(Clone, Copy, Debug, PartialEq, Eq)]
pub enum WrappingMode {
    /// Coordinates are clamped to the edge.
    ClampToEdge = 1,
    /// The texture repeats, mirrored each time.
    MirroredRepeat,
    /// The texture repeats.
    Repeat,
}

impl Default for WrappingMode {
    ghost use Rattle.gltf_base.specs.declared.texture.WrappingMode.TheVariants.{Repeat};

    ghost is_default = { λ x. x ≡ Repeat };

    fn default() -> WrappingMode {
        WrappingMode::Repeat
    }
}

/// The constants of this module are those that the specification lists.
pub fn constants_are_listed()
    ensures filters { (NEAREST ≡ 9728) × (LINEAR ≡ 9729) × (NEAREST_MIPMAP_NEAREST ≡ 9984)
        × (LINEAR_MIPMAP_NEAREST ≡ 9985) × (NEAREST_MIPMAP_LINEAR ≡ 9986)
        × (LINEAR_MIPMAP_LINEAR ≡ 9987) }
    ensures wrapping { (CLAMP_TO_EDGE ≡ 33071) × (MIRRORED_REPEAT ≡ 33648) × (REPEAT ≡ 10497) }
    ensures mag_filters { map by_number VALID_MAG_FILTERS.now
        ≡ map mag_filter_spelling mag_filters }
    ensures min_filters { map by_number VALID_MIN_FILTERS.now
        ≡ map min_filter_spelling min_filters }
    ensures wrapping_modes { map by_number VALID_WRAPPING_MODES.now
        ≡ map wrapping_mode_spelling wrapping_modes }
{}
