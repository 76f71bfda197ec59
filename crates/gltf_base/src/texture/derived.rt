//! Written by tools/derive.py from crates/gltf_base/src/texture.rt,
//! crates/gltf_base/specs/TextureChoices.antt and crates/gltf_base/specs/GlNames.antt. Do not edit.

ghost use Rattle.gltf_base.specs.GlNames.{mag_filter_name, min_filter_name, wrapping_mode_name};
ghost use Rattle.gltf_base.specs.Spelling.{by_number, item_spelled, spelling_text};
ghost use Rattle.gltf_base.specs.TextureChoices.{mag_filter_spelling, mag_filters, min_filter_spelling, min_filters, wrapping_mode_spelling, wrapping_modes};
ghost use Rattle.gltf_base.specs.declared.choice.Form.TheVariants.{Number};
ghost use Rattle.std.specs.Prelude.{Some, refl, ◌≡◌};

use super::{MagFilter, MinFilter, WrappingMode};
use crate::choice::{Choice, Form, Spelling, item_of};
use crate::validation::Checked;
use std::fmt::{self, Display, Formatter, Write};

/// `GL_NEAREST`.
pub const NEAREST: u32 = 9728;

/// `GL_LINEAR`.
pub const LINEAR: u32 = 9729;

/// `GL_NEAREST_MIPMAP_NEAREST`.
pub const NEAREST_MIPMAP_NEAREST: u32 = 9984;

/// `GL_LINEAR_MIPMAP_NEAREST`.
pub const LINEAR_MIPMAP_NEAREST: u32 = 9985;

/// `GL_NEAREST_MIPMAP_LINEAR`.
pub const NEAREST_MIPMAP_LINEAR: u32 = 9986;

/// `GL_LINEAR_MIPMAP_LINEAR`.
pub const LINEAR_MIPMAP_LINEAR: u32 = 9987;

/// `GL_CLAMP_TO_EDGE`.
pub const CLAMP_TO_EDGE: u32 = 33071;

/// `GL_MIRRORED_REPEAT`.
pub const MIRRORED_REPEAT: u32 = 33648;

/// `GL_REPEAT`.
pub const REPEAT: u32 = 10497;

/// The numbers of the magnification filters.
pub const VALID_MAG_FILTERS: &[u32] = &[NEAREST, LINEAR];

/// The numbers of the minification filters.
pub const VALID_MIN_FILTERS: &[u32] = &[
    NEAREST,
    LINEAR,
    NEAREST_MIPMAP_NEAREST,
    LINEAR_MIPMAP_NEAREST,
    NEAREST_MIPMAP_LINEAR,
    LINEAR_MIPMAP_LINEAR,
];

/// The numbers of the wrapping modes.
pub const VALID_WRAPPING_MODES: &[u32] = &[CLAMP_TO_EDGE, MIRRORED_REPEAT, REPEAT];

impl Choice for MagFilter {
    ghost spelling = { mag_filter_spelling };

    ghost listed = { mag_filters };

    ghost form = { Number };

    ghost reads_back = { (refl, (refl, tt)) };

    fn form() -> Form {
        Form::Number
    }

    fn listed() -> &'static [MagFilter] {
        &[MagFilter::Nearest, MagFilter::Linear]
    }

    fn spelling(self) -> Spelling<'static> {
        Spelling::Number(u64::from(self.as_gl_enum()))
    }
}

impl Display for MagFilter {
    ghost output = { λ item. Some (spelling_text (mag_filter_spelling item)) };

    fn fmt<W: Write>(&self, f: &mut Formatter<W>) -> fmt::Result {
        Display::fmt(&self.spelling(), f)
    }
}

impl MagFilter {
    /// Returns the filter with this number, or `Invalid` if there is none.
    pub fn from_gl_enum(number: u64) -> Checked<MagFilter>
        ensures { result ≡ item_spelled mag_filter_spelling mag_filters (by_number number) }
    {
        item_of::<MagFilter>(Spelling::Number(number))
    }

    /// Returns the number that stands for the filter in a document.
    pub fn as_gl_enum(&self) -> u32
        ensures { by_number result ≡ mag_filter_spelling self.now }
    {
        match self {
            MagFilter::Nearest => NEAREST,
            MagFilter::Linear => LINEAR,
        }
    }

    /// The name that the specification gives to the number that spells it, as `LINEAR`.
    pub fn name(self) -> &'static str
        ensures { result.now ≡ mag_filter_name self }
    {
        match self {
            MagFilter::Nearest => "NEAREST",
            MagFilter::Linear => "LINEAR",
        }
    }
}

impl Choice for MinFilter {
    ghost spelling = { min_filter_spelling };

    ghost listed = { min_filters };

    ghost form = { Number };

    ghost reads_back = { (refl, (refl, (refl, (refl, (refl, (refl, tt)))))) };

    fn form() -> Form {
        Form::Number
    }

    fn listed() -> &'static [MinFilter] {
        &[
            MinFilter::Nearest,
            MinFilter::Linear,
            MinFilter::NearestMipmapNearest,
            MinFilter::LinearMipmapNearest,
            MinFilter::NearestMipmapLinear,
            MinFilter::LinearMipmapLinear,
        ]
    }

    fn spelling(self) -> Spelling<'static> {
        Spelling::Number(u64::from(self.as_gl_enum()))
    }
}

impl Display for MinFilter {
    ghost output = { λ item. Some (spelling_text (min_filter_spelling item)) };

    fn fmt<W: Write>(&self, f: &mut Formatter<W>) -> fmt::Result {
        Display::fmt(&self.spelling(), f)
    }
}

impl MinFilter {
    /// Returns the filter with this number, or `Invalid` if there is none.
    pub fn from_gl_enum(number: u64) -> Checked<MinFilter>
        ensures { result ≡ item_spelled min_filter_spelling min_filters (by_number number) }
    {
        item_of::<MinFilter>(Spelling::Number(number))
    }

    /// Returns the number that stands for the filter in a document.
    pub fn as_gl_enum(&self) -> u32
        ensures { by_number result ≡ min_filter_spelling self.now }
    {
        match self {
            MinFilter::Nearest => NEAREST,
            MinFilter::Linear => LINEAR,
            MinFilter::NearestMipmapNearest => NEAREST_MIPMAP_NEAREST,
            MinFilter::LinearMipmapNearest => LINEAR_MIPMAP_NEAREST,
            MinFilter::NearestMipmapLinear => NEAREST_MIPMAP_LINEAR,
            MinFilter::LinearMipmapLinear => LINEAR_MIPMAP_LINEAR,
        }
    }

    /// The name that the specification gives to the number that spells it, as
    /// `LINEAR_MIPMAP_LINEAR`.
    pub fn name(self) -> &'static str
        ensures { result.now ≡ min_filter_name self }
    {
        match self {
            MinFilter::Nearest => "NEAREST",
            MinFilter::Linear => "LINEAR",
            MinFilter::NearestMipmapNearest => "NEAREST_MIPMAP_NEAREST",
            MinFilter::LinearMipmapNearest => "LINEAR_MIPMAP_NEAREST",
            MinFilter::NearestMipmapLinear => "NEAREST_MIPMAP_LINEAR",
            MinFilter::LinearMipmapLinear => "LINEAR_MIPMAP_LINEAR",
        }
    }
}

impl Choice for WrappingMode {
    ghost spelling = { wrapping_mode_spelling };

    ghost listed = { wrapping_modes };

    ghost form = { Number };

    ghost reads_back = { (refl, (refl, (refl, tt))) };

    fn form() -> Form {
        Form::Number
    }

    fn listed() -> &'static [WrappingMode] {
        &[
            WrappingMode::ClampToEdge,
            WrappingMode::MirroredRepeat,
            WrappingMode::Repeat,
        ]
    }

    fn spelling(self) -> Spelling<'static> {
        Spelling::Number(u64::from(self.as_gl_enum()))
    }
}

impl Display for WrappingMode {
    ghost output = { λ item. Some (spelling_text (wrapping_mode_spelling item)) };

    fn fmt<W: Write>(&self, f: &mut Formatter<W>) -> fmt::Result {
        Display::fmt(&self.spelling(), f)
    }
}

impl WrappingMode {
    /// Returns the mode with this number, or `Invalid` if there is none.
    pub fn from_gl_enum(number: u64) -> Checked<WrappingMode>
        ensures { result ≡ item_spelled wrapping_mode_spelling wrapping_modes (by_number number) }
    {
        item_of::<WrappingMode>(Spelling::Number(number))
    }

    /// Returns the number that stands for the mode in a document.
    pub fn as_gl_enum(&self) -> u32
        ensures { by_number result ≡ wrapping_mode_spelling self.now }
    {
        match self {
            WrappingMode::ClampToEdge => CLAMP_TO_EDGE,
            WrappingMode::MirroredRepeat => MIRRORED_REPEAT,
            WrappingMode::Repeat => REPEAT,
        }
    }

    /// The name that the specification gives to the number that spells it, as `REPEAT`.
    pub fn name(self) -> &'static str
        ensures { result.now ≡ wrapping_mode_name self }
    {
        match self {
            WrappingMode::ClampToEdge => "CLAMP_TO_EDGE",
            WrappingMode::MirroredRepeat => "MIRRORED_REPEAT",
            WrappingMode::Repeat => "REPEAT",
        }
    }
}
