//! The extension objects of textures, their samplers and the references to them.

use crate::extras::Extras;
use gltf_base::Real;
use gltf_schema::KeptExtensions;
use serde_json::{Map, Value};

mod derived;

/// The extensions of a sampler.
pub type Sampler = KeptExtensions;

/// The extensions of a texture.
pub type Texture = KeptExtensions;

/// The extensions of a reference to a texture.
#[derive(Clone, Debug, Drop)]
pub struct Info {
    /// `KHR_texture_transform`: a transform of texture coordinates.
    pub texture_transform: Option<TextureTransform>,
    /// Unknown extensions, kept as they are.
    pub others: Map<String, Value>,
}

/// A transform of texture coordinates: scale, then rotation, then offset.
// What takes longest to drop comes last (docs/DECISIONS.md, "Order of fields").
#[derive(Clone, Debug, Drop)]
pub struct TextureTransform {
    /// The set of texture coordinates that replaces the one of the reference.
    pub tex_coord: Option<u32>,
    pub rotation: TextureTransformRotation,
    pub offset: TextureTransformOffset,
    pub scale: TextureTransformScale,
    pub extras: Extras,
}

/// The offset of the origin, in texture widths and heights; `None` means zeros.
#[derive(Clone, Debug, Default, Drop)]
pub struct TextureTransformOffset(pub Option<[Real; 2]>);

impl TextureTransformOffset {
    /// The numbers that an absent factor means.
    pub const DEFAULT: [f64; 2] = [0.0; 2];
}

/// The rotation about the origin, counter-clockwise in radians; `None` means 0.
#[derive(Clone, Debug, Default, Drop)]
pub struct TextureTransformRotation(pub Option<Real>);

impl TextureTransformRotation {
    /// The number that an absent factor means.
    pub const DEFAULT: f64 = 0.0;
}

/// The scale of the coordinates; `None` means ones.
#[derive(Clone, Debug, Default, Drop)]
pub struct TextureTransformScale(pub Option<[Real; 2]>);

impl TextureTransformScale {
    /// The numbers that an absent factor means.
    pub const DEFAULT: [f64; 2] = [1.0; 2];
}
