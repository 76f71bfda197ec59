//! Textures, their samplers, and the references of materials to them (glTF 2.0, sections 5.26, 5.29
//! and 5.30).

ghost use Rattle.std.specs.Prelude.{◌≡◌, [], ◌∷◌, codes};
ghost use Rattle.gltf_base.specs.Lists.{samplers, textures};
ghost use Rattle.gltf_schema.specs.WithDefaults.{with_defaults};
ghost use Rattle.gltf_schema.specs.Fields.{index_tree};
ghost use Rattle.gltf_parts.specs.Texture.{texture_rows, info_rows, texture_members, info_members};

use crate::extensions;
use crate::extras::Extras;
use crate::image::Image;
pub use gltf_base::texture::{
    CLAMP_TO_EDGE, LINEAR, LINEAR_MIPMAP_LINEAR, LINEAR_MIPMAP_NEAREST, MIRRORED_REPEAT, MagFilter,
    MinFilter, NEAREST, NEAREST_MIPMAP_LINEAR, NEAREST_MIPMAP_NEAREST, REPEAT, VALID_MAG_FILTERS,
    VALID_MIN_FILTERS, VALID_WRAPPING_MODES, WrappingMode,
};
use gltf_base::validation::Checked;
use gltf_base::{Index, Listed};

mod derived;

/// Filters and wrapping modes of a texture (glTF 2.0, section 5.26).
// What takes longest to drop comes last (docs/DECISIONS.md, "Order of fields").
#[derive(Clone, Debug)]
pub struct Sampler {
    /// The magnification filter.
    pub mag_filter: Option<Checked<MagFilter>>,
    /// The minification filter.
    pub min_filter: Option<Checked<MinFilter>>,
    /// The S (U) wrapping mode.
    pub wrap_s: Checked<WrappingMode>,
    /// The T (V) wrapping mode.
    pub wrap_t: Checked<WrappingMode>,
    pub name: Option<String>,
    pub extensions: Option<extensions::texture::Sampler>,
    pub extras: Extras,
}

// Written by tools/derive.py: begin
impl Drop for Sampler {
    #[inline(always)]
    fn drop(self) {
        let Sampler {
            mag_filter: _,
            min_filter: _,
            wrap_s: _,
            wrap_t: _,
            name: _,
            extensions: _,
            extras: _,
        } = self;
    }
}
// Written by tools/derive.py: end

impl Listed for Sampler {
    ghost list = { samplers };
}

/// The number at `source` that means no image.
pub const NO_IMAGE: u32 = u32::MAX;

/// An image and its sampler (glTF 2.0, section 5.29).
// What takes longest to drop comes last (docs/DECISIONS.md, "Order of fields").
#[derive(Clone, Debug)]
pub struct Texture {
    /// The image, or [`NO_IMAGE`] (4294967295) if the document names none, for example because an
    /// extension gives it.
    pub source: Index<Image>,
    /// The sampler; if absent, the texture repeats, with any filters.
    pub sampler: Option<Index<Sampler>>,
    pub name: Option<String>,
    pub extensions: Option<extensions::texture::Texture>,
    pub extras: Extras,
}

// Written by tools/derive.py: begin
impl Drop for Texture {
    #[inline(always)]
    fn drop(self) {
        let Texture {
            source: _,
            sampler: _,
            name: _,
            extensions: _,
            extras: _,
        } = self;
    }
}
// Written by tools/derive.py: end

impl Texture {
    /// Returns a texture without a sampler; `Index::new(NO_IMAGE)` stands for no image.
    #[tactic(auto, unfolding(crate::specs::Texture::texture_rows, crate::specs::Texture::texture_members))]
    pub fn new(source: Index<Image>) -> Texture
        ensures { texture_members result ≡ with_defaults texture_rows (
            (codes "source", index_tree source)
            ∷ []) }
    {
        Texture {
            source,
            sampler: None,
            name: None,
            extensions: None,
            extras: None,
        }
    }
}

impl Listed for Texture {
    ghost list = { textures };
}

/// A reference to a texture.
#[derive(Clone, Debug)]
pub struct Info {
    /// The texture.
    pub index: Index<Texture>,
    /// The set of texture coordinates: the number in `TEXCOORD_n`.
    pub tex_coord: u32,
    pub extensions: Option<extensions::texture::Info>,
    pub extras: Extras,
}

// Written by tools/derive.py: begin
impl Drop for Info {
    #[inline(always)]
    fn drop(self) {
        let Info {
            index: _,
            tex_coord: _,
            extensions: _,
            extras: _,
        } = self;
    }
}
// Written by tools/derive.py: end

impl Info {
    /// Returns a reference to a texture, with the first set of texture coordinates.
    #[tactic(auto, unfolding(crate::specs::Texture::info_rows, crate::specs::Texture::info_members))]
    pub fn new(index: Index<Texture>) -> Info
        ensures { info_members result ≡ with_defaults info_rows (
            (codes "index", index_tree index)
            ∷ []) }
    {
        Info {
            index,
            tex_coord: 0,
            extensions: None,
            extras: None,
        }
    }
}
