//! Materials, and their references to textures (glTF 2.0, sections 5.19 to 5.22).

ghost use Rattle.std.specs.Prelude.{◌≡◌, [], ◌∷◌, refl, codes, option_map};
ghost use Rattle.gltf_base.specs.Lists.{materials};
ghost use Rattle.gltf_schema.specs.Kind.{Number};
ghost use Rattle.gltf_schema.specs.WithDefaults.{with_defaults};
ghost use Rattle.gltf_parts.specs.Material.{normal_texture_rows, occlusion_texture_rows, alpha_cutoff_tree, normal_texture_members, occlusion_texture_members};
ghost use Rattle.gltf_schema.specs.Floats.{real_float, float_or};
ghost use Rattle.gltf_schema.specs.Fields.{index_tree};

use crate::extensions;
use crate::extras::Extras;
use crate::texture::{Info, Texture};
pub use gltf_base::material::{AlphaMode, VALID_ALPHA_MODES};
use gltf_base::validation::Checked;
use gltf_base::{Index, Listed, Real};
use gltf_schema::{Error, Refusal, Schema, Shape, Source, Stream, Strip, Tabled, Unread};
use serde_json::Value;
use std::alloc::{AllocError, Global};

mod derived;

/// The appearance of a surface (glTF 2.0, section 5.19).
#[derive(Clone, Debug)]
pub struct Material {
    /// The alpha cutoff of the mode `Mask`; if absent, one half.
    pub alpha_cutoff: Option<AlphaCutoff>,
    /// The alpha rendering mode.
    pub alpha_mode: Checked<AlphaMode>,
    /// Whether back faces are rendered too.
    pub double_sided: bool,
    pub name: Option<String>,
    /// The parameters of the metallic-roughness model.
    pub pbr_metallic_roughness: PbrMetallicRoughness,
    /// The tangent-space normal texture.
    pub normal_texture: Option<NormalTexture>,
    /// The occlusion texture.
    pub occlusion_texture: Option<OcclusionTexture>,
    /// The emissive texture.
    pub emissive_texture: Option<Info>,
    /// The emissive factor.
    pub emissive_factor: EmissiveFactor,
    pub extensions: Option<extensions::material::Material>,
    pub extras: Extras,
}

// Written by tools/derive.py: begin
impl Drop for Material {
    #[inline(always)]
    fn drop(self) {
        let Material {
            alpha_cutoff: _,
            alpha_mode: _,
            double_sided: _,
            name: _,
            pbr_metallic_roughness: _,
            normal_texture: _,
            occlusion_texture: _,
            emissive_texture: _,
            emissive_factor: _,
            extensions: _,
            extras: _,
        } = self;
    }
}
// Written by tools/derive.py: end

impl Material {
    /// Returns the alpha cutoff as a float, or [`AlphaCutoff::DEFAULT`] if it is absent.
    pub fn alpha_cutoff_value(&self) -> f64
        ensures { result
            ≡ float_or AlphaCutoff.DEFAULT (option_map (λ c. c.0) self.now.alpha_cutoff) }
    {
        match &self.alpha_cutoff {
            Some(cutoff) => cutoff.value(),
            None => AlphaCutoff::DEFAULT,
        }
    }
}

impl Listed for Material {
    ghost list = { materials };
}

/// The parameters of the metallic-roughness model.
#[derive(Clone, Debug)]
pub struct PbrMetallicRoughness {
    /// The base color factor.
    pub base_color_factor: PbrBaseColorFactor,
    /// The base color texture.
    pub base_color_texture: Option<Info>,
    /// The factor of the metalness.
    pub metallic_factor: StrengthFactor,
    /// The factor of the roughness.
    pub roughness_factor: StrengthFactor,
    /// The texture with the roughness in its green channel and the metalness in its blue one.
    pub metallic_roughness_texture: Option<Info>,
    pub extensions: Option<extensions::material::PbrMetallicRoughness>,
    pub extras: Extras,
}

// Written by tools/derive.py: begin
impl Drop for PbrMetallicRoughness {
    #[inline(always)]
    fn drop(self) {
        let PbrMetallicRoughness {
            base_color_factor: _,
            base_color_texture: _,
            metallic_factor: _,
            roughness_factor: _,
            metallic_roughness_texture: _,
            extensions: _,
            extras: _,
        } = self;
    }
}
// Written by tools/derive.py: end

/// A reference to a normal texture.
#[derive(Clone, Debug)]
pub struct NormalTexture {
    /// The texture.
    pub index: Index<Texture>,
    /// The factor of the X and Y components of normals; `None` means 1.
    pub scale: Option<Real>,
    /// The set of texture coordinates: the number in `TEXCOORD_n`.
    pub tex_coord: u32,
    pub extensions: Option<extensions::material::NormalTexture>,
    pub extras: Extras,
}

// Written by tools/derive.py: begin
impl Drop for NormalTexture {
    #[inline(always)]
    fn drop(self) {
        let NormalTexture {
            index: _,
            scale: _,
            tex_coord: _,
            extensions: _,
            extras: _,
        } = self;
    }
}
// Written by tools/derive.py: end

impl NormalTexture {
    /// Returns a reference to a texture, with the first set of texture coordinates.
    #[tactic(auto, unfolding(crate::specs::Material::normal_texture_rows, crate::specs::Material::normal_texture_members))]
    pub fn new(index: Index<Texture>) -> NormalTexture
        ensures { normal_texture_members result ≡ with_defaults normal_texture_rows (
            (codes "index", index_tree index)
            ∷ []) }
    {
        NormalTexture {
            index,
            tex_coord: 0,
            scale: None,
            extensions: None,
            extras: None,
        }
    }

    /// The number that an absent `scale` means.
    pub const DEFAULT_SCALE: f64 = 1.0;
}

/// A reference to an occlusion texture.
#[derive(Clone, Debug)]
pub struct OcclusionTexture {
    /// The texture.
    pub index: Index<Texture>,
    /// The strength of the occlusion.
    pub strength: StrengthFactor,
    /// The set of texture coordinates: the number in `TEXCOORD_n`.
    pub tex_coord: u32,
    pub extensions: Option<extensions::material::OcclusionTexture>,
    pub extras: Extras,
}

// Written by tools/derive.py: begin
impl Drop for OcclusionTexture {
    #[inline(always)]
    fn drop(self) {
        let OcclusionTexture {
            index: _,
            strength: _,
            tex_coord: _,
            extensions: _,
            extras: _,
        } = self;
    }
}
// Written by tools/derive.py: end

impl OcclusionTexture {
    /// Returns a reference to a texture, with the first set of texture coordinates.
    #[tactic(auto, unfolding(crate::specs::Material::occlusion_texture_rows, crate::specs::Material::occlusion_texture_members))]
    pub fn new(index: Index<Texture>) -> OcclusionTexture
        ensures { occlusion_texture_members result ≡ with_defaults occlusion_texture_rows (
            (codes "index", index_tree index)
            ∷ []) }
    {
        OcclusionTexture {
            index,
            strength: StrengthFactor(None),
            tex_coord: 0,
            extensions: None,
            extras: None,
        }
    }
}

/// An alpha cutoff: what has less alpha isn't rendered.
#[derive(Clone, Debug, Drop)]
pub struct AlphaCutoff(pub Real);

impl AlphaCutoff {
    /// The number that an absent `alpha_cutoff` means.
    pub const DEFAULT: f64 = 0.5;

    /// The number as a float.
    pub fn value(&self) -> f64
        ensures { result ≡ real_float self.now.0 }
    {
        self.0.as_f64()
    }
}

impl Tabled for AlphaCutoff {
    ghost kind = { Number };

    ghost tree = { alpha_cutoff_tree };
}

impl Schema for AlphaCutoff {
    ghost is_never_absent = { λ _. refl };

    fn decode_from<S: Source>(alloc: Global, source: S) -> Result<AlphaCutoff, Error> {
        Ok(AlphaCutoff(Real::decode_from(alloc, source)?))
    }

    fn from_token<'a>(from: &mut Stream<'a>) -> Result<AlphaCutoff, Unread> {
        Ok(AlphaCutoff(Real::from_token(from)?))
    }

    fn decode_or_place<S: Source>(alloc: Global, source: S) -> Result<AlphaCutoff, Refusal> {
        Ok(AlphaCutoff(Real::decode_or_place(alloc, source)?))
    }

    fn encode(&self, alloc: Global) -> Result<Value, Error> {
        self.0.encode(alloc)
    }

    fn strip(&mut self, _what: Strip) {}

    fn outline(alloc: Global, nodes: &mut Vec<Shape>) -> Result<usize, AllocError> {
        Real::outline(alloc, nodes)
    }
}

/// An emissive factor: red, green, blue; `None` means zeros.
#[derive(Clone, Debug, Default, Drop)]
pub struct EmissiveFactor(pub Option<[Real; 3]>);

impl EmissiveFactor {
    /// The numbers that an absent factor means.
    pub const DEFAULT: [f64; 3] = [0.0; 3];
}

/// A base color factor: red, green, blue, alpha; `None` means ones.
#[derive(Clone, Debug, Default, Drop)]
pub struct PbrBaseColorFactor(pub Option<[Real; 4]>);

impl PbrBaseColorFactor {
    /// The numbers that an absent factor means.
    pub const DEFAULT: [f64; 4] = [1.0; 4];
}

mod strength;
mod textures;

pub use strength::StrengthFactor;
