//! Written by tools/derive.py from crates/gltf_parts/src/material.rt and
//! crates/gltf_parts/specs/Material.antt. Do not edit.

ghost use Rattle.gltf_parts.specs.Material.{material_members, material_rows, normal_texture_members, normal_texture_rows, occlusion_texture_members, occlusion_texture_rows, pbr_metallic_roughness_members, pbr_metallic_roughness_rows};
ghost use Rattle.gltf_parts.specs.MaterialDerived.{material_height, material_sound, normal_texture_height, normal_texture_sound, occlusion_texture_height, occlusion_texture_sound, pbr_metallic_roughness_height, pbr_metallic_roughness_sound};
ghost use Rattle.gltf_schema.specs.Defaults.{defaults};
ghost use Rattle.gltf_schema.specs.Fields.{reals_tree};
ghost use Rattle.gltf_schema.specs.Floats.{float_or, floats_or};
ghost use Rattle.gltf_schema.specs.Kind.{Numbers};
ghost use Rattle.gltf_schema.specs.Tree.{tree_or_absent};
ghost use Rattle.serde_json.specs.Data.{no_members};
ghost use Rattle.std.proofs.Common.{lit≤};
ghost use Rattle.std.specs.Prelude.{false, ◌≡◌};

use super::strength::StrengthFactor;
use super::{
    EmissiveFactor, Material, NormalTexture, OcclusionTexture, PbrBaseColorFactor,
    PbrMetallicRoughness,
};
use gltf_base::Index;
use gltf_base::material::AlphaMode;
use gltf_base::validation::Checked;
use gltf_schema::{Object, ReadRows, StrictObject, StrictRows, Tabled, WriteRows};
use std::alloc::Global;

impl PbrMetallicRoughness {
    /// Returns parameters with every member at its default.
    #[tactic(auto, unfolding(crate::specs::Material::pbr_metallic_roughness_rows, crate::specs::Material::pbr_metallic_roughness_members))]
    pub fn new() -> PbrMetallicRoughness
        ensures { pbr_metallic_roughness_members result ≡ defaults pbr_metallic_roughness_rows }
    {
        PbrMetallicRoughness {
            base_color_factor: PbrBaseColorFactor(None),
            base_color_texture: None,
            metallic_factor: StrengthFactor(None),
            roughness_factor: StrengthFactor(None),
            metallic_roughness_texture: None,
            extensions: None,
            extras: None,
        }
    }
}

impl Object for PbrMetallicRoughness {
    ghost rows = { pbr_metallic_roughness_rows };

    ghost keeps = { false };

    ghost members = { pbr_metallic_roughness_members };

    ghost unknown = { λ _. no_members };

    ghost kind_is_sound = { pbr_metallic_roughness_sound };

    ghost height = { 2 };

    ghost height_bounds_kind = { (pbr_metallic_roughness_height.1, lit≤ tt) };

    #[tactic(auto, unfolding(crate::specs::Material::pbr_metallic_roughness_rows, crate::specs::Material::pbr_metallic_roughness_members))]
    fn start(_alloc: Global) -> PbrMetallicRoughness {
        PbrMetallicRoughness::new()
    }

    #[tactic(auto, unfolding(crate::specs::Material::pbr_metallic_roughness_rows))]
    fn count_required() -> usize {
        0
    }

    fn read_rows<R: ReadRows>(&mut self, from: &mut R) {
        from.sometimes("baseColorFactor", &mut self.base_color_factor.0);
        from.optional("baseColorTexture", &mut self.base_color_texture);
        from.sometimes("metallicFactor", &mut self.metallic_factor.0);
        from.sometimes("roughnessFactor", &mut self.roughness_factor.0);
        from.optional(
            "metallicRoughnessTexture",
            &mut self.metallic_roughness_texture,
        );
        from.optional("extensions", &mut self.extensions);
        from.optional("extras", &mut self.extras);
    }

    fn write_members<W: WriteRows>(&self, to: &mut W) {
        to.optional("baseColorFactor", &self.base_color_factor.0);
        to.optional("baseColorTexture", &self.base_color_texture);
        to.optional("extensions", &self.extensions);
        to.optional("extras", &self.extras);
        to.optional("metallicFactor", &self.metallic_factor.0);
        to.optional("metallicRoughnessTexture", &self.metallic_roughness_texture);
        to.optional("roughnessFactor", &self.roughness_factor.0);
    }
}

impl StrictObject for PbrMetallicRoughness {
    fn write_strictly<W: StrictRows>(&self, to: &mut W) {
        to.optional("baseColorFactor", &self.base_color_factor.0);
        to.optional_strictly("baseColorTexture", &self.base_color_texture);
        to.optional("extensions", &self.extensions);
        to.optional("extras", &self.extras);
        to.optional("metallicFactor", &self.metallic_factor.0);
        to.optional_strictly("metallicRoughnessTexture", &self.metallic_roughness_texture);
        to.optional("roughnessFactor", &self.roughness_factor.0);
    }
}

impl Object for NormalTexture {
    ghost rows = { normal_texture_rows };

    ghost keeps = { false };

    ghost members = { normal_texture_members };

    ghost unknown = { λ _. no_members };

    ghost kind_is_sound = { normal_texture_sound };

    ghost height = { 1 };

    ghost height_bounds_kind = { (normal_texture_height.1, lit≤ tt) };

    #[tactic(auto, unfolding(crate::specs::Material::normal_texture_rows, crate::specs::Material::normal_texture_members))]
    fn start(_alloc: Global) -> NormalTexture {
        NormalTexture {
            index: Index::new(0),
            scale: None,
            tex_coord: 0,
            extensions: None,
            extras: None,
        }
    }

    #[tactic(auto, unfolding(crate::specs::Material::normal_texture_rows))]
    fn count_required() -> usize {
        1
    }

    fn read_rows<R: ReadRows>(&mut self, from: &mut R) {
        from.required("index", &mut self.index);
        from.sometimes("scale", &mut self.scale);
        from.or_default("texCoord", &mut self.tex_coord);
        from.optional("extensions", &mut self.extensions);
        from.optional("extras", &mut self.extras);
    }

    fn write_members<W: WriteRows>(&self, to: &mut W) {
        to.optional("extensions", &self.extensions);
        to.optional("extras", &self.extras);
        to.always("index", &self.index);
        to.optional("scale", &self.scale);
        to.always("texCoord", &self.tex_coord);
    }
}

impl NormalTexture {
    /// The number as a float, or [`NormalTexture::DEFAULT_SCALE`] if it is absent.
    pub fn scale_value(&self) -> f64
        ensures { result ≡ float_or Self.DEFAULT_SCALE self.now.scale }
    {
        match &self.scale {
            Some(number) => number.as_f64(),
            None => NormalTexture::DEFAULT_SCALE,
        }
    }
}

impl Object for OcclusionTexture {
    ghost rows = { occlusion_texture_rows };

    ghost keeps = { false };

    ghost members = { occlusion_texture_members };

    ghost unknown = { λ _. no_members };

    ghost kind_is_sound = { occlusion_texture_sound };

    ghost height = { 1 };

    ghost height_bounds_kind = { (occlusion_texture_height.1, lit≤ tt) };

    #[tactic(auto, unfolding(crate::specs::Material::occlusion_texture_rows, crate::specs::Material::occlusion_texture_members))]
    fn start(_alloc: Global) -> OcclusionTexture {
        OcclusionTexture {
            index: Index::new(0),
            strength: StrengthFactor(None),
            tex_coord: 0,
            extensions: None,
            extras: None,
        }
    }

    #[tactic(auto, unfolding(crate::specs::Material::occlusion_texture_rows))]
    fn count_required() -> usize {
        1
    }

    fn read_rows<R: ReadRows>(&mut self, from: &mut R) {
        from.required("index", &mut self.index);
        from.sometimes("strength", &mut self.strength.0);
        from.or_default("texCoord", &mut self.tex_coord);
        from.optional("extensions", &mut self.extensions);
        from.optional("extras", &mut self.extras);
    }

    fn write_members<W: WriteRows>(&self, to: &mut W) {
        to.optional("extensions", &self.extensions);
        to.optional("extras", &self.extras);
        to.always("index", &self.index);
        to.optional("strength", &self.strength.0);
        to.always("texCoord", &self.tex_coord);
    }
}

impl Material {
    /// Returns a material with every member at its default.
    #[tactic(auto, unfolding(crate::specs::Material::material_rows, crate::specs::Material::material_members))]
    pub fn new() -> Material
        ensures { material_members result ≡ defaults material_rows }
    {
        Material {
            alpha_cutoff: None,
            alpha_mode: Checked::Valid(AlphaMode::Opaque),
            double_sided: false,
            name: None,
            pbr_metallic_roughness: PbrMetallicRoughness::new(),
            normal_texture: None,
            occlusion_texture: None,
            emissive_texture: None,
            emissive_factor: EmissiveFactor(None),
            extensions: None,
            extras: None,
        }
    }
}

impl Object for Material {
    ghost rows = { material_rows };

    ghost keeps = { false };

    ghost members = { material_members };

    ghost unknown = { λ _. no_members };

    ghost kind_is_sound = { material_sound };

    ghost height = { 4 };

    ghost height_bounds_kind = { (material_height.1, lit≤ tt) };

    #[tactic(auto, unfolding(crate::specs::Material::material_rows, crate::specs::Material::material_members))]
    fn start(_alloc: Global) -> Material {
        Material::new()
    }

    #[tactic(auto, unfolding(crate::specs::Material::material_rows))]
    fn count_required() -> usize {
        0
    }

    fn read_rows<R: ReadRows>(&mut self, from: &mut R) {
        from.optional("alphaCutoff", &mut self.alpha_cutoff);
        from.or_default("alphaMode", &mut self.alpha_mode);
        from.or_default("doubleSided", &mut self.double_sided);
        from.optional("name", &mut self.name);
        from.or_default("pbrMetallicRoughness", &mut self.pbr_metallic_roughness);
        from.optional("normalTexture", &mut self.normal_texture);
        from.optional("occlusionTexture", &mut self.occlusion_texture);
        from.optional("emissiveTexture", &mut self.emissive_texture);
        from.sometimes("emissiveFactor", &mut self.emissive_factor.0);
        from.optional("extensions", &mut self.extensions);
        from.optional("extras", &mut self.extras);
    }

    fn write_members<W: WriteRows>(&self, to: &mut W) {
        to.optional("alphaCutoff", &self.alpha_cutoff);
        to.always("alphaMode", &self.alpha_mode);
        to.always("doubleSided", &self.double_sided);
        to.optional("emissiveFactor", &self.emissive_factor.0);
        to.optional("emissiveTexture", &self.emissive_texture);
        to.optional("extensions", &self.extensions);
        to.optional("extras", &self.extras);
        to.optional("name", &self.name);
        to.optional("normalTexture", &self.normal_texture);
        to.optional("occlusionTexture", &self.occlusion_texture);
        to.always("pbrMetallicRoughness", &self.pbr_metallic_roughness);
    }
}

impl StrictObject for Material {
    fn write_strictly<W: StrictRows>(&self, to: &mut W) {
        to.optional("alphaCutoff", &self.alpha_cutoff);
        to.always("alphaMode", &self.alpha_mode);
        to.always("doubleSided", &self.double_sided);
        to.optional("emissiveFactor", &self.emissive_factor.0);
        to.optional_strictly("emissiveTexture", &self.emissive_texture);
        to.optional_strictly("extensions", &self.extensions);
        to.optional("extras", &self.extras);
        to.optional("name", &self.name);
        to.optional("normalTexture", &self.normal_texture);
        to.optional("occlusionTexture", &self.occlusion_texture);
        to.always_strictly("pbrMetallicRoughness", &self.pbr_metallic_roughness);
    }
}

impl PbrBaseColorFactor {
    /// The numbers as floats, or [`PbrBaseColorFactor::DEFAULT`] if they are absent.
    pub fn values(&self) -> [f64; 4]
        ensures { result ≡ floats_or Self.DEFAULT self.now.0 }
    {
        match &self.0 {
            Some([r, g, b, a]) => [r.as_f64(), g.as_f64(), b.as_f64(), a.as_f64()],
            None => PbrBaseColorFactor::DEFAULT,
        }
    }
}

impl Tabled for PbrBaseColorFactor {
    ghost kind = { Numbers 4 };

    ghost tree = { λ factor. tree_or_absent reals_tree factor.0 };
}

impl EmissiveFactor {
    /// The numbers as floats, or [`EmissiveFactor::DEFAULT`] if they are absent.
    pub fn values(&self) -> [f64; 3]
        ensures { result ≡ floats_or Self.DEFAULT self.now.0 }
    {
        match &self.0 {
            Some([r, g, b]) => [r.as_f64(), g.as_f64(), b.as_f64()],
            None => EmissiveFactor::DEFAULT,
        }
    }
}

impl Tabled for EmissiveFactor {
    ghost kind = { Numbers 3 };

    ghost tree = { λ factor. tree_or_absent reals_tree factor.0 };
}
