//! What materials and textures name.

ghost use Rattle.std.specs.Prelude.{◌≡◌, List, Bool};
ghost use Rattle.gltf_base.specs.Indexes.{index_number};
ghost use Rattle.gltf_findings_codes.specs.Marks.{mark, mark_some};
ghost use Rattle.gltf_findings_rules.specs.Surfaces.{info_marks, normal_marks, occlusion_marks, model_marks, material_marks, extension_marks, glossiness_marks, transmission_marks, volume_marks, specular_marks};

use crate::marking::Marking;
use gltf_findings_codes::{mark, mark_some};
use gltf_parts::extensions::material::{
    Material as Extensions, PbrSpecularGlossiness, Specular, Transmission, Volume,
};
use gltf_parts::material::{Material, NormalTexture, OcclusionTexture, PbrMetallicRoughness};
use gltf_parts::texture::{Info, Texture};

/// Images, by textures.
#[derive(Clone, Copy)]
pub struct OfImages;

impl Marking<Texture> for OfImages {
    ghost marked = { λ s x marks. mark marks (index_number x.source) };

    fn mark(&self, item: &Texture, marks: &mut Vec<bool>) {
        mark(marks, item.source.number());
    }
}

/// Samplers, by textures.
#[derive(Clone, Copy)]
pub struct OfSamplers;

impl Marking<Texture> for OfSamplers {
    ghost marked = { λ s x marks. mark_some marks x.sampler };

    fn mark(&self, item: &Texture, marks: &mut Vec<bool>) {
        mark_some(marks, item.sampler);
    }
}

/// Textures, by materials.
#[derive(Clone, Copy)]
pub struct OfTextures;

impl Marking<Material> for OfTextures {
    ghost marked = { λ s x marks. material_marks x marks };

    fn mark(&self, item: &Material, marks: &mut Vec<bool>) {
        mark_model(marks, &item.pbr_metallic_roughness);
        mark_normal(marks, &item.normal_texture);
        mark_occlusion(marks, &item.occlusion_texture);
        mark_info(marks, &item.emissive_texture);
        mark_extensions(marks, &item.extensions);
    }
}

/// Marks the texture of a reference.
fn mark_info(marks: &mut Vec<bool>, info: &Option<Info>)
    ensures { marks.new.items ≡ info_marks info.now marks.old.items }
{
    if let Some(info) = info {
        mark(marks, info.index.number());
    }
}

/// Marks the texture of normals.
fn mark_normal(marks: &mut Vec<bool>, info: &Option<NormalTexture>)
    ensures { marks.new.items ≡ normal_marks info.now marks.old.items }
{
    if let Some(info) = info {
        mark(marks, info.index.number());
    }
}

/// Marks the texture of the occlusion.
fn mark_occlusion(marks: &mut Vec<bool>, info: &Option<OcclusionTexture>)
    ensures { marks.new.items ≡ occlusion_marks info.now marks.old.items }
{
    if let Some(info) = info {
        mark(marks, info.index.number());
    }
}

/// Marks the textures of the metallic-roughness model.
fn mark_model(marks: &mut Vec<bool>, model: &PbrMetallicRoughness)
    ensures { marks.new.items ≡ model_marks model.now marks.old.items }
{
    mark_info(marks, &model.base_color_texture);
    mark_info(marks, &model.metallic_roughness_texture);
}

/// Marks the textures of extensions.
fn mark_extensions(marks: &mut Vec<bool>, extensions: &Option<Extensions>)
    ensures { marks.new.items ≡ extension_marks extensions.now marks.old.items }
{
    if let Some(extensions) = extensions {
        mark_glossiness(marks, &extensions.pbr_specular_glossiness);
        mark_transmission(marks, &extensions.transmission);
        mark_volume(marks, &extensions.volume);
        mark_specular(marks, &extensions.specular);
    }
}

/// Marks the textures of the specular-glossiness model.
fn mark_glossiness(marks: &mut Vec<bool>, model: &Option<PbrSpecularGlossiness>)
    ensures { marks.new.items ≡ glossiness_marks model.now marks.old.items }
{
    if let Some(model) = model {
        mark_info(marks, &model.diffuse_texture);
        mark_info(marks, &model.specular_glossiness_texture);
    }
}

/// Marks the texture of the transmission.
fn mark_transmission(marks: &mut Vec<bool>, transmission: &Option<Transmission>)
    ensures { marks.new.items ≡ transmission_marks transmission.now marks.old.items }
{
    if let Some(transmission) = transmission {
        mark_info(marks, &transmission.transmission_texture);
    }
}

/// Marks the texture of the thickness.
fn mark_volume(marks: &mut Vec<bool>, volume: &Option<Volume>)
    ensures { marks.new.items ≡ volume_marks volume.now marks.old.items }
{
    if let Some(volume) = volume {
        mark_info(marks, &volume.thickness_texture);
    }
}

/// Marks the textures of the specular reflection.
fn mark_specular(marks: &mut Vec<bool>, specular: &Option<Specular>)
    ensures { marks.new.items ≡ specular_marks specular.now marks.old.items }
{
    if let Some(specular) = specular {
        mark_info(marks, &specular.specular_texture);
        mark_info(marks, &specular.specular_color_texture);
    }
}
