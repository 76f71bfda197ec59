//! Materials (glTF 2.0, sections 5.19 to 5.22).

ghost use Rattle.std.specs.Prelude.{◌≡◌, ◌++◌, length, Option, OnOk};
ghost use Rattle.gltf_findings_codes.specs.Found.{found, findings_if};
ghost use Rattle.gltf_findings_codes.specs.Ranges.{numbers_findings};
ghost use Rattle.gltf_findings_rules.specs.Materials.{material_findings, material_rules, metallic_rules, metallic_findings, is_masked, is_normal_unresolved, is_occlusion_unresolved, is_strength_out, is_cutoff_out, has_strength, is_black, are_zeros};
ghost use Rattle.gltf_findings_rules.specs.Shading.{shading_findings};

use crate::cameras::is_zero;
use crate::shading::{add_shading, texture_rule};
use gltf_base::Real;
use gltf_base::material::AlphaMode;
use gltf_base::validation::Checked;
use gltf_findings_codes::{
    Code, Finding, Name, Numbers, Object, Range, Rules, Subject, add_found, broken, is_invalid,
    is_unresolved,
};
use gltf_parts::extensions::material::Material as Extensions;
use gltf_parts::material::{
    AlphaCutoff, Material, NormalTexture, OcclusionTexture, PbrMetallicRoughness,
};
use std::alloc::AllocError;

/// The rules for materials, which name some of so many textures.
#[derive(Clone, Copy)]
pub struct MaterialRules(pub usize);

impl Rules<Material> for MaterialRules {
    ghost findings = { λ s n material. material_findings s.0 n material };

    #[tactic(auto, using(std::proofs::lemmas::List::append_assoc))]
    fn add(&self, number: usize, item: &Material, to: &mut Vec<Finding>) -> Result<(), AllocError> {
        add_found(to, &material_rules(self.0, number, item))?;
        emissive(number).add_to(to, &item.emissive_factor.0)?;
        add_metallic(to, self.0, number, &item.pbr_metallic_roughness)?;
        add_shading(to, self.0, number, item)
    }
}

/// The range of an emissive factor.
fn emissive(number: usize) -> Numbers
    ensures object { result.object ≡ Object.Item Name.Materials number }
    ensures name { result.name ≡ Name.EmissiveFactor }
    ensures range { result.range ≡ Range.Factor }
{
    Numbers {
        object: Object::Item(Name::Materials, number),
        name: Name::EmissiveFactor,
        range: Range::Factor,
    }
}

/// The rules for a material by itself.
fn material_rules(textures: usize, number: usize, material: &Material) -> [Option<Finding>; 8]
    ensures { result ≡ material_rules textures number material.now }
{
    // derived
    let at = Object::Item(Name::Materials, number);
    let alpha_cutoff_at = Subject::Member(at, Name::AlphaCutoff);
    let normal_texture = Object::Part(Name::Materials, number, Name::NormalTexture);
    let occlusion_texture = Object::Part(Name::Materials, number, Name::OcclusionTexture);
    let emissive_texture = Object::Part(Name::Materials, number, Name::EmissiveTexture);
    [
        broken(
            is_invalid(&material.alpha_mode),
            Code::ValueNotInList,
            Subject::Member(at, Name::AlphaMode),
        ),
        broken(
            is_cutoff_out(&material.alpha_cutoff),
            Code::ValueNotInRange,
            alpha_cutoff_at,
        ),
        broken(
            material.alpha_cutoff.is_some() && !is_masked(material.alpha_mode),
            Code::MaterialAlphaCutoffInvalidMode,
            alpha_cutoff_at,
        ),
        broken(
            is_normal_unresolved(&material.normal_texture, textures),
            Code::UnresolvedReference,
            Subject::Member(normal_texture, Name::Index),
        ),
        broken(
            is_occlusion_unresolved(&material.occlusion_texture, textures),
            Code::UnresolvedReference,
            Subject::Member(occlusion_texture, Name::Index),
        ),
        broken(
            is_strength_out(&material.occlusion_texture),
            Code::ValueNotInRange,
            Subject::Member(occlusion_texture, Name::Strength),
        ),
        texture_rule(emissive_texture, &material.emissive_texture, textures),
        broken(
            has_strength(&material.extensions) && is_black(&material.emissive_factor.0),
            Code::KhrMaterialsEmissiveStrengthZeroFactor,
            Subject::Object(Object::Inner(
                Name::Materials,
                number,
                Name::Extensions,
                Name::KhrMaterialsEmissiveStrength,
            )),
        ),
    ]
}

/// Whether a material has an emissive strength.
fn has_strength(extensions: &Option<Extensions>) -> bool
    ensures { result ≡ has_strength extensions.now }
{
    // derived
    match extensions {
        Some(extensions) => extensions.emissive_strength.is_some(),
        None => false,
    }
}

/// Whether an emissive factor is black. If absent, it is.
fn is_black(factor: &Option<[Real; 3]>) -> bool
    ensures { result ≡ is_black factor.now }
{
    // derived
    match factor {
        Some(factor) => are_zeros(factor),
        None => true,
    }
}

/// Whether numbers are all 0.
fn are_zeros(numbers: &[Real]) -> bool
    ensures { result ≡ are_zeros numbers.now }
{
    for number in numbers {
        if !is_zero(number) {
            return false;
        }
    }
    true
}

/// Whether the alpha cutoff has an effect.
fn is_masked(mode: Checked<AlphaMode>) -> bool
    ensures { result ≡ is_masked mode }
{
    // derived
    match mode {
        Checked::Valid(AlphaMode::Mask) => true,
        _ => false,
    }
}

/// Whether an alpha cutoff is out of its range.
fn is_cutoff_out(cutoff: &Option<AlphaCutoff>) -> bool
    ensures { result ≡ is_cutoff_out cutoff.now }
{
    // derived
    match cutoff {
        Some(cutoff) => Range::NotNegative.excludes(&cutoff.0),
        None => false,
    }
}

/// Whether a reference to a normal texture names none of so many.
fn is_normal_unresolved(info: &Option<NormalTexture>, textures: usize) -> bool
    ensures { result ≡ is_normal_unresolved textures info.now }
{
    // derived
    match info {
        Some(info) => is_unresolved(info.index, textures),
        None => false,
    }
}

/// The same for an occlusion texture.
fn is_occlusion_unresolved(info: &Option<OcclusionTexture>, textures: usize) -> bool
    ensures { result ≡ is_occlusion_unresolved textures info.now }
{
    // derived
    match info {
        Some(info) => is_unresolved(info.index, textures),
        None => false,
    }
}

/// Whether the strength of an occlusion texture is out of its range.
fn is_strength_out(info: &Option<OcclusionTexture>) -> bool
    ensures { result ≡ is_strength_out info.now }
{
    // derived
    match info {
        Some(info) => Range::Factor.excludes_some(&info.strength.0),
        None => false,
    }
}

/// Adds the findings of the metallic-roughness model.
#[tactic(auto, using(std::proofs::lemmas::List::append_assoc))]
fn add_metallic(
    to: &mut Vec<Finding>,
    textures: usize,
    number: usize,
    model: &PbrMetallicRoughness,
) -> Result<(), AllocError>
    ensures { OnOk result (to.new.items
        ≡ to.old.items ++ metallic_findings textures number model.now) }
{
    let base_color = Numbers {
        object: Object::Part(Name::Materials, number, Name::PbrMetallicRoughness),
        name: Name::BaseColorFactor,
        range: Range::Factor,
    };
    base_color.add_to(to, &model.base_color_factor.0)?;
    add_found(to, &metallic_rules(textures, number, model))
}

/// The rules for the metallic-roughness model.
fn metallic_rules(
    textures: usize,
    number: usize,
    model: &PbrMetallicRoughness,
) -> [Option<Finding>; 4]
    ensures { result ≡ metallic_rules textures number model.now }
{
    // derived
    let at = Object::Part(Name::Materials, number, Name::PbrMetallicRoughness);
    let base_color_texture = Object::Inner(
        Name::Materials,
        number,
        Name::PbrMetallicRoughness,
        Name::BaseColorTexture,
    );
    let metallic_roughness_texture = Object::Inner(
        Name::Materials,
        number,
        Name::PbrMetallicRoughness,
        Name::MetallicRoughnessTexture,
    );
    [
        Range::Factor.rule(at, Name::MetallicFactor, &model.metallic_factor.0),
        Range::Factor.rule(at, Name::RoughnessFactor, &model.roughness_factor.0),
        texture_rule(base_color_texture, &model.base_color_texture, textures),
        texture_rule(
            metallic_roughness_texture,
            &model.metallic_roughness_texture,
            textures,
        ),
    ]
}
