//! Extensions of materials.

ghost use Rattle.std.specs.Prelude.{◌≡◌, ◌++◌, OnOk};
ghost use Rattle.gltf_findings_codes.specs.Found.{found, findings_if};
ghost use Rattle.gltf_findings_codes.specs.Ranges.{numbers_findings};
ghost use Rattle.gltf_findings_rules.specs.Shading.{shading_findings, extension_findings, transmission_rules, ior_rules, emissive_strength_rules, volume_rules, volume_findings, specular_rules, specular_findings, glossiness_rules, glossiness_findings, is_info_unresolved, texture_rule};

use gltf_findings_codes::{
    Code, Finding, Name, Numbers, Object, Range, Rules, Subject, add_found, add_some, broken,
    is_unresolved,
};
use gltf_parts::extensions::material::{
    EmissiveStrength, Ior, Material as Extensions, PbrSpecularGlossiness, Specular, Transmission,
    Volume,
};
use gltf_parts::material::Material;
use gltf_parts::texture::Info;
use std::alloc::AllocError;

/// The rules for the extensions of materials, which name some of so many textures.
#[derive(Clone, Copy)]
pub struct ShadingRules {
    /// How many textures there are.
    pub textures: usize,
    /// Whether the material is double-sided.
    pub is_double_sided: bool,
    /// Whether the material transmits light.
    pub transmits: bool,
}

/// Adds the findings of the extensions of a material.
pub fn add_shading(
    to: &mut Vec<Finding>,
    textures: usize,
    number: usize,
    material: &Material,
) -> Result<(), AllocError>
    ensures { OnOk result (to.new.items
        ≡ to.old.items ++ shading_findings textures number material.now) }
{
    match &material.extensions {
        Some(extensions) => {
            let rules = ShadingRules {
                textures,
                is_double_sided: material.double_sided,
                transmits: extensions.transmission.is_some(),
            };
            add_extensions(to, &rules, number, extensions)
        }
        None => Ok(()),
    }
}

/// Adds the findings of each extension.
#[tactic(auto, using(std::proofs::lemmas::List::append_assoc))]
fn add_extensions(
    to: &mut Vec<Finding>,
    rules: &ShadingRules,
    number: usize,
    extensions: &Extensions,
) -> Result<(), AllocError>
    ensures { OnOk result (to.new.items ≡ to.old.items ++ extension_findings
        rules.now.textures rules.now.is_double_sided rules.now.transmits number extensions.now) }
{
    add_some(to, rules, number, &extensions.pbr_specular_glossiness)?;
    add_some(to, rules, number, &extensions.transmission)?;
    add_some(to, rules, number, &extensions.volume)?;
    add_some(to, rules, number, &extensions.specular)?;
    add_some(to, rules, number, &extensions.ior)?;
    add_some(to, rules, number, &extensions.emissive_strength)
}

/// Whether a reference to a texture names none of so many.
fn is_info_unresolved(info: &Option<Info>, textures: usize) -> bool
    ensures { result ≡ is_info_unresolved textures info.now }
{
    // derived
    match info {
        Some(info) => is_unresolved(info.index, textures),
        None => false,
    }
}

/// The rule for a texture that an object may have, one of so many.
pub fn texture_rule(object: Object, info: &Option<Info>, textures: usize) -> Option<Finding>
    ensures { result ≡ texture_rule textures object info.now }
{
    // derived
    broken(
        is_info_unresolved(info, textures),
        Code::UnresolvedReference,
        Subject::Member(object, Name::Index),
    )
}

impl Rules<Transmission> for ShadingRules {
    ghost findings = { λ s n x. found (transmission_rules s.textures n x) };

    fn add(
        &self,
        number: usize,
        item: &Transmission,
        to: &mut Vec<Finding>,
    ) -> Result<(), AllocError> {
        add_found(to, &transmission_rules(self.textures, number, item))
    }
}

/// The rules for a transmission.
fn transmission_rules(
    textures: usize,
    number: usize,
    transmission: &Transmission,
) -> [Option<Finding>; 2]
    ensures { result ≡ transmission_rules textures number transmission.now }
{
    // derived
    let at = Object::Inner(
        Name::Materials,
        number,
        Name::Extensions,
        Name::KhrMaterialsTransmission,
    );
    let transmission_texture = Object::Extended(
        Name::Materials,
        number,
        Name::KhrMaterialsTransmission,
        Name::TransmissionTexture,
    );
    [
        Range::Factor.rule(
            at,
            Name::TransmissionFactor,
            &transmission.transmission_factor.0,
        ),
        texture_rule(
            transmission_texture,
            &transmission.transmission_texture,
            textures,
        ),
    ]
}

impl Rules<Ior> for ShadingRules {
    ghost findings = { λ s n x. found (ior_rules n x) };

    fn add(&self, number: usize, item: &Ior, to: &mut Vec<Finding>) -> Result<(), AllocError> {
        add_found(to, &ior_rules(number, item))
    }
}

/// The rule for an index of refraction.
fn ior_rules(number: usize, ior: &Ior) -> [Option<Finding>; 1]
    ensures { result ≡ ior_rules number ior.now }
{
    // derived
    let at = Object::Inner(
        Name::Materials,
        number,
        Name::Extensions,
        Name::KhrMaterialsIor,
    );
    [Range::RefractionIndex.rule(at, Name::Ior, &ior.ior.0)]
}

impl Rules<EmissiveStrength> for ShadingRules {
    ghost findings = { λ s n x. found (emissive_strength_rules n x) };

    fn add(
        &self,
        number: usize,
        item: &EmissiveStrength,
        to: &mut Vec<Finding>,
    ) -> Result<(), AllocError> {
        add_found(to, &emissive_strength_rules(number, item))
    }
}

/// The rule for an emissive strength.
fn emissive_strength_rules(number: usize, strength: &EmissiveStrength) -> [Option<Finding>; 1]
    ensures { result ≡ emissive_strength_rules number strength.now }
{
    // derived
    let at = Object::Inner(
        Name::Materials,
        number,
        Name::Extensions,
        Name::KhrMaterialsEmissiveStrength,
    );
    [Range::NotNegative.rule(at, Name::EmissiveStrength, &strength.emissive_strength.0)]
}

impl Rules<Volume> for ShadingRules {
    ghost findings = { λ s n x. volume_findings s.textures s.is_double_sided s.transmits n x };

    #[tactic(auto, using(std::proofs::lemmas::List::append_assoc))]
    fn add(&self, number: usize, item: &Volume, to: &mut Vec<Finding>) -> Result<(), AllocError> {
        let extension = Name::KhrMaterialsVolume;
        let color = Numbers {
            object: Object::Inner(Name::Materials, number, Name::Extensions, extension),
            name: Name::AttenuationColor,
            range: Range::Factor,
        };
        color.add_to(to, &item.attenuation_color.0)?;
        add_found(to, &volume_rules(self, number, item))
    }
}

/// The rules for a volume.
fn volume_rules(rules: &ShadingRules, number: usize, volume: &Volume) -> [Option<Finding>; 5]
    ensures { result ≡ volume_rules rules.now.textures rules.now.is_double_sided
        rules.now.transmits number volume.now }
{
    // derived
    let at = Object::Inner(
        Name::Materials,
        number,
        Name::Extensions,
        Name::KhrMaterialsVolume,
    );
    let thickness_texture = Object::Extended(
        Name::Materials,
        number,
        Name::KhrMaterialsVolume,
        Name::ThicknessTexture,
    );
    [
        Range::NotNegative.rule(at, Name::ThicknessFactor, &volume.thickness_factor.0),
        Range::Positive.rule(
            at,
            Name::AttenuationDistance,
            &volume.attenuation_distance.0,
        ),
        texture_rule(thickness_texture, &volume.thickness_texture, rules.textures),
        broken(
            !rules.transmits,
            Code::KhrMaterialsVolumeNoTransmission,
            Subject::Object(at),
        ),
        broken(
            rules.is_double_sided,
            Code::KhrMaterialsVolumeDoubleSided,
            Subject::Object(at),
        ),
    ]
}

impl Rules<Specular> for ShadingRules {
    ghost findings = { λ s n x. specular_findings s.textures n x };

    #[tactic(auto, using(std::proofs::lemmas::List::append_assoc))]
    fn add(&self, number: usize, item: &Specular, to: &mut Vec<Finding>) -> Result<(), AllocError> {
        let extension = Name::KhrMaterialsSpecular;
        let color = Numbers {
            object: Object::Inner(Name::Materials, number, Name::Extensions, extension),
            name: Name::SpecularColorFactor,
            range: Range::NotNegative,
        };
        color.add_to(to, &item.specular_color_factor.0)?;
        add_found(to, &specular_rules(self.textures, number, item))
    }
}

/// The rules for a specular reflection.
fn specular_rules(textures: usize, number: usize, specular: &Specular) -> [Option<Finding>; 3]
    ensures { result ≡ specular_rules textures number specular.now }
{
    // derived
    let at = Object::Inner(
        Name::Materials,
        number,
        Name::Extensions,
        Name::KhrMaterialsSpecular,
    );
    let specular_texture = Object::Extended(
        Name::Materials,
        number,
        Name::KhrMaterialsSpecular,
        Name::SpecularTexture,
    );
    let specular_color_texture = Object::Extended(
        Name::Materials,
        number,
        Name::KhrMaterialsSpecular,
        Name::SpecularColorTexture,
    );
    [
        Range::Factor.rule(at, Name::SpecularFactor, &specular.specular_factor.0),
        texture_rule(specular_texture, &specular.specular_texture, textures),
        texture_rule(
            specular_color_texture,
            &specular.specular_color_texture,
            textures,
        ),
    ]
}

impl Rules<PbrSpecularGlossiness> for ShadingRules {
    ghost findings = { λ s n x. glossiness_findings s.textures n x };

    #[tactic(auto, using(std::proofs::lemmas::List::append_assoc))]
    fn add(
        &self,
        number: usize,
        item: &PbrSpecularGlossiness,
        to: &mut Vec<Finding>,
    ) -> Result<(), AllocError> {
        let extension = Name::KhrMaterialsPbrSpecularGlossiness;
        let diffuse = Numbers {
            object: Object::Inner(Name::Materials, number, Name::Extensions, extension),
            name: Name::DiffuseFactor,
            range: Range::Factor,
        };
        diffuse.add_to(to, &item.diffuse_factor.0)?;
        let specular = Numbers {
            object: Object::Inner(Name::Materials, number, Name::Extensions, extension),
            name: Name::SpecularFactor,
            range: Range::Factor,
        };
        specular.add_to(to, &item.specular_factor.0)?;
        add_found(to, &glossiness_rules(self.textures, number, item))
    }
}

/// The rules for the specular-glossiness model.
fn glossiness_rules(
    textures: usize,
    number: usize,
    model: &PbrSpecularGlossiness,
) -> [Option<Finding>; 3]
    ensures { result ≡ glossiness_rules textures number model.now }
{
    // derived
    let at = Object::Inner(
        Name::Materials,
        number,
        Name::Extensions,
        Name::KhrMaterialsPbrSpecularGlossiness,
    );
    let diffuse_texture = Object::Extended(
        Name::Materials,
        number,
        Name::KhrMaterialsPbrSpecularGlossiness,
        Name::DiffuseTexture,
    );
    let specular_glossiness_texture = Object::Extended(
        Name::Materials,
        number,
        Name::KhrMaterialsPbrSpecularGlossiness,
        Name::SpecularGlossinessTexture,
    );
    [
        Range::Factor.rule(at, Name::GlossinessFactor, &model.glossiness_factor.0),
        texture_rule(diffuse_texture, &model.diffuse_texture, textures),
        texture_rule(
            specular_glossiness_texture,
            &model.specular_glossiness_texture,
            textures,
        ),
    ]
}
