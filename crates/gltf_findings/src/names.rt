//! The names of extensions (glTF 2.0, section 3.12).

ghost use Rattle.std.specs.Prelude.{◌≡◌, ◌++◌, ◌&&◌, [], codes, false, not, Option, OnOk, string_bytes};
ghost use Rattle.gltf_findings.specs.ExtensionNames.{is_listed, name_from, is_capital, is_word, all_word, is_word_byte, is_material_extension, is_other_extension, is_supported, are_supported, name_rules, use_rules};

use gltf_findings_codes::{Code, Finding, Name, Object, Rules, Subject, add_found, broken};
use std::alloc::AllocError;

/// Whether names have one of them.
pub fn is_listed(names: &[String], name: &str) -> bool
    ensures { result ≡ is_listed names.now name.now }
{
    for listed in names {
        if listed.as_str() == name {
            return true;
        }
    }
    false
}

/// The rules for the names of extensions.
#[derive(Clone, Copy)]
pub struct NameRules;

impl Rules<String> for NameRules {
    ghost findings = { λ s k name. name_rules k (string_bytes name) };

    fn add(&self, number: usize, item: &String, to: &mut Vec<Finding>) -> Result<(), AllocError> {
        let is_name = is_extension_name(item.as_bytes());
        let place = Subject::Entry(Object::Document, Name::ExtensionsUsed, number);
        let is_known = is_supported(item.as_str());
        add_found(
            to,
            &[
                broken(!is_name, Code::InvalidExtensionNameFormat, place),
                broken(!is_known, Code::UnsupportedExtension, place),
            ],
        )
    }
}

/// Whether the rules know what the objects of all these extensions name.
pub fn are_supported(names: &[String]) -> bool
    ensures { result ≡ are_supported names.now }
{
    for name in names {
        if !is_supported(name.as_str()) {
            return false;
        }
    }
    true
}

/// Whether the rules know what the objects of an extension name.
fn is_supported(name: &str) -> bool
    ensures { result ≡ is_supported name.now }
{
    // derived
    is_material_extension(name) || is_other_extension(name)
}

/// Whether an extension of materials is one of those.
fn is_material_extension(name: &str) -> bool
    ensures { result ≡ is_material_extension name.now }
{
    // derived
    name == "KHR_materials_emissive_strength"
        || name == "KHR_materials_ior"
        || name == "KHR_materials_pbrSpecularGlossiness"
        || name == "KHR_materials_specular"
        || name == "KHR_materials_transmission"
        || name == "KHR_materials_unlit"
        || name == "KHR_materials_variants"
        || name == "KHR_materials_volume"
}

/// Whether another extension is one of those.
fn is_other_extension(name: &str) -> bool
    ensures { result ≡ is_other_extension name.now }
{
    // derived
    name == "KHR_lights_punctual"
        || name == "KHR_mesh_quantization"
        || name == "KHR_texture_transform"
}

/// The rule for an extension that must be required.
pub fn use_rules(used: &[String], required: &[String]) -> [Option<Finding>; 1]
    ensures { result ≡ use_rules used.now required.now }
{
    // derived
    [broken(
        is_unrequired(used, required),
        Code::NonRequiredExtension,
        Subject::Member(Object::Document, Name::ExtensionsUsed),
    )]
}

/// Whether the extension for quantized meshes is used and not required.
fn is_unrequired(used: &[String], required: &[String]) -> bool
    ensures { result ≡ is_listed used.now (codes "KHR_mesh_quantization")
        && not (is_listed required.now (codes "KHR_mesh_quantization")) }
{
    let is_used = is_listed(used, "KHR_mesh_quantization");
    let is_required = is_listed(required, "KHR_mesh_quantization");
    is_used && !is_required
}

/// Whether a text has a prefix of capital letters and digits, an underscore, and more.
fn is_extension_name(text: &[u8]) -> bool
    ensures { result ≡ name_from false text.now }
{
    for place in 0..text.len() {
        let byte = text[place];
        if !is_capital(byte) {
            return 0 < place && byte == b'_' && is_word(&text[place + 1..]);
        }
    }
    false
}

/// Whether a text is not empty, and has letters, digits and underscores alone.
fn is_word(text: &[u8]) -> bool
    ensures { result ≡ is_word text.now }
{
    for byte in text {
        if !is_word_byte(*byte) {
            return false;
        }
    }
    !text.is_empty()
}

/// Whether a byte is a capital letter or a digit.
fn is_capital(byte: u8) -> bool
    ensures { result ≡ is_capital byte }
{
    // derived
    (65 <= byte && byte <= 90) || (48 <= byte && byte <= 57)
}

/// Whether a byte is a letter, a digit or an underscore.
fn is_word_byte(byte: u8) -> bool
    ensures { result ≡ is_word_byte byte }
{
    // derived
    is_capital(byte) || (97 <= byte && byte <= 122) || byte == b'_'
}
