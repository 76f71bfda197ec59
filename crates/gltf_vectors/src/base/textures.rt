//! The textures of materials.

use crate::shows;
use gltf_json::{Material, Schema, Value};
use std::alloc::Global;
use std::fmt::Write;
use std::test::Fail;

/// The textures that a material refers to, by the names of their members.
fn textures(alloc: Global, text: &str) -> Result<String, Fail> {
    let material = Material::decode(alloc, Value::from_str(alloc, text)?)?;
    let mut list = String::new(alloc);
    for (name, texture) in material.textures() {
        if let Some(index) = texture {
            write!(list, "{name} {index}; ")?;
        }
    }
    Ok(list)
}

#[test]
fn materials_list_their_textures(rt: HostRuntime) -> Result<(), Fail> {
    let core = r#"{"normalTexture":{"index":7},"emissiveTexture":{"index":2},
        "pbrMetallicRoughness":{"metallicRoughnessTexture":{"index":1}}}"#;
    shows(
        textures(rt.alloc(), core),
        "metallicRoughnessTexture 1; normalTexture 7; emissiveTexture 2; ",
    )?;
    let extended = r#"{"occlusionTexture":{"index":0},"extensions":{
        "KHR_materials_specular":{"specularColorTexture":{"index":5}},
        "KHR_materials_volume":{"thicknessTexture":{"index":3}},
        "KHR_materials_transmission":{"transmissionTexture":{"index":4}}}}"#;
    shows(
        textures(rt.alloc(), extended),
        "occlusionTexture 0; transmissionTexture 4; thicknessTexture 3; specularColorTexture 5; ",
    )
}
