//! Members that objects keep though no row names them.

use gltf_json::extensions::material::PbrSpecularGlossiness;
use gltf_json::{Material, Root, Value};
use serde_json::Map;
use std::alloc::AllocError;

/// Adds what is listed under the name of an object to the members that the object keeps.
fn keep(others: &mut Map<String, Value>, added: &Value, name: &str) -> Result<(), AllocError> {
    if let Some(members) = added.get(name).and_then(Value::as_object) {
        for (name, value) in members.iter() {
            others.insert(name.clone()?, value.clone()?)?;
        }
    }
    Ok(())
}

fn keep_in_gloss(gloss: &mut PbrSpecularGlossiness, added: &Value) -> Result<(), AllocError> {
    keep(&mut gloss.others, added, "gloss")?;
    if let Some(info) = &mut gloss.diffuse_texture {
        if let Some(extensions) = &mut info.extensions {
            keep(&mut extensions.others, added, "info")?;
        }
    }
    Ok(())
}

fn keep_in_material(material: &mut Material, added: &Value) -> Result<(), AllocError> {
    if let Some(extensions) = &mut material.extensions {
        keep(&mut extensions.others, added, "material")?;
        if let Some(gloss) = &mut extensions.pbr_specular_glossiness {
            keep_in_gloss(gloss, added)?;
        }
    }
    Ok(())
}

fn keep_in_meshes(root: &mut Root, added: &Value) -> Result<(), AllocError> {
    for mesh in root.meshes.iter_mut() {
        for primitive in mesh.primitives.iter_mut() {
            if let Some(extensions) = &mut primitive.extensions {
                keep(&mut extensions.others, added, "primitive")?;
            }
        }
    }
    Ok(())
}

fn keep_in_nodes(root: &mut Root, added: &Value) -> Result<(), AllocError> {
    for node in root.nodes.iter_mut() {
        if let Some(extensions) = &mut node.extensions {
            keep(&mut extensions.others, added, "node")?;
        }
    }
    Ok(())
}

/// Adds members to those that the objects of a document keep. They are listed under the names
/// `root`, `node`, `primitive`, `material`, `gloss`, `info` and `scene`.
pub fn keep_in_document(root: &mut Root, added: &Value) -> Result<(), AllocError> {
    if let Some(extensions) = &mut root.extensions {
        keep(&mut extensions.others, added, "root")?;
    }
    for material in root.materials.iter_mut() {
        keep_in_material(material, added)?;
    }
    keep_in_meshes(root, added)?;
    keep_in_nodes(root, added)?;
    for scene in root.scenes.iter_mut() {
        if let Some(extensions) = &mut scene.extensions {
            keep(&mut extensions.others, added, "scene")?;
        }
    }
    Ok(())
}
