//! Objects that are made by hand: what they are written as, and how they are debugged.

use crate::reading::object;
use crate::shows;
use gltf_base::Index;
use gltf_base::accessor::{ComponentType, IndexComponentType};
use gltf_base::texture::MinFilter;
use gltf_base::validation::{Checked, USize64};
use gltf_json::accessor::sparse::Indices;
use gltf_json::asset::Asset;
use gltf_json::buffer::Stride;
use gltf_json::extensions::scene::Node as NodeExtensions;
use gltf_json::extensions::scene::khr_lights_punctual::KhrLightsPunctual;
use gltf_json::extras::Void;
use gltf_json::scene::{Node, Scene};
use gltf_json::{Error, Material, Schema, Value};
use std::alloc::Global;
use std::fmt::Debug;
use std::test::Fail;

/// The JSON that an object is written as.
fn written<T: Schema>(alloc: Global, object: &T) -> Result<String, Fail> {
    Ok(object.encode(alloc)?.to_string(alloc)?)
}

/// What a new asset is written as.
fn new_asset(alloc: Global) -> Result<String, Fail> {
    let asset = Asset::new(alloc)?;
    written(alloc, &asset)
}

/// What a node is written as with this light, or none, and 5 under the name of the lights among the
/// members that are not known.
fn node(alloc: Global, light: Option<KhrLightsPunctual>) -> Result<String, Fail> {
    let mut extension = NodeExtensions::new(alloc);
    extension.khr_lights_punctual = light;
    let name = String::from_str(alloc, "KHR_lights_punctual")?;
    extension.others.insert(name, Value::from_str(alloc, "5")?)?;
    let mut node = Node::new();
    node.extensions = Some(extension);
    written(alloc, &node)
}

/// A light of a node.
fn light() -> Option<KhrLightsPunctual> {
    Some(KhrLightsPunctual {
        light: Index::new(0),
    })
}

#[test]
fn objects_made_by_hand_are_written(rt: HostRuntime) -> Result<(), Fail> {
    let alloc = rt.alloc();
    let material = r#"{"alphaMode":"OPAQUE","doubleSided":false,"pbrMetallicRoughness":{}}"#;
    let lit = r#"{"extensions":{"KHR_lights_punctual":{"light":0}}}"#;
    let unlit = r#"{"extensions":{"KHR_lights_punctual":5}}"#;
    shows(new_asset(alloc), r#"{"version":"2.0"}"#)?;
    shows(written(alloc, &Material::new()), material)?;
    shows(written(alloc, &Scene::new(Vec::new(alloc))), "{}")?;
    shows(node(alloc, light()), lit)?;
    shows(node(alloc, None), unlit)
}

/// Indexes of a type that isn't one of indexes.
fn fractional_indices() -> Indices {
    Indices {
        buffer_view: Index::new(1),
        byte_offset: USize64(2),
        component_type: Checked::Valid(IndexComponentType(ComponentType::F32)),
        extensions: None,
        extras: None,
    }
}

/// What they are written as.
fn fractional_text(alloc: Global) -> Result<String, Fail> {
    let indices = fractional_indices();
    written(alloc, &indices)
}

/// How an object that is read is debugged.
fn debugged<T: Schema + Debug>(alloc: Global, text: &str) -> Result<String, Fail> {
    let read: T = object(alloc, text)?;
    Ok(format!(in alloc; "{read:?}")?)
}

#[test]
fn types_of_no_indexes_are_lost(rt: HostRuntime) -> Result<(), Fail> {
    let alloc = rt.alloc();
    let text = r#"{"bufferView":1,"byteOffset":2,"componentType":5126}"#;
    let read =
        "Indices { buffer_view: 1, byte_offset: USize64(2), component_type: Invalid, extensions: None, extras: None }";
    shows(fractional_text(alloc), text)?;
    shows(debugged::<Indices>(alloc, text), read)
}

/// How a choice, a stride, an error and no extras are debugged.
fn values_debugged(alloc: Global) -> Result<String, Fail> {
    let (filter, stride) = (MinFilter::NearestMipmapNearest, Some(Stride(4)));
    let (error, void) = (Error::InvalidItem, Void::new());
    Ok(format!(in alloc; "{filter:?} {stride:?} {error:?} {void} {void:?}")?)
}

#[test]
fn values_are_debugged(rt: HostRuntime) -> Result<(), Fail> {
    shows(
        values_debugged(rt.alloc()),
        "NearestMipmapNearest Some(Stride(4)) InvalidItem {} {}",
    )?;
    Ok(())
}
