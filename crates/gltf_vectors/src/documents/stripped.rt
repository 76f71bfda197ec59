//! A document with extras and unknown members at several depths, and what is left of it.

use crate::shows;
use gltf_json::{Error, Root};
use std::alloc::Global;
use std::test::Fail;

/// A document with extras in a document, an asset, a light, a material, two objects in it and a
/// node, and with unknown extensions of a document, a material and a node.
const FULL: &str =
    r#"{"asset":{"extras":1,"version":"2.0"},"extensions":{"FOO":{"extras":5},"KHR_lights_punctual":{"lights":[{"extras":{"a":1},"type":"point"}]}},"extras":{"extras":1},"materials":[{"alphaMode":"OPAQUE","doubleSided":false,"extensions":{"FOO":{},"KHR_materials_ior":{"extras":[],"ior":2}},"extras":3,"pbrMetallicRoughness":{"extras":4}}],"nodes":[{"extensions":{"FOO":{"extras":1}},"extras":2,"name":"extras"}]}"#;

/// The document without extras: those in unknown extensions stay.
const WITHOUT_EXTRAS: &str =
    r#"{"asset":{"version":"2.0"},"extensions":{"FOO":{"extras":5},"KHR_lights_punctual":{"lights":[{"type":"point"}]}},"materials":[{"alphaMode":"OPAQUE","doubleSided":false,"extensions":{"FOO":{},"KHR_materials_ior":{"ior":2}},"pbrMetallicRoughness":{}}],"nodes":[{"extensions":{"FOO":{"extras":1}},"name":"extras"}]}"#;

/// The document without unknown members: the extras stay, and an empty object of extensions.
const WITHOUT_UNKNOWN: &str =
    r#"{"asset":{"extras":1,"version":"2.0"},"extensions":{"KHR_lights_punctual":{"lights":[{"extras":{"a":1},"type":"point"}]}},"extras":{"extras":1},"materials":[{"alphaMode":"OPAQUE","doubleSided":false,"extensions":{"KHR_materials_ior":{"extras":[],"ior":2}},"extras":3,"pbrMetallicRoughness":{"extras":4}}],"nodes":[{"extensions":{},"extras":2,"name":"extras"}]}"#;

/// What a document is written as without extras.
fn without_extras(alloc: Global, document: &str) -> Result<String, Error> {
    let mut root = Root::from_str(alloc, document)?;
    root.strip_extras();
    root.to_string(alloc)
}

/// What a document is written as without unknown members.
fn without_unknown(alloc: Global, document: &str) -> Result<String, Error> {
    let mut root = Root::from_str(alloc, document)?;
    root.drop_unknown();
    root.to_string(alloc)
}

#[test]
fn documents_are_stripped_at_every_depth(rt: HostRuntime) -> Result<(), Fail> {
    let alloc = rt.alloc();
    shows(without_extras(alloc, FULL), WITHOUT_EXTRAS)?;
    shows(without_unknown(alloc, FULL), WITHOUT_UNKNOWN)
}
