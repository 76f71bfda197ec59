//! Documents in each style: two transforms without a set of coordinates, one of which is among
//! members that no row names.

use gltf_json::root::{Nulls, Spacing, Style, Watched};
use gltf_json::validation::Checked;
use gltf_json::{Error, Material, Root};
use std::alloc::Global;
use std::test::Fail;

const KEPT: &str =
    r#"{"asset":{"version":"2.0"},"materials":[{"alphaMode":"OPAQUE","doubleSided":false,"emissiveTexture":{"extensions":{"KHR_texture_transform":{"extras":{"texCoord":null},"texCoord":null},"a":null},"index":0,"texCoord":0},"pbrMetallicRoughness":{"baseColorTexture":{"extensions":{"KHR_texture_transform":{"texCoord":null}},"index":1,"texCoord":2}}}]}"#;

const LEFT_OUT: &str =
    r#"{"asset":{"version":"2.0"},"materials":[{"alphaMode":"OPAQUE","doubleSided":false,"emissiveTexture":{"extensions":{"KHR_texture_transform":{"extras":{"texCoord":null}},"a":null},"index":0,"texCoord":0},"pbrMetallicRoughness":{"baseColorTexture":{"extensions":{"KHR_texture_transform":{}},"index":1,"texCoord":2}}}]}"#;

const KEPT_IN_LINES: &str =
    "{\n  \"asset\": {\n    \"version\": \"2.0\"\n  },\n  \"materials\": [\n    {\n      \"alphaMode\": \"OPAQUE\",\n      \"doubleSided\": false,\n      \"emissiveTexture\": {\n        \"extensions\": {\n          \"KHR_texture_transform\": {\n            \"extras\": {\n              \"texCoord\": null\n            },\n            \"texCoord\": null\n          },\n          \"a\": null\n        },\n        \"index\": 0,\n        \"texCoord\": 0\n      },\n      \"pbrMetallicRoughness\": {\n        \"baseColorTexture\": {\n          \"extensions\": {\n            \"KHR_texture_transform\": {\n              \"texCoord\": null\n            }\n          },\n          \"index\": 1,\n          \"texCoord\": 2\n        }\n      }\n    }\n  ]\n}";

const LEFT_OUT_IN_LINES: &str =
    "{\n  \"asset\": {\n    \"version\": \"2.0\"\n  },\n  \"materials\": [\n    {\n      \"alphaMode\": \"OPAQUE\",\n      \"doubleSided\": false,\n      \"emissiveTexture\": {\n        \"extensions\": {\n          \"KHR_texture_transform\": {\n            \"extras\": {\n              \"texCoord\": null\n            }\n          },\n          \"a\": null\n        },\n        \"index\": 0,\n        \"texCoord\": 0\n      },\n      \"pbrMetallicRoughness\": {\n        \"baseColorTexture\": {\n          \"extensions\": {\n            \"KHR_texture_transform\": {}\n          },\n          \"index\": 1,\n          \"texCoord\": 2\n        }\n      }\n    }\n  ]\n}";

/// Whether the document is written in a style as this text, as bytes and into a writer.
fn is_written_as(alloc: Global, spacing: Spacing, nulls: Nulls, text: &str) -> Result<bool, Fail> {
    let root = Root::from_str(alloc, KEPT)?;
    let style = Style { spacing, nulls };
    let bytes = root.to_vec_with(alloc, style)?;
    let mut writer = Watched::new(Vec::new(alloc));
    root.to_writer_with(alloc, style, &mut writer)?;
    let taken = writer.into_inner();
    Ok(bytes.as_slice() == text.as_bytes() && taken.as_slice() == text.as_bytes())
}

#[test]
fn nulls_are_kept(rt: HostRuntime) -> Result<(), Fail> {
    let alloc = rt.alloc();
    assert!(rt; is_written_as(alloc, Spacing::Compact, Nulls::Kept, KEPT)?);
    assert!(rt; is_written_as(alloc, Spacing::Pretty, Nulls::Kept, KEPT_IN_LINES)?);
    Ok(())
}

#[test]
fn nulls_are_left_out(rt: HostRuntime) -> Result<(), Fail> {
    let alloc = rt.alloc();
    assert!(rt; is_written_as(alloc, Spacing::Compact, Nulls::LeftOut, LEFT_OUT)?);
    assert!(rt; is_written_as(alloc, Spacing::Pretty, Nulls::LeftOut, LEFT_OUT_IN_LINES)?);
    Ok(())
}

/// Whether what is written without nulls is read as the same document.
fn is_read_as_the_same(alloc: Global) -> Result<bool, Fail> {
    let root = Root::from_str(alloc, LEFT_OUT)?;
    Ok(root.to_vec(alloc)?.as_slice() == KEPT.as_bytes())
}

/// Whether a document with an invalid item is refused.
fn is_refused(alloc: Global) -> Result<bool, Fail> {
    let mut root = Root::new(alloc)?;
    let mut material = Material::new();
    material.alpha_mode = Checked::Invalid;
    root.materials.push(material)?;
    let style = Style {
        spacing: Spacing::Compact,
        nulls: Nulls::LeftOut,
    };
    match root.to_vec_with(alloc, style) {
        Err(Error::InvalidItem) => Ok(true),
        _ => Ok(false),
    }
}

#[test]
fn documents_without_nulls_are_the_same(rt: HostRuntime) -> Result<(), Fail> {
    assert!(rt; is_read_as_the_same(rt.alloc())?);
    assert!(rt; is_refused(rt.alloc())?);
    Ok(())
}
