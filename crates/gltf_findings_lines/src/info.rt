//! What a document holds, as the Khronos glTF-Validator counts it.

ghost use Rattle.std.specs.Prelude.{◌≡◌, IfOk, OnOk, map, option_map, string_bytes};
ghost use Rattle.serde_json.specs.Data.{boolean, number, put as with_member, unsigned};
ghost use Rattle.serde_json.specs.View.{members_view, view};
ghost use Rattle.gltf_findings_lines.specs.Info.{IsInfo, info_data, names_data, text_data, with_asset, with_contents, with_geometry};

use crate::geometry::Geometry;
use gltf_root::root::Root;
use serde_json::{Map, Value, put};
use std::alloc::{AllocError, Global};

/// What a document holds.
#[derive(Clone, Copy)]
pub struct Contents<'a> {
    pub version: &'a str,
    pub min_version: Option<&'a str>,
    pub generator: Option<&'a str>,
    pub extensions_used: &'a [String],
    pub extensions_required: &'a [String],
    pub animations: usize,
    pub materials: usize,
    pub has_default_scene: bool,
    pub has_skins: bool,
    pub has_textures: bool,
    pub geometry: Geometry,
}

impl Contents<'_> {
    /// What a document holds.
    pub fn of(root: &Root) -> Contents<'_>
        ensures { IsInfo root.now result }
    {
        let asset = &root.asset;
        Contents {
            version: &asset.version,
            min_version: asset.min_version.as_deref(),
            generator: asset.generator.as_deref(),
            extensions_used: &root.extensions_used,
            extensions_required: &root.extensions_required,
            animations: root.animations.len(),
            materials: root.materials.len(),
            has_default_scene: root.scene.is_some(),
            has_skins: !root.skins.is_empty(),
            has_textures: !root.textures.is_empty(),
            geometry: Geometry::of(&root.meshes, &root.accessors),
        }
    }
}

/// What a document holds, as JSON.
#[tactic(auto, using(crate::proofs::InfoMembers::members_are), unfolding(crate::specs::Info::info_data))]
pub(crate) fn info_value(alloc: Global, info: &Contents<'_>) -> Result<Value, AllocError>
    ensures { IfOk result (λ value. view value ≡ info_data info.now) }
{
    let mut map = Map::new(alloc);
    put_asset(alloc, &mut map, info)?;
    put_contents(alloc, &mut map, info)?;
    put_geometry(alloc, &mut map, &info.geometry)?;
    Ok(Value::Object(map))
}

/// Puts what the asset and the names of extensions say.
fn put_asset(
    alloc: Global,
    map: &mut Map<String, Value>,
    info: &Contents<'_>,
) -> Result<(), AllocError>
    ensures { OnOk result (members_view map.new.entries
        ≡ with_asset info.now (members_view map.old.entries)) }
{
    put_text(alloc, map, "version", Some(info.version))?;
    put_text(alloc, map, "minVersion", info.min_version)?;
    put_text(alloc, map, "generator", info.generator)?;
    put_names(alloc, map, "extensionsUsed", info.extensions_used)?;
    put_names(alloc, map, "extensionsRequired", info.extensions_required)
}

/// Puts what lists a document has.
fn put_contents(
    alloc: Global,
    map: &mut Map<String, Value>,
    info: &Contents<'_>,
) -> Result<(), AllocError>
    ensures { OnOk result (members_view map.new.entries
        ≡ with_contents info.now (members_view map.old.entries)) }
{
    put_number(alloc, map, "animationCount", info.animations as u64)?;
    put_number(alloc, map, "materialCount", info.materials as u64)?;
    put_flag(alloc, map, "hasDefaultScene", info.has_default_scene)?;
    put_flag(alloc, map, "hasSkins", info.has_skins)?;
    put_flag(alloc, map, "hasTextures", info.has_textures)
}

/// Puts what the meshes of a document hold.
fn put_geometry(
    alloc: Global,
    map: &mut Map<String, Value>,
    geometry: &Geometry,
) -> Result<(), AllocError>
    ensures { OnOk result (members_view map.new.entries
        ≡ with_geometry geometry.now (members_view map.old.entries)) }
{
    put_number(alloc, map, "drawCallCount", geometry.draw_calls)?;
    put_number(alloc, map, "totalVertexCount", geometry.vertices)?;
    put_number(alloc, map, "totalTriangleCount", geometry.triangles)?;
    put_number(alloc, map, "maxAttributes", geometry.attributes as u64)?;
    put_number(alloc, map, "maxUVs", geometry.tex_coords)?;
    put_number(alloc, map, "maxInfluences", geometry.influences)?;
    put_flag(alloc, map, "hasMorphTargets", geometry.has_morph_targets)
}

/// Puts a number at a key.
fn put_number(
    alloc: Global,
    map: &mut Map<String, Value>,
    key: &str,
    count: u64,
) -> Result<(), AllocError>
    ensures { OnOk result (members_view map.new.entries
        ≡ with_member key.now (number (unsigned count)) (members_view map.old.entries)) }
{
    put(map, alloc, key, Value::from(count))
}

/// Puts true or false at a key.
fn put_flag(
    alloc: Global,
    map: &mut Map<String, Value>,
    key: &str,
    flag: bool,
) -> Result<(), AllocError>
    ensures { OnOk result (members_view map.new.entries
        ≡ with_member key.now (boolean flag) (members_view map.old.entries)) }
{
    put(map, alloc, key, Value::from(flag))
}

/// Puts a text, or null, at a key.
fn put_text(
    alloc: Global,
    map: &mut Map<String, Value>,
    key: &str,
    text: Option<&str>,
) -> Result<(), AllocError>
    ensures { OnOk result (members_view map.new.entries
        ≡ with_member key.now (text_data (option_map (λ s. s.now) text.entry))
        (members_view map.old.entries)) }
{
    let value = text_value(alloc, text)?;
    put(map, alloc, key, value)
}

/// Puts names at a key.
fn put_names(
    alloc: Global,
    map: &mut Map<String, Value>,
    key: &str,
    names: &[String],
) -> Result<(), AllocError>
    ensures { OnOk result (members_view map.new.entries
        ≡ with_member key.now (names_data names.now) (members_view map.old.entries)) }
{
    let value = names_value(alloc, names)?;
    put(map, alloc, key, value)
}

/// A text that may be absent.
fn text_value(alloc: Global, text: Option<&str>) -> Result<Value, AllocError>
    ensures { IfOk result (λ value. view value
        ≡ text_data (option_map (λ s. s.now) text.entry)) }
{
    match text {
        Some(text) => Value::try_from_str(alloc, text),
        None => Ok(Value::Null),
    }
}

/// Names as a list.
fn names_value(alloc: Global, names: &[String]) -> Result<Value, AllocError>
    ensures { IfOk result (λ value. view value ≡ names_data names.now) }
{
    let mut values = Vec::new(alloc);
    for name in names {
        values.push(Value::try_from_str(alloc, name.as_str())?)?;
    }
    Ok(Value::Array(values))
}
