//! What is wrong with the members of a document's JSON.

ghost use Rattle.std.specs.Prelude.{◌≡◌, IfOk, Some, option_map};
ghost use Rattle.serde_json.specs.Read.{read as read_json};
ghost use Rattle.serde_json.specs.View.{view};
ghost use Rattle.gltf_findings_members.specs.Notices.{found_in};
ghost use Rattle.gltf_findings_lines.specs.Members.{held_in, is_version_1, IsJson, notices_of, value_members, version_in};

use gltf_findings_members::{FirstLook, Notice, Notices};
use gltf_schema::Outline;
use serde_json::Value;
use simdutf8::compat::from_utf8;
use std::alloc::{AllocError, Global};

/// Returns what is wrong with the members of a document's JSON. A document of glTF 1.0 is not
/// looked at, since all of it would be wrong.
pub(crate) fn members_in(
    alloc: Global,
    outline: &Outline,
    json: &[u8],
) -> Result<Option<Notices>, AllocError>
    requires { IsJson json.now }
    ensures { IfOk result (λ found. held_in found
        ≡ value_members outline.now (read_json json.now)) }
{
    match from_utf8(json) {
        Ok(text) => text_members(alloc, outline, text),
        // No bytes come here: they are a text.
        Err(_) => Ok(None),
    }
}

/// The same of a text. Most texts show at a first look that nothing is wrong, or with which members
/// something may be.
fn text_members(alloc: Global, outline: &Outline, text: &str) -> Result<Option<Notices>, AllocError>
    requires { IsJson text.now }
    ensures { IfOk result (λ found. held_in found
        ≡ value_members outline.now (read_json text.now)) }
{
    match FirstLook::of(alloc, outline, text) {
        FirstLook::Quiet => Ok(None),
        FirstLook::Excerpt(value) => {
            let found = value_notices(alloc, outline, &value)?;
            Ok(found)
        }
        FirstLook::Nothing => whole_members(alloc, outline, text),
    }
}

/// The same of a text, all of which is read.
fn whole_members(
    alloc: Global,
    outline: &Outline,
    text: &str,
) -> Result<Option<Notices>, AllocError>
    ensures { IfOk result (λ found. held_in found
        ≡ value_members outline.now (read_json text.now)) }
{
    match Value::from_str(alloc, text) {
        Ok(value) => value_notices(alloc, outline, &value),
        Err(error) if error.is_memory() => Err(AllocError),
        Err(_) => Ok(None),
    }
}

/// What is wrong with the members of a value.
fn value_notices(
    alloc: Global,
    outline: &Outline,
    value: &Value,
) -> Result<Option<Notices>, AllocError>
    ensures { IfOk result (λ found. held_in found
        ≡ value_members outline.now (Some (view value.now))) }
{
    if is_version_1(value) {
        return Ok(None);
    }
    let notices = Notices::of(alloc, outline, value)?;
    Ok(Some(notices))
}

/// The notices that are held.
pub(crate) fn notices_of(found: &Option<Notices>) -> &[Notice]
    ensures { result.now ≡ notices_of found.now }
{
    // derived
    match found {
        Some(found) => found.as_slice(),
        None => &[],
    }
}

/// Whether a document says that its version is 1, as `1.0`.
pub fn is_version_1(document: &Value) -> bool
    ensures { result ≡ is_version_1 (view document.now) }
{
    match version_in(document) {
        Some(version) => version.starts_with("1."),
        None => false,
    }
}

/// The version of a document, if it is a text.
fn version_in(document: &Value) -> Option<&str>
    ensures { option_map (λ s. s.now) result ≡ version_in (view document.now) }
{
    document.get("asset")?.get("version")?.as_str()
}
