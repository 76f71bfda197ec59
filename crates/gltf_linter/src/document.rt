//! Documents from the bytes of files.

use crate::files::has_extension;
use crate::refusal::Refusal;
use crate::text::text_fault;
use gltf_buffers::Glb;
use gltf_findings_lines::{File, Unread, is_version_1};
use gltf_report_lines::json_of;
use gltf_root::root::Root;
use gltf_schema::Error;
use serde_json::Value;
use std::alloc::Global;

/// Whether a file is a container: its name ends in `.glb`, or it begins as one.
pub fn is_container(name: &str, bytes: &[u8]) -> bool {
    has_extension(name, ".glb") || bytes.starts_with(b"glTF")
}

/// The JSON of a file: that of its container if it has one, else all of its bytes. A file has a
/// container if its name ends in `.glb` or if it begins as one.
fn json_in<'a>(name: &str, bytes: &'a [u8]) -> Result<&'a [u8], Refusal> {
    let found = if has_extension(name, ".glb") {
        Glb::from_slice(bytes).map(|glb| glb.json)
    } else {
        json_of(bytes)
    };
    found.map_err(Refusal::Container)
}

/// Why a text that is no JSON is refused, with the place.
fn json_refusal(alloc: Global, json: &[u8]) -> Refusal {
    match Value::from_slice(alloc, json) {
        Err(error) if !error.is_memory() => {
            let (line, column) = (error.line(), error.column());
            match text_fault(json, line, column) {
                Some(fault) => Refusal::Text {
                    fault,
                    line,
                    column,
                },
                None => Refusal::Json(error),
            }
        }
        _ => Refusal::Memory,
    }
}

/// Whether a document says that its version is 1, as `1.0`. Out of memory, it returns `false`.
fn is_old(alloc: Global, json: &[u8]) -> bool {
    match Value::from_slice(alloc, json) {
        Ok(value) => is_version_1(&value),
        Err(_) => false,
    }
}

/// Why JSON that is no glTF document is refused, with the place.
fn schema_refusal(alloc: Global, json: &[u8]) -> Refusal {
    match Root::mismatch_in(alloc, json) {
        Ok(Some(mismatch)) if mismatch.place.pointer.is_empty() => Refusal::Schema,
        Ok(Some(mismatch)) if is_old(alloc, json) => Refusal::Version1(mismatch.place),
        Ok(Some(mismatch)) => Refusal::Member(mismatch),
        _ => Refusal::Memory,
    }
}

/// The document of a file of this name.
pub fn document_of(alloc: Global, name: &str, bytes: &[u8]) -> Result<Root, Refusal> {
    let json = json_in(name, bytes)?;
    match Root::from_slice(alloc, json) {
        Ok(root) => Ok(root),
        Err(Error::Json) => Err(json_refusal(alloc, json)),
        Err(Error::Schema) => Err(schema_refusal(alloc, json)),
        Err(_) => Err(Refusal::Memory),
    }
}

/// Why a file that holds no document is refused, with the place.
pub fn unread_refusal(alloc: Global, file: &File<'_>, unread: Unread) -> Refusal {
    match unread {
        Unread::Container(error) => Refusal::Container(error),
        Unread::NoJson | Unread::NoDocument => match document_of(alloc, file.name, file.bytes) {
            Ok(_) => Refusal::Memory,
            Err(refusal) => refusal,
        },
    }
}
