//! The report of a file that is refused, in the form of the Khronos glTF-Validator.

use crate::files::has_extension;
use crate::refusal::Refusal;
use gltf_buffers::GlbError;
use gltf_findings_lines::{Code, File, refusal_report};
use gltf_root::root::Found;
use std::alloc::{AllocError, Global};

/// The code of the validator for a text that is no JSON, which is no finding here.
const INVALID_JSON: &str = "INVALID_JSON";

/// The code of the validator for a refusal. It has none for a lack of memory.
fn code_of(refusal: &Refusal) -> &'static str {
    match refusal {
        Refusal::Unreadable(_)
        | Refusal::Unread(_)
        | Refusal::Argument
        | Refusal::EntryName
        | Refusal::Empty => "IO_ERROR",
        Refusal::Container(error) => container_code(error),
        Refusal::Json(_)
        | Refusal::Text {
            fault: _,
            line: _,
            column: _,
        } => INVALID_JSON,
        Refusal::Version1(_) => Code::UnknownAssetMajorVersion.name(),
        Refusal::Schema => Code::TypeMismatch.name(),
        Refusal::Member(mismatch) => match mismatch.found {
            Found::Missing => Code::UndefinedProperty.name(),
            _ => Code::TypeMismatch.name(),
        },
        Refusal::Memory => "OUT_OF_MEMORY",
    }
}

/// The code of the validator for the fault of a container.
fn container_code(error: &GlbError) -> &'static str {
    match error {
        GlbError::HeaderCutOff => Code::GlbUnexpectedEndOfHeader.name(),
        GlbError::NoMagic => Code::GlbInvalidMagic.name(),
        GlbError::Version(_) => Code::GlbInvalidVersion.name(),
        GlbError::Length(_) => Code::GlbLengthMismatch.name(),
        GlbError::ChunkHeaderCutOff => Code::GlbUnexpectedEndOfChunkHeader.name(),
        GlbError::ChunkUnaligned(_) => Code::GlbChunkLengthUnaligned.name(),
        GlbError::ChunkCutOff(_) => Code::GlbUnexpectedEndOfChunkData.name(),
        GlbError::FirstChunk(_) => Code::GlbUnexpectedFirstChunk.name(),
        GlbError::JsonPadding => INVALID_JSON,
        GlbError::SecondJson => Code::GlbDuplicateChunk.name(),
        GlbError::MisplacedBin => Code::GlbUnexpectedBinChunk.name(),
    }
}

/// The JSON pointer of the place that a refusal is about, if it is known.
fn pointer_of(refusal: &Refusal) -> Option<&str> {
    match refusal {
        Refusal::Version1(_) => Some("/asset/version"),
        _ => match refusal.place() {
            Some(place) => Some(place.pointer.as_str()),
            None => None,
        },
    }
}

/// The report of a file that is refused. It says nothing of what a document holds.
pub fn report_of(alloc: Global, name: &str, refusal: &Refusal) -> Result<String, AllocError> {
    let file = File {
        name,
        bytes: &[],
        is_container: has_extension(name, ".glb"),
    };
    let message = refusal.to_string(alloc)?;
    refusal_report(
        alloc,
        &file,
        code_of(refusal),
        &message,
        pointer_of(refusal),
    )
}
