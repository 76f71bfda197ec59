//! Why a file is refused.

use crate::text::TextFault;
use gltf_root::root::{Mismatch, Place};
use gltf_schema::Error as DocumentError;
use std::alloc::AllocError;
use std::io::{self, ErrorKind};
use thiserror::Error;

/// Why a file is refused.
#[derive(Debug, Drop, Error)]
pub enum Refusal {
    /// It can't be opened, or it is a folder that can't be read.
    #[error("{0}")]
    Unreadable(io::Error),
    /// It is an argument that is not UTF-8.
    #[error("this argument is not UTF-8")]
    Argument,
    /// It is a folder in which a name is not UTF-8.
    #[error("a name in this folder is not UTF-8")]
    EntryName,
    /// It is a folder without a document, here or below.
    #[error("no .gltf or .glb file in this folder")]
    Empty,
    /// It could be opened, but reading it failed or did not come to an end.
    #[error("{0}")]
    Unread(DocumentError),
    /// It is no container of binary glTF.
    #[error("not binary glTF: {0}")]
    Container(gltf_buffers::GlbError),
    /// Its text is no JSON.
    #[error("not JSON: {0}")]
    Json(serde_json::Error),
    /// Its text is no JSON for a reason that has a name, or it is nested too deep.
    #[error("{fault} at line {line} column {column}")]
    Text {
        fault: TextFault,
        line: usize,
        column: usize,
    },
    /// Its JSON is no object, and so no glTF document.
    #[error("JSON, but not a glTF document")]
    Schema,
    /// Its JSON is no glTF document, because of what is at this place. It says that its version is
    /// 1.
    #[error("glTF 1.0, not 2.0: {0}")]
    Version1(Place),
    /// Its JSON is no glTF document: at a place, another JSON is wanted than is there.
    #[error("JSON, but not a glTF document: {0}")]
    Member(Mismatch),
    /// Out of memory.
    #[error("out of memory")]
    Memory,
}

impl Refusal {
    /// A name of the refusal for machines, in lowercase letters and hyphens.
    pub fn code(&self) -> &'static str {
        match self {
            Refusal::Unreadable(_) | Refusal::Unread(_) | Refusal::Argument | Refusal::EntryName =>
                "unreadable",
            Refusal::Empty => "no-files",
            Refusal::Container(_) => "not-glb",
            Refusal::Text {
                fault: TextFault::TooDeep,
                line: _,
                column: _,
            } => "too-deep",
            Refusal::Json(_)
            | Refusal::Text {
                fault: _,
                line: _,
                column: _,
            } => "not-json",
            Refusal::Version1(_) => "old-version",
            Refusal::Schema | Refusal::Member(_) => "not-gltf",
            Refusal::Memory => "out-of-memory",
        }
    }

    /// The place of what is not as in a glTF document.
    pub fn place(&self) -> Option<&Place> {
        match self {
            Refusal::Member(mismatch) => Some(&mismatch.place),
            Refusal::Version1(place) => Some(place),
            _ => None,
        }
    }

    /// The line and the column at which the text is no JSON.
    pub fn line_and_column(&self) -> Option<(usize, usize)> {
        match self {
            Refusal::Json(error) => Some((error.line(), error.column())),
            Refusal::Text {
                fault: _,
                line,
                column,
            } => Some((*line, *column)),
            _ => None,
        }
    }
}

/// Why what is in a folder could not be looked at.
pub fn entry_refusal(error: io::Error) -> Refusal {
    match error.kind() {
        ErrorKind::InvalidFilename => Refusal::EntryName,
        _ => Refusal::Unreadable(error),
    }
}

impl From<AllocError> for Refusal {
    fn from(_refused: AllocError) -> Refusal {
        Refusal::Memory
    }
}
