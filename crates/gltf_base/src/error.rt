//! Why a document could not be read or written.

use std::alloc::{AllocError, AllocFailed};
use std::fmt;

/// Why a document could not be read or written. It has the kind only, and not the place.
#[derive(Debug, Drop)]
pub enum Error {
    /// The bytes are no JSON: a syntax error, an early end, nesting past 127 levels, or invalid
    /// UTF-8.
    Json,
    /// The JSON is no glTF document.
    Schema,
    /// The document holds an invalid enum value or attribute name.
    InvalidItem,
    /// The reader failed.
    Read,
    /// The writer failed, or took no byte.
    Write,
    /// Out of memory.
    Memory(AllocError),
    /// The input is longer than the limits allow, in bytes or in calls of the reader.
    TooLong,
}

impl fmt::Display for Error {
    ghost use Rattle.std.specs.Prelude.{Some};
    ghost use Rattle.gltf_base.specs.ErrorText.{error_text};

    ghost output = { λ e. Some (error_text e) };

    fn fmt<W: fmt::Write>(&self, f: &mut fmt::Formatter<W>) -> fmt::Result {
        f.write_str(match self {
            Error::Json => "not JSON",
            Error::Schema => "not a glTF document",
            Error::InvalidItem => "invalid item",
            Error::Read => "read failed",
            Error::Write => "write failed",
            Error::Memory(_) => "no memory",
            Error::TooLong => "input too long",
        })
    }
}

impl std::error::Error for Error {}

impl From<AllocError> for Error {
    ghost use Rattle.std.specs.Prelude.{◌≡◌};
    ghost use Rattle.gltf_base.specs.declared.error.Error.TheVariants.{Memory};

    ghost from_gives = { λ refused e. e ≡ Memory refused };

    fn from(refused: AllocError) -> Error {
        Error::Memory(refused)
    }
}

impl<T: Drop> From<AllocFailed<T>> for Error {
    ghost use Rattle.std.specs.Prelude.{◌≡◌, alloc_error};
    ghost use Rattle.gltf_base.specs.declared.error.Error.TheVariants.{Memory};

    ghost from_gives = { λ _ e. e ≡ Memory alloc_error };

    fn from(_refused: AllocFailed<T>) -> Error {
        Error::Memory(AllocError)
    }
}
