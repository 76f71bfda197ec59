//! The place at which the table refuses a document.

ghost use Rattle.std.specs.Prelude.{◌≡◌, Err, IsUtf8};
ghost use Rattle.gltf_root.specs.Mismatch.{IsMismatchIn};
ghost use Rattle.gltf_root.specs.Place.{IsPlaceIn, IsFoundIn};
ghost use Rattle.gltf_root.specs.Root.{root_kind};

use super::Root;
use crate::found::Found;
use crate::mismatch::{Mismatch, mismatch_in_text};
use crate::text::{Place, found_in_text, refused_in_text};
use gltf_schema::Error;
use simdutf8::compat::from_utf8;
use std::alloc::Global;

impl Root {
    /// Returns the innermost place at which the bytes aren't a glTF document, or `None` if they are
    /// one. In an object that is in the first row that refuses its member, in the table's order, or
    /// the member if it is missing. In attributes it is the first member that is no index, in a
    /// list it is in the first item that is refused. It is an object or an array itself only if the
    /// value is none; an array of numbers also if they are too many or too few. Fails with `Json`
    /// if the bytes are no JSON. Out of memory, it may fail with `Memory` instead.
    ///
    /// It reads bytes again that [`Root::from_slice`] refused with `Schema`.
    pub fn refused_at(alloc: Global, bytes: &[u8]) -> Result<Option<Place>, Error>
        ensures text { IsUtf8 bytes.now → IsPlaceIn root_kind bytes.now result }
        ensures no_text { (IsUtf8 bytes.now → ⊥) → result ≡ Err Error.Json }
    {
        match from_utf8(bytes) {
            Ok(text) => refused_in_text::<Root>(alloc, text),
            Err(_) => Err(Error::Json),
        }
    }

    /// Returns the place that [`Root::refused_at`] returns, and what JSON is there. `None` and the
    /// errors are those of that call. It reads the bytes twice.
    pub fn refused_and_found(alloc: Global, bytes: &[u8]) -> Result<Option<(Place, Found)>, Error>
        ensures text { IsUtf8 bytes.now → IsFoundIn root_kind bytes.now result }
        ensures no_text { (IsUtf8 bytes.now → ⊥) → result ≡ Err Error.Json }
    {
        match from_utf8(bytes) {
            Ok(text) => found_in_text::<Root>(alloc, text),
            Err(_) => Err(Error::Json),
        }
    }
    /// Returns the place that [`Root::refused_at`] returns, what JSON the format wants there, and
    /// what is there. `None` and the errors are those of that call. It reads the bytes twice.
    pub fn mismatch_in(alloc: Global, bytes: &[u8]) -> Result<Option<Mismatch>, Error>
        ensures text { IsUtf8 bytes.now → IsMismatchIn root_kind bytes.now result }
        ensures no_text { (IsUtf8 bytes.now → ⊥) → result ≡ Err Error.Json }
    {
        match from_utf8(bytes) {
            Ok(text) => mismatch_in_text::<Root>(alloc, text),
            Err(_) => Err(Error::Json),
        }
    }
}
