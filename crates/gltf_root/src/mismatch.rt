//! Why the table refuses a text.

ghost use Rattle.std.specs.Prelude.{map};
ghost use Rattle.gltf_schema.specs.Kind.{Object as object_kind};
ghost use Rattle.gltf_schema.specs.RowPlacing.{owned_step};
ghost use Rattle.gltf_root.specs.Mismatch.{IsMismatchAt, IsMismatchIn};

use crate::found::Found;
use crate::text::{Place, json_in};
use crate::wanted::{Wanted, wanted_at};
use gltf_schema::{Error, Object, Outline, OwnedStep, Refusal, Schema};
use std::alloc::Global;
use std::fmt::{self, Display, Formatter, Write};

/// Why JSON is no glTF document: where, and what is wanted and found there.
#[derive(Clone, Debug, Drop, PartialEq)]
pub struct Mismatch {
    /// The innermost place that is refused.
    pub place: Place,
    /// What JSON the format wants there.
    pub wanted: Wanted,
    /// What JSON is there.
    pub found: Found,
}

impl Display for Mismatch {
    ghost use Rattle.std.specs.Prelude.{Some};
    ghost use Rattle.gltf_root.specs.Mismatch.{mismatch_text};

    ghost output = { λ mismatch. Some (mismatch_text mismatch) };

    /// As `accessors[0].count: wanted a whole number below 2^64, found a text`.
    fn fmt<W: Write>(&self, f: &mut Formatter<W>) -> fmt::Result {
        write!(
            f,
            "{}: wanted {}, found {}",
            self.place, self.wanted, self.found
        )
    }
}

/// Returns why the table refuses a text, or `None` if it reads it. Fails with `Json` if the text is
/// no JSON. Out of memory, it may fail with `Memory` instead. It reads the text again for what is
/// there.
pub(crate) fn mismatch_in_text<T: Object>(
    alloc: Global,
    text: &str,
) -> Result<Option<Mismatch>, Error>
    ensures { IsMismatchIn (object_kind T.rule T.rows T.keeps) text.now result }
{
    let value = match json_in(alloc, text) {
        Ok(value) => value,
        Err(e) => return Err(e),
    };
    match T::decode_or_place(alloc, value) {
        Ok(_) => Ok(None),
        Err(Refusal::At(steps)) => mismatch_at::<T>(alloc, text, &steps),
        Err(Refusal::Memory(refused)) => Err(Error::Memory(refused)),
    }
}

/// Returns what is wanted and found at the end of the steps, if the table has such a place.
fn mismatch_at<T: Object>(
    alloc: Global,
    text: &str,
    steps: &[OwnedStep],
) -> Result<Option<Mismatch>, Error>
    ensures { IsMismatchAt (object_kind T.rule T.rows T.keeps) text.now
        (map owned_step steps.now) result }
{
    let outline = Outline::of::<T>(alloc)?;
    let Some(wanted) = wanted_at(&outline.nodes, outline.root, steps) else {
        return Ok(None);
    };
    let place = Place::of(alloc, steps)?;
    match json_in(alloc, text) {
        Ok(value) => {
            let found = Found::of(value.pointer(place.pointer.as_str()));
            Ok(Some(Mismatch {
                place,
                wanted,
                found,
            }))
        }
        Err(e) => Err(e),
    }
}
