//! Where the values begin to which pointers lead.

ghost use Rattle.std.specs.Prelude.{◌≡◌, ◌<◌, ◌≤◌, IfOk, Some, length, slice_get};
ghost use Rattle.std.specs.List.{All, AllZip};
ghost use Rattle.gltf_findings_lines.specs.Found.{ArePlacesIn, ArePositions};

use crate::place::places_of;
use crate::starts::starts_of;
use json::{Error, Scratch, Tape};
use std::alloc::{AllocError, Global};

/// The length of the longest text in which values are looked for, in bytes.
pub const MAX_LEN: usize = json::MAX_LEN;

/// Where something begins in a text: its line, and its column in bytes. Both count from 1.
#[derive(Clone, Copy, Debug, PartialEq, Eq)]
pub struct Position {
    pub line: u32,
    pub column: u32,
}

/// Returns where the values begin in a JSON text to which JSON pointers (RFC 6901) lead, in the
/// order of the pointers. If a pointer leads to no value, the position is that of the last value
/// on its way: for a missing member, that of the object which lacks it. Of members with the same
/// name, the last one counts. A column counts bytes.
///
/// Returns `None` if the text is no JSON, nests deeper than 128 levels, or is longer than
/// [`MAX_LEN`] bytes. Fails only if out of memory. While it works it takes about ten times the
/// memory of the text. Its time is in proportion to the text, and n * log n for n pointers.
pub fn positions_of(
    alloc: Global,
    text: &str,
    pointers: &[String],
) -> Result<Option<Vec<Position>>, AllocError>
    ensures { IfOk result (ArePositions text.now pointers.now) }
{
    if text.len() > MAX_LEN {
        return Ok(None);
    }
    match places_in(alloc, text, pointers)? {
        Some(places) => {
            let starts = starts_of(alloc, text)?;
            let positions = positions_at(alloc, &places, &starts)?;
            Ok(Some(positions))
        }
        None => Ok(None),
    }
}

/// The numbers of the tokens of a text to which pointers lead, if it is JSON.
fn places_in(
    alloc: Global,
    text: &str,
    pointers: &[String],
) -> Result<Option<Vec<usize>>, AllocError>
    requires { length text.now ≤ MAX_LEN }
    ensures { IfOk result (ArePlacesIn text.now pointers.now) }
{
    let mut scratch = Scratch::new(alloc);
    match Tape::parse(text, &mut scratch, Vec::new(alloc)) {
        Ok(tape) => {
            let places = places_of(alloc, tape.nodes(), pointers)?;
            Ok(Some(places))
        }
        Err(Error::Invalid) => Ok(None),
        Err(_) => Err(AllocError),
    }
}

/// The positions of the tokens with these numbers.
fn positions_at(
    alloc: Global,
    places: &[usize],
    starts: &[Position],
) -> Result<Vec<Position>, AllocError>
    requires { All (λ n. n < length starts.now) places.now }
    ensures { IfOk result (λ positions. AllZip (λ n p. slice_get starts.now n ≡ Some p)
        places.now positions.items) }
{
    let mut positions = Vec::new(alloc);
    for place in places {
        positions.push(starts[*place])?;
    }
    Ok(positions)
}
