//! Findings with their positions in the JSON of a file.

ghost use Rattle.std.specs.Prelude.{◌≡◌, IfOk, length, map, string_bytes};
ghost use Rattle.std.specs.List.{AllZip};
ghost use Rattle.gltf_findings_lines.specs.Parts.{file_parts};
ghost use Rattle.gltf_findings_lines.specs.Placed.{ArePlaced, HasNone, HasPosition, file_json, placed_all, placed_one, pointer_in};

use crate::choices::Shown;
use crate::file::File;
use crate::finding::FindingPlace;
use crate::{Position, positions_of};
use simdutf8::compat::from_utf8;
use std::alloc::{AllocError, Global};

/// A finding that is printed, and where it is in the JSON of its file.
#[derive(Clone, Copy)]
pub(crate) struct Placed<'a> {
    pub(crate) shown: Shown<'a>,
    pub(crate) position: Option<Position>,
}

/// The findings of a file, with their positions if its JSON is no longer than a number of bytes.
/// This and the calls below fail only if out of memory.
pub(crate) fn placed_in<'a>(
    alloc: Global,
    up_to: u64,
    file: &File<'_>,
    shown: &[Shown<'a>],
) -> Result<Vec<Placed<'a>>, AllocError>
    ensures { IfOk result (λ placed.
        ArePlaced up_to (file_json (file_parts file.now)) shown.now placed.items) }
{
    let json = file_json(file);
    if json.len() as u64 > up_to {
        let placed = without_positions(alloc, shown)?;
        return Ok(placed);
    }
    let placed = placed_in_json(alloc, json, shown)?;
    Ok(placed)
}

/// The findings with their positions in a JSON text.
fn placed_in_json<'a>(
    alloc: Global,
    json: &[u8],
    shown: &[Shown<'a>],
) -> Result<Vec<Placed<'a>>, AllocError>
    ensures { IfOk result (λ placed. AllZip (HasPosition json.now) shown.now placed.items) }
{
    if shown.is_empty() {
        return Ok(Vec::new(alloc));
    }
    match from_utf8(json) {
        Ok(text) => {
            let placed = placed_in_text(alloc, text, shown)?;
            Ok(placed)
        }
        Err(_) => {
            let placed = without_positions(alloc, shown)?;
            Ok(placed)
        }
    }
}

/// The JSON of a file. That of a container that can't be read is empty.
fn file_json<'a>(file: &File<'a>) -> &'a [u8]
    ensures { result.now ≡ file_json (file_parts file.now) }
{
    match file.parts() {
        Ok(parts) => parts.json,
        Err(_) => &[],
    }
}

/// The findings without positions.
fn without_positions<'a>(alloc: Global, shown: &[Shown<'a>]) -> Result<Vec<Placed<'a>>, AllocError>
    ensures { IfOk result (λ placed. AllZip HasNone shown.now placed.items) }
{
    let mut placed = Vec::new(alloc);
    for one in shown {
        placed.push(Placed {
            shown: *one,
            position: None,
        })?;
    }
    Ok(placed)
}

/// The same in a text.
fn placed_in_text<'a>(
    alloc: Global,
    text: &str,
    shown: &[Shown<'a>],
) -> Result<Vec<Placed<'a>>, AllocError>
    ensures { IfOk result (λ placed. AllZip (HasPosition text.now) shown.now placed.items) }
{
    let pointers = pointers_of(alloc, shown)?;
    match positions_of(alloc, text, &pointers)? {
        Some(positions) => {
            let placed = placed_at(alloc, shown, &positions)?;
            Ok(placed)
        }
        None => {
            let placed = without_positions(alloc, shown)?;
            Ok(placed)
        }
    }
}

/// The pointers of findings. That of an offset is empty.
fn pointers_of(alloc: Global, shown: &[Shown<'_>]) -> Result<Vec<String>, AllocError>
    ensures { IfOk result (λ pointers. map string_bytes pointers.items
        ≡ map pointer_in shown.now) }
{
    let mut pointers = Vec::new(alloc);
    for one in shown {
        pointers.push(one.finding.location.pointer(alloc)?)?;
    }
    Ok(pointers)
}

/// The findings at positions, one for each.
fn placed_at<'a>(
    alloc: Global,
    shown: &[Shown<'a>],
    positions: &[Position],
) -> Result<Vec<Placed<'a>>, AllocError>
    requires { length shown.now ≡ length positions.now }
    ensures { IfOk result (λ placed. placed.items ≡ placed_all shown.now positions.now) }
{
    let mut placed = Vec::new(alloc);
    for i in 0..shown.len() {
        placed.push(placed_one(shown[i], positions[i]))?;
    }
    Ok(placed)
}

/// A finding at a position. An offset in a container has none.
fn placed_one<'a>(shown: Shown<'a>, position: Position) -> Placed<'a>
    ensures { result ≡ placed_one shown.entry position }
{
    match shown.finding.location {
        FindingPlace::Byte(_) => Placed {
            shown,
            position: None,
        },
        FindingPlace::Subject(_) | FindingPlace::Pointer(_) => Placed {
            shown,
            position: Some(position),
        },
    }
}
