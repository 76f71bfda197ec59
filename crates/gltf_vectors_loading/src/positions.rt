//! Lines and columns of values in JSON, worked by hand.

use gltf_findings_lines::{Position, positions_of};
use gltf_vectors::holds;
use std::alloc::{AllocError, Global};
use std::test::Fail;

/// A text of three lines: a list, a name with an escape, a text with a byte past ASCII, and two
/// members of one name.
const TEXT: &str =
    "{\n \"a\": [1, {\"b\": null}],\r\n\t\"a\\u002fb\": \"\u{e9}\", \"~\": true, \"b\": 0, \"b\": [2]}";

/// The whole, values, and places that aren't there: each of these leads as far as it can.
const POINTERS: &[&str] = &[
    "", "/a", "/a/0", "/a/1/b", "/a/1/b/x", "/a/2", "/a/01", "/a~1b", "/~0", "/b", "/b/0", "/c/d",
];

/// The lines and columns of these.
const PLACES: &[(u32, u32)] = &[
    (1, 1),
    (2, 7),
    (2, 8),
    (2, 17),
    (2, 17),
    (2, 7),
    (2, 7),
    (3, 14),
    (3, 25),
    (3, 44),
    (3, 45),
    (1, 1),
];

/// Texts as the pointers that a call takes.
fn pointers_of(alloc: Global, texts: &[&str]) -> Result<Vec<String>, AllocError> {
    let mut pointers = Vec::new(alloc);
    for text in texts {
        pointers.push(String::from_str(alloc, text)?)?;
    }
    Ok(pointers)
}

/// Whether positions are these lines and columns.
fn are_at(positions: &[Position], places: &[(u32, u32)]) -> bool {
    if positions.len() != places.len() {
        return false;
    }
    for (position, place) in positions.iter().zip(places) {
        if position.line != place.0 || position.column != place.1 {
            return false;
        }
    }
    true
}

/// Whether all pointers lead to their places.
fn are_found(alloc: Global) -> Result<bool, AllocError> {
    let pointers = pointers_of(alloc, POINTERS)?;
    match positions_of(alloc, TEXT, &pointers)? {
        Some(positions) => Ok(are_at(&positions, PLACES)),
        None => Ok(false),
    }
}

#[test]
fn values_are_where_pointers_lead(rt: HostRuntime) -> Result<(), Fail> {
    holds(are_found(rt.alloc())?, "each pointer leads to its place")
}

#[test]
fn what_is_no_json_has_no_places(rt: HostRuntime) -> Result<(), Fail> {
    let pointers = pointers_of(rt.alloc(), POINTERS)?;
    let positions = positions_of(rt.alloc(), "{\"a\": [1,]}", &pointers)?;
    holds(positions.is_none(), "what is no JSON has no places")
}
