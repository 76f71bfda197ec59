//! The parts of a JSON pointer (RFC 6901).

ghost use Rattle.std.specs.Prelude.{◌≡◌, ◌++◌, ◌==◌, encode_utf8, IfOk, OnOk, map, string_bytes, slice_index};
ghost use Rattle.std.specs.List.{slice_split};
ghost use Rattle.serde_json.specs.Find.{index_of};
ghost use Rattle.gltf_base.specs.Pointers.{escaped};

use fast_float::Numeral;
use std::alloc::{AllocError, Global};

/// The parts of a pointer, behind what stands in front of the first slash.
pub(crate) fn split(alloc: Global, pointer: &str) -> Result<Vec<&str>, AllocError>
    ensures { IfOk result (λ parts. map (λ p. p.now) parts.items
        ≡ slice_split (λ c. c == 47) pointer.now) }
{
    pointer.split('/').collect(alloc)
}

/// The number of an item, if a part is one.
pub(crate) fn index_of(part: &str) -> Option<usize>
    ensures { result ≡ index_of part.now }
{
    let bytes = part.as_bytes();
    let numeral = Numeral::scan(bytes);
    let index = numeral.to_u64()?;
    if (numeral.len() == bytes.len()) & ((bytes.len() == 1) | !starts_with_zero(bytes)) {
        Some(index as usize)
    } else {
        None
    }
}

fn starts_with_zero(bytes: &[u8]) -> bool
    ensures { result ≡ (slice_index bytes.now 0 == 48) }
{
    !bytes.is_empty() && bytes[0] == b'0'
}

/// The part by which a pointer leads to a member of this name.
pub(crate) fn part_of(alloc: Global, name: &str) -> Result<String, AllocError>
    ensures { IfOk result (λ part. string_bytes part ≡ escaped name.now) }
{
    let mut part = String::new(alloc);
    for character in name.chars() {
        push_character(&mut part, character)?;
    }
    Ok(part)
}

fn push_character(part: &mut String, character: char) -> Result<(), AllocError>
    ensures { OnOk result (string_bytes part.new
        ≡ string_bytes part.old ++ escaped (encode_utf8 character)) }
{
    match character {
        '~' => part.push_str("~0"),
        '/' => part.push_str("~1"),
        _ => part.push(character),
    }
}
