//! Looks at indexes and attributes, and at what may hold anything.

ghost use Rattle.std.specs.Prelude.{◌≡◌, ◌∷◌, ℕ, IfOk, IsTrue, None, OnOk, Some};
ghost use Rattle.json.specs.Json as tree;
ghost use Rattle.json.specs.Json.{value};
ghost use Rattle.json.specs.Reads.{token_of};
ghost use Rattle.gltf_findings_members.specs.Format.{extras_code, unknown_extension_code};
ghost use Rattle.gltf_findings_members.specs.Look.{AreAttributes, AreIndexes, Beside, IsIndexBehind, IsQuietAttribute, Looks, LooksAtItems, LooksAtMembers, Skips, SkipsMembers};
ghost use Rattle.gltf_findings_members.specs.Quiet.{Reading};

use crate::attribute::is_attribute;
use crate::lists::is_new;
use crate::table::Table;
use crate::wanted::is_index;
use gltf_schema::whole_in;
use json::{Invalid, Reader, Token};
use std::alloc::Global;
use std::collections::BTreeSet;

/// The text of the number that is next.
#[inline(always)]
fn next_number<'a>(reader: &mut Reader<'a>) -> Result<&'a str, Invalid>
    ensures { IfOk result (λ text. (depth : ℕ) → value depth reader.old
        ≡ Some (tree.number text.now, reader.new)) }
{
    let token = reader.next().ok_or(Invalid)?;
    match token {
        Token::Number(text) => Ok(text),
        _ => Err(Invalid),
    }
}

/// Looks at a list of indexes behind its bracket, each of which must be listed once.
pub(crate) fn look_indexes(
    reader: &mut Reader<'_>,
    depth: usize,
    alloc: Global,
) -> Result<bool, Invalid>
    ensures { IfOk result (λ quiet. LooksAtItems AreIndexes depth reader.old quiet reader.new) }
{
    let mut before: BTreeSet<u64> = BTreeSet::new(alloc);
    let mut are_quiet = true;
    let mut is_empty = true;
    'items: while !reader.take_end_array() {
        let text = next_number(reader)?;
        let is_quiet = add_index(&mut before, text)?;
        are_quiet = are_quiet & is_quiet;
        is_empty = false;
    }
    Ok(are_quiet & !is_empty)
}

/// Adds an index to those before. Returns whether it is one, and is none of them.
fn add_index(before: &mut BTreeSet<u64>, text: &str) -> Result<bool, Invalid>
    ensures { IfOk result (λ quiet. IsTrue quiet
        → IsIndexBehind before.old.keys before.new.keys (tree.number text.now)) }
{
    let Some(number) = whole_in(text) else {
        return Ok(false);
    };
    match is_new(before, number) {
        Ok(is_new) => Ok(is_new && number < 0x1_0000_0000),
        Err(_) => Err(Invalid),
    }
}

/// Looks at the attributes of a primitive behind their brace.
pub(crate) fn look_attributes(reader: &mut Reader<'_>, depth: usize) -> Result<bool, Invalid>
    ensures { IfOk result
        (λ quiet. LooksAtMembers AreAttributes depth reader.old quiet reader.new) }
{
    let mut are_quiet = true;
    let mut is_empty = true;
    'members: while let Some(name) = reader.next_key()? {
        let text = next_number(reader)?;
        let is_quiet = is_quiet_attribute(name, text);
        are_quiet = are_quiet & is_quiet;
        is_empty = false;
    }
    Ok(are_quiet & !is_empty)
}

/// Whether an attribute has no notices.
fn is_quiet_attribute(name: &str, text: &str) -> bool
    ensures { IsTrue result → IsQuietAttribute name.now (tree.number text.now) }
{
    is_attribute(name) && is_index(text)
}

/// Passes the members of an object behind its brace.
#[inline(never)]
fn skip_members(reader: &mut Reader<'_>, depth: usize) -> Result<(), Invalid>
    ensures { OnOk result (SkipsMembers depth reader.old reader.new) }
{
    'members: while let Some(_name) = reader.next_key()? {
        reader.skip_value(depth)?;
    }
    Ok(())
}

/// Passes an object that begins with a token, which was taken from the text.
fn skip_object<'a>(token: Token<'a>, reader: &mut Reader<'a>, depth: usize) -> Result<(), Invalid>
    ensures { OnOk result (Skips depth (token_of token.entry ∷ reader.old) reader.new) }
{
    match token {
        Token::BeginObject if depth > 0 => {
            skip_members(reader, depth - 1)?;
            Ok(())
        }
        _ => Err(Invalid),
    }
}

/// Looks at extras, which are null or an object.
pub(crate) fn look_extras(reader: &mut Reader<'_>, depth: usize) -> Result<bool, Invalid>
    ensures { IfOk result (λ quiet. Looks (λ j. Reading j (λ d. extras_code d ≡ None)) depth
        reader.old quiet reader.new) }
{
    let token = reader.next().ok_or(Invalid)?;
    match token {
        Token::Null => Ok(true),
        Token::String(_) => Ok(false),
        Token::Number(_) => Ok(false),
        Token::Bool(_) => Ok(false),
        _ => {
            skip_object(token, reader, depth)?;
            Ok(true)
        }
    }
}

/// Looks at an extension object that the object's rows don't name.
pub(crate) fn look_unknown(
    reader: &mut Reader<'_>,
    depth: usize,
    name: &str,
    table: &Table<'_>,
) -> Result<bool, Invalid>
    ensures { IfOk result (λ quiet. Looks (λ j. Beside table.now (λ f. Reading j
        (λ d. unknown_extension_code f name.now d ≡ None))) depth reader.old quiet reader.new) }
{
    let token = reader.next().ok_or(Invalid)?;
    skip_object(token, reader, depth)?;
    Ok(!table.knows(name))
}
