//! Looks at those lists of a document of which more is wanted than their rows say.

ghost use Rattle.std.specs.Prelude.{◌≡◌, ◌||◌, [], ℕ, IfOk, List, OnOk, Some, bytes_eq, length, option_map};
ghost use Rattle.std.specs.BTreeSet.{contains_text};
ghost use Rattle.json.specs.Json as tree;
ghost use Rattle.gltf_base.specs.Steps.{Step};
ghost use Rattle.gltf_findings_members.specs.Look.{Beside, HaveNames, Looks};
ghost use Rattle.gltf_findings_members.specs.Quiet.{Reading};
ghost use Rattle.gltf_findings_members.specs.Rows.{row_named};
ghost use Rattle.gltf_findings_members.specs.Seen.{AreTexts, AreUsed, IsFullList, IsQuietRow};
ghost use Rattle.gltf_findings_members.specs.Walk.{member_notice};

use crate::look::{look_list, look_member};
use crate::table::Table;
use crate::uses::add_text;
use gltf_schema::{Member, Shape};
use json::{Invalid, Reader, Token};
use std::alloc::Global;
use std::collections::BTreeSet;

/// Looks at a member of a document which may be a list whose items have to have members that the
/// table reads as if they were there.
pub(crate) fn look_listed(
    reader: &mut Reader<'_>,
    depth: usize,
    name: &str,
    row: Option<&Member>,
    rows: &[Member],
    table: &Table<'_>,
) -> Result<bool, Invalid>
    requires { option_map (λ m. m.now) row ≡ row_named name.now rows.now }
    ensures { IfOk result (λ quiet. Looks (λ j. Beside table.now (λ f. (at : List Step)
        → Reading j (λ d. member_notice f rows.now at name.now d ≡ [])) × IsFullList name.now j)
        depth reader.old quiet reader.new) }
{
    match name {
        "animations" => {
            let quiet = look_items_with(reader, depth, row, &["channels", "samplers"], table)?;
            Ok(quiet)
        }
        "buffers" => {
            let quiet = look_items_with(reader, depth, row, &["byteLength"], table)?;
            Ok(quiet)
        }
        "skins" => {
            let quiet = look_items_with(reader, depth, row, &["joints"], table)?;
            Ok(quiet)
        }
        _ => look_member(reader, depth, name, row, rows, table),
    }
}

/// Looks at a list whose items must have the members of some names if they are objects.
fn look_items_with(
    reader: &mut Reader<'_>,
    depth: usize,
    row: Option<&Member>,
    names: &[&str],
    table: &Table<'_>,
) -> Result<bool, Invalid>
    ensures { IfOk result (λ quiet. (m : Member) × (option_map (λ m. m.now) row.entry ≡ Some m)
        × Looks (λ j. IsQuietRow table.now m j × ((js : tree.Items) × (j ≡ tree.array js)
        × HaveNames names.now js)) depth reader.old quiet reader.new) }
{
    let row = row.ok_or(Invalid)?;
    let Some(Shape::List(item)) = table.shape(row.value) else {
        return Err(Invalid);
    };
    let token = reader.next().ok_or(Invalid)?;
    match token {
        Token::BeginArray if depth > 0 => {
            let quiet = look_list(reader, depth - 1, table.shape(*item), names, table)?;
            Ok(quiet)
        }
        _ => Err(Invalid),
    }
}

/// Looks at the list of used extensions. Returns the names in it. Fails if it lists none, or
/// anything else.
pub(crate) fn look_used(
    reader: &mut Reader<'_>,
    depth: usize,
    row: Option<&Member>,
    table: &Table<'_>,
) -> Result<BTreeSet<String>, Invalid>
    ensures { IfOk result (λ texts. (m : Member) × (option_map (λ m. m.now) row.entry ≡ Some m)
        × (j : tree.Json) × (tree.value depth reader.old ≡ Some (j, reader.new))
        × AreUsed texts j × IsQuietRow table.now m j) }
{
    let row = row.ok_or(Invalid)?;
    let Some(Shape::List(item)) = table.shape(row.value) else {
        return Err(Invalid);
    };
    let Some(Shape::Text) = table.shape(*item) else {
        return Err(Invalid);
    };
    let token = reader.next().ok_or(Invalid)?;
    match token {
        Token::BeginArray if depth > 0 => {
            let texts = look_texts(reader, depth - 1, table.alloc)?;
            Ok(texts)
        }
        _ => Err(Invalid),
    }
}

/// Reads the texts of a list behind its bracket. Fails if it lists none, or anything else.
fn look_texts(
    reader: &mut Reader<'_>,
    depth: usize,
    alloc: Global,
) -> Result<BTreeSet<String>, Invalid>
    ensures { IfOk result (λ texts. (js : tree.Items)
        × (tree.items (tree.value depth) (length reader.old) reader.old ≡ Some (js, reader.new))
        × AreTexts texts js) }
{
    let mut texts = BTreeSet::new(alloc);
    let mut is_empty = true;
    'items: while !reader.take_end_array() {
        let text = next_text(reader)?;
        take_text(alloc, &mut texts, text)?;
        is_empty = false;
    }
    if is_empty {
        return Err(Invalid);
    }
    Ok(texts)
}

/// The text that is next.
#[inline(always)]
fn next_text<'a>(reader: &mut Reader<'a>) -> Result<&'a str, Invalid>
    ensures { IfOk result (λ text. (depth : ℕ) → tree.value depth reader.old
        ≡ Some (tree.string text.now, reader.new)) }
{
    let token = reader.next().ok_or(Invalid)?;
    match token {
        Token::String(text) => Ok(text),
        _ => Err(Invalid),
    }
}

/// Adds a text.
pub(crate) fn take_text(
    alloc: Global,
    texts: &mut BTreeSet<String>,
    text: &str,
) -> Result<(), Invalid>
    ensures { OnOk result ((q : List ℕ) → contains_text texts.new q
        ≡ (contains_text texts.old q || bytes_eq text.now q)) }
{
    match add_text(alloc, texts, text) {
        Ok(()) => Ok(()),
        Err(_) => Err(Invalid),
    }
}
