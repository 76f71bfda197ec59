//! A look at the tokens of a text, after which most documents need no walk. It passes over values
//! beside the outline of their type. It returns whether they have no notices: `false` says nothing,
//! and an error says that the look can't go on.

ghost use Rattle.std.specs.Prelude.{◌≡◌, ◌+◌, ◌++◌, ◌∷◌, [], true, false, List, IfOk, IsTrue, Some, length, option_map};
ghost use Rattle.json.specs.Json as tree;
ghost use Rattle.json.specs.Json.{items};
ghost use Rattle.json.specs.Reads.{token_of};
ghost use Rattle.gltf_base.specs.Steps.{Step};
ghost use Rattle.gltf_findings_members.specs.Format.{undeclared_code};
ghost use Rattle.gltf_findings_members.specs.Look.{AreQuietItemsOf, AreQuietListOf, AreQuietMembersOf, Beside, count_of, HasNames, Looks, LooksAtItems, LooksAtMembers};
ghost use Rattle.gltf_findings_members.specs.Noted.{maybe_note};
ghost use Rattle.gltf_findings_members.specs.Quiet.{AreQuietBy, IsQuiet, Reading};
ghost use Rattle.gltf_findings_members.specs.Rows.{or_null, row_named, is_target as is_target_of};
ghost use Rattle.gltf_findings_members.specs.Walk.{extension_members_notices, extension_notice, extensions_notices, member_notice, row_notices};

use crate::listed::{look_attributes, look_extras, look_indexes, look_unknown};
use crate::members::extension_row;
use crate::rows::{is_target, unknown_code};
use crate::seen::{MOST_ROWS, has_all, note_seen, place_of, row_at};
use crate::table::Table;
use crate::wanted::{may_be_any, may_be_number, may_be_text, may_be_truth};
use gltf_schema::{Member, Presence, Shape};
use json::{Invalid, Reader, Token};

/// Looks at the value that is next, which must have the members of some names if it is an object.
#[cycle(look)]
#[inline(always)]
pub(crate) fn look(
    reader: &mut Reader<'_>,
    depth: usize,
    shape: Option<&Shape>,
    names: &[&str],
    table: &Table<'_>,
) -> Result<bool, Invalid>
    ensures { IfOk result (λ quiet. Looks (λ j. Beside table.now (λ f. IsQuiet f
        (option_map (λ s. s.now) shape.entry) j) × HasNames names.now j) depth reader.old quiet
        reader.new) }
{
    let token = reader.next().ok_or(Invalid)?;
    let quiet = look_after(token, reader, depth, shape, names, table)?;
    Ok(quiet)
}

/// Looks at the value that begins with a token, which was taken from the text.
#[cycle(look)]
#[inline(always)]
fn look_after<'a>(
    token: Token<'a>,
    reader: &mut Reader<'a>,
    depth: usize,
    shape: Option<&Shape>,
    names: &[&str],
    table: &Table<'_>,
) -> Result<bool, Invalid>
    ensures { IfOk result (λ quiet. Looks (λ j. Beside table.now (λ f. IsQuiet f
        (option_map (λ s. s.now) shape.entry) j) × HasNames names.now j) depth
        (token_of token.entry ∷ reader.old) quiet reader.new) }
{
    match token {
        Token::BeginObject if depth > 0 => {
            let quiet = look_object(reader, depth - 1, shape, names, table)?;
            Ok(quiet)
        }
        Token::BeginArray if depth > 0 => {
            let quiet = look_array(reader, depth - 1, shape, table)?;
            Ok(quiet)
        }
        Token::String(_) => Ok(may_be_text(shape)),
        Token::Number(text) => Ok(may_be_number(shape, text)),
        Token::Bool(_) => Ok(may_be_truth(shape)),
        Token::Null => Ok(may_be_any(shape)),
        _ => Err(Invalid),
    }
}

/// Looks at the members of an object behind its brace.
#[cycle(look)]
#[inline(always)]
fn look_object(
    reader: &mut Reader<'_>,
    depth: usize,
    shape: Option<&Shape>,
    names: &[&str],
    table: &Table<'_>,
) -> Result<bool, Invalid>
    ensures { IfOk result (λ quiet. LooksAtMembers (λ js. Beside table.now (λ f. IsQuiet f
        (option_map (λ s. s.now) shape.entry) (tree.object js))
        × HasNames names.now (tree.object js)) depth reader.old quiet reader.new) }
{
    match shape {
        Some(Shape::Object(rows, _)) => {
            let quiet = look_members(reader, depth, rows, names, table)?;
            Ok(quiet)
        }
        Some(Shape::Indexes(_)) => {
            let quiet = look_attributes(reader, depth)?;
            Ok(quiet & names.is_empty())
        }
        _ => Err(Invalid),
    }
}

/// Looks at the items of an array behind its bracket.
#[cycle(look)]
#[inline(always)]
fn look_array(
    reader: &mut Reader<'_>,
    depth: usize,
    shape: Option<&Shape>,
    table: &Table<'_>,
) -> Result<bool, Invalid>
    ensures { IfOk result (λ quiet. LooksAtItems (λ js. Beside table.now (λ f. IsQuiet f
        (option_map (λ s. s.now) shape.entry) (tree.array js))) depth reader.old quiet reader.new) }
{
    match shape {
        Some(Shape::List(item)) => {
            let quiet = look_list(reader, depth, table.shape(*item), &[], table)?;
            Ok(quiet)
        }
        Some(Shape::Numbers(count, item)) => {
            let mut left = *count;
            let quiet = look_items(reader, depth, table.shape(*item), &[], &mut left, table)?;
            Ok(quiet & (left == 0))
        }
        _ => Err(Invalid),
    }
}

/// Looks at the items of a list that must not be empty. Each item must have the members of some
/// names if it is an object.
#[cycle(look)]
pub(crate) fn look_list(
    reader: &mut Reader<'_>,
    depth: usize,
    shape: Option<&Shape>,
    names: &[&str],
    table: &Table<'_>,
) -> Result<bool, Invalid>
    ensures { IfOk result (λ quiet. LooksAtItems (AreQuietListOf table.now
        (option_map (λ s. s.now) shape.entry) names.now) depth reader.old quiet reader.new) }
{
    match shape {
        Some(Shape::Whole32) if names.is_empty() => {
            let quiet = look_indexes(reader, depth, table.alloc)?;
            Ok(quiet)
        }
        Some(Shape::Whole32) => Err(Invalid),
        _ => {
            let mut left = usize::MAX;
            let quiet = look_items(reader, depth, shape, names, &mut left, table)?;
            Ok(quiet & (left < usize::MAX))
        }
    }
}

/// Looks at items, and takes their number from how many may be left.
#[cycle(look)]
#[inline(never)]
fn look_items(
    reader: &mut Reader<'_>,
    depth: usize,
    shape: Option<&Shape>,
    names: &[&str],
    left: &mut usize,
    table: &Table<'_>,
) -> Result<bool, Invalid>
    ensures { IfOk result (λ quiet. (js : tree.Items)
        × (items (tree.value depth) (length reader.old) reader.old ≡ Some (js, reader.new))
        × (left.old ≡ left.new + count_of js)
        × (IsTrue quiet → AreQuietItemsOf table.now (option_map (λ s. s.now) shape.entry) names.now
        js)) }
{
    let mut are_quiet = true;
    'items: while !reader.take_end_array() {
        if *left == 0 {
            return Err(Invalid);
        }
        *left -= 1;
        let is_quiet = look(reader, depth, shape, names, table)?;
        are_quiet = are_quiet & is_quiet;
    }
    Ok(are_quiet)
}

/// Looks at the members of an object of the table behind its brace.
#[cycle(look)]
#[inline(never)]
pub(crate) fn look_members(
    reader: &mut Reader<'_>,
    depth: usize,
    rows: &[Member],
    names: &[&str],
    table: &Table<'_>,
) -> Result<bool, Invalid>
    ensures { IfOk result (λ quiet. LooksAtMembers (AreQuietMembersOf table.now rows.now names.now)
        depth reader.old quiet reader.new) }
{
    let mut seen = [false; MOST_ROWS];
    let mut are_quiet = true;
    let mut is_empty = true;
    'members: while let Some(name) = reader.next_key()? {
        let place = place_of(rows, name);
        note_seen(&mut seen, place);
        let row = row_at(rows, place, name);
        let is_quiet = look_member(reader, depth, name, row, rows, table)?;
        are_quiet = are_quiet & is_quiet;
        is_empty = false;
    }
    Ok(are_quiet & has_all(rows, &seen, names) & is_filled(rows, is_empty))
}

/// Whether an object has members, if it is a morph target.
fn is_filled(rows: &[Member], is_empty: bool) -> bool
    ensures { IsTrue result → is_empty ≡ true → is_target_of rows.now ≡ false }
{
    !is_empty || !is_target(rows)
}

/// Looks at a member of an object.
#[cycle(look)]
#[inline(always)]
pub(crate) fn look_member(
    reader: &mut Reader<'_>,
    depth: usize,
    name: &str,
    row: Option<&Member>,
    rows: &[Member],
    table: &Table<'_>,
) -> Result<bool, Invalid>
    requires { option_map (λ m. m.now) row ≡ row_named name.now rows.now }
    ensures { IfOk result (λ quiet. Looks (λ j. Beside table.now (λ f. (at : List Step)
        → Reading j (λ d. member_notice f rows.now at name.now d ≡ []))) depth reader.old quiet
        reader.new) }
{
    match name {
        "extensions" => look_extensions(reader, depth, table.extension_rows(rows, row), table),
        "extras" => look_extras(reader, depth),
        _ => match row {
            Some(row) => look_row(reader, depth, row, table),
            None => {
                reader.skip_value(depth)?;
                Ok(unknown_code(rows, name).is_none())
            }
        },
    }
}

/// Looks at the member of a row.
#[cycle(look)]
#[inline(always)]
fn look_row(
    reader: &mut Reader<'_>,
    depth: usize,
    row: &Member,
    table: &Table<'_>,
) -> Result<bool, Invalid>
    ensures { IfOk result (λ quiet. Looks (λ j. Beside table.now (λ f. (at : List Step)
        → Reading j (λ d. row_notices f row.now at d ≡ []))) depth reader.old quiet reader.new) }
{
    let shape = table.shape(row.value);
    if may_be_any(shape) {
        reader.skip_value(depth)?;
        return Ok(true);
    }
    let token = reader.next().ok_or(Invalid)?;
    if let Token::Null = token {
        return Ok(may_be_null(row));
    }
    let quiet = look_after(token, reader, depth, shape, &[], table)?;
    Ok(quiet)
}

/// Whether the member of a row may be null.
fn may_be_null(row: &Member) -> bool
    ensures { result ≡ or_null row.now.presence }
{
    row.presence == Presence::OrNull
}

/// Looks at the extension objects of an object.
#[cycle(look)]
fn look_extensions(
    reader: &mut Reader<'_>,
    depth: usize,
    rows: Option<&Vec<Member>>,
    table: &Table<'_>,
) -> Result<bool, Invalid>
    ensures { IfOk result (λ quiet. Looks (λ j. Beside table.now (λ f. (at : List Step)
        → Reading j (λ d. extensions_notices f (option_map (λ rows. rows.now.items) rows.entry) at d
        ≡ []))) depth reader.old quiet reader.new) }
{
    let token = reader.next().ok_or(Invalid)?;
    match token {
        Token::Null => Ok(true),
        Token::BeginObject if depth > 0 => {
            let quiet = look_extension_members(reader, depth - 1, rows, table)?;
            Ok(quiet)
        }
        _ => Err(Invalid),
    }
}

/// Looks at each extension object behind the brace.
#[cycle(look)]
#[inline(never)]
fn look_extension_members(
    reader: &mut Reader<'_>,
    depth: usize,
    rows: Option<&Vec<Member>>,
    table: &Table<'_>,
) -> Result<bool, Invalid>
    ensures { IfOk result (λ quiet. LooksAtMembers (λ js. Beside table.now (λ f. AreQuietBy
        (extension_members_notices f (option_map (λ rows. rows.now.items) rows.entry)) js)) depth
        reader.old quiet reader.new) }
{
    let mut are_quiet = true;
    'members: while let Some(name) = reader.next_key()? {
        let is_quiet = look_extension(reader, depth, name, rows, table)?;
        are_quiet = are_quiet & is_quiet;
    }
    Ok(are_quiet)
}

/// Looks at an extension object.
#[cycle(look)]
fn look_extension(
    reader: &mut Reader<'_>,
    depth: usize,
    name: &str,
    rows: Option<&Vec<Member>>,
    table: &Table<'_>,
) -> Result<bool, Invalid>
    ensures { IfOk result (λ quiet. Looks (λ j. Beside table.now (λ f. (at : List Step)
        → Reading j (λ d. maybe_note at (undeclared_code f name.now) ++ extension_notice f
        (option_map (λ rows. rows.now.items) rows.entry) at name.now d ≡ []))) depth reader.old
        quiet reader.new) }
{
    let is_declared = table.undeclared_code(name).is_none();
    let quiet = look_extension_object(reader, depth, name, rows, table)?;
    Ok(quiet & is_declared)
}

/// Looks at an extension object, whether `extensionsUsed` lists it or not.
#[cycle(look)]
fn look_extension_object(
    reader: &mut Reader<'_>,
    depth: usize,
    name: &str,
    rows: Option<&Vec<Member>>,
    table: &Table<'_>,
) -> Result<bool, Invalid>
    ensures { IfOk result (λ quiet. Looks (λ j. Beside table.now (λ f. (at : List Step)
        → Reading j (λ d. extension_notice f (option_map (λ rows. rows.now.items) rows.entry) at
        name.now d ≡ []))) depth reader.old quiet reader.new) }
{
    match extension_row(rows, name) {
        Some(row) => {
            let quiet = look_row(reader, depth, row, table)?;
            Ok(quiet)
        }
        None => {
            let quiet = look_unknown(reader, depth, name, table)?;
            Ok(quiet)
        }
    }
}
