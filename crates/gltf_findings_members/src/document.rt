//! A look at the members of a document.

ghost use Rattle.std.specs.Prelude.{◌≡◌, ◌+◌, if◌then◌else◌, false, true, ℕ, List, IfOk, IsTrue, None, OnOk, Some, length, option_map};
ghost use Rattle.std.specs.BTreeSet.{contains_text};
ghost use Rattle.json.specs.Json as tree;
ghost use Rattle.gltf_schema.specs.declared.outline.Member.{Member as Row};
ghost use Rattle.json.specs.Json.{members};
ghost use Rattle.gltf_findings_members.specs.Document.{IsQuietRoot, SeesMembers, UsedNext, is_fixed, is_kept, is_needed_name};
ghost use Rattle.gltf_findings_members.specs.Look.{Looks};
ghost use Rattle.gltf_findings_members.specs.Rows.{row_named};
ghost use Rattle.gltf_findings_members.specs.Seen.{AreUsed, IsQuietRow};

use crate::root_lists::{look_listed, look_used, take_text};
use crate::rows::{is_needed, is_target};
use crate::seen::{MOST_ROWS, has_all, note_seen, place_of, row_at};
use crate::table::Table;
use gltf_schema::Member;
use json::{Invalid, Reader};
use std::alloc::Global;
use std::collections::BTreeSet;

/// What a look at the members of a document sees.
#[derive(Drop)]
pub(crate) struct Seen {
    /// The names of members that may have notices.
    pub(crate) loud: BTreeSet<String>,
    /// The extensions that the document lists as used, if it has a list.
    pub(crate) used: Option<BTreeSet<String>>,
    /// Whether the document has all members that it has to have.
    pub(crate) is_whole: bool,
    /// Whether a member that may have notices came before the list of used extensions. No clause
    /// says so: it is a reason to look once more.
    pub(crate) is_late: bool,
    /// How many members come up to the last one that an excerpt keeps.
    pub(crate) reach: usize,
}

/// Looks at the members of a document behind its brace. Until the list of used extensions comes,
/// those of the table are taken to be used.
pub(crate) fn look_document(
    reader: &mut Reader<'_>,
    depth: usize,
    rows: &[Member],
    table: &Table<'_>,
) -> Result<Seen, Invalid>
    ensures { IfOk result (λ seen. (js : tree.Members)
        × (members (tree.value depth) (length reader.old) reader.old ≡ Some (js, reader.new))
        × SeesMembers table.now rows.now seen js) }
{
    let mut loud = BTreeSet::new(table.alloc);
    let mut used = None;
    let mut seen = [false; MOST_ROWS];
    let mut is_late = false;
    let mut count = 0;
    let mut reach = 0;
    'members: while let Some(name) = reader.next_key()? {
        let place = place_of(rows, name);
        note_seen(&mut seen, place);
        let row = row_at(rows, place, name);
        let is_quiet = look_root_member(reader, depth, name, row, rows, table, &mut used)?;
        is_late = is_late | (!is_quiet & used.is_none());
        note_loud(table.alloc, &mut loud, name, is_quiet)?;
        count = one_more(count)?;
        reach = reach_of(is_kept(&loud, rows, name, is_quiet), count, reach);
    }
    let is_whole = has_all(rows, &seen, &[]) & !is_target(rows);
    Ok(Seen {
        loud,
        used,
        is_whole,
        is_late,
        reach,
    })
}

/// A number and one.
fn one_more(count: usize) -> Result<usize, Invalid>
    ensures { IfOk result (λ more. more ≡ count + 1) }
{
    if count == usize::MAX {
        return Err(Invalid);
    }
    Ok(count + 1)
}

/// How many members come up to the last that is kept, if these were read.
fn reach_of(is_kept: bool, count: usize, reach: usize) -> usize
    ensures { result ≡ if is_kept then count else reach }
{
    if is_kept { count } else { reach }
}

/// Whether an excerpt keeps the members of a name. One that may have notices is noted, and so it
/// isn't looked up.
fn is_kept(loud: &BTreeSet<String>, rows: &[Member], name: &str, is_quiet: bool) -> bool
    requires { is_quiet ≡ false → contains_text loud.now name.now ≡ true }
    ensures { result ≡ is_kept loud.now rows.now name.now }
{
    !is_quiet || loud.contains(name) || is_fixed(rows, name)
}

/// Whether any excerpt keeps the members of a name.
fn is_fixed(rows: &[Member], name: &str) -> bool
    ensures { result ≡ is_fixed rows.now name.now }
{
    // derived
    name == "extensionsUsed" || name == "asset" || is_needed_name(rows, name)
}

/// Whether a row needs the member of a name.
fn is_needed_name(rows: &[Member], name: &str) -> bool
    ensures { result ≡ is_needed_name rows.now name.now }
{
    for row in rows {
        if is_needed(row) && row.name == name {
            return true;
        }
    }
    false
}

/// Notes the name of a member that may have notices.
fn note_loud(
    alloc: Global,
    loud: &mut BTreeSet<String>,
    name: &str,
    is_quiet: bool,
) -> Result<(), Invalid>
    ensures kept { OnOk result ((q : List ℕ) → contains_text loud.old q ≡ true
        → contains_text loud.new q ≡ true) }
    ensures noted { OnOk result (is_quiet ≡ false → contains_text loud.new name.now ≡ true) }
    ensures same { OnOk result ((q : List ℕ) → is_quiet ≡ true
        → contains_text loud.new q ≡ contains_text loud.old q) }
{
    if is_quiet {
        return Ok(());
    }
    take_text(alloc, loud, name)?;
    Ok(())
}

/// Looks at a member of a document. If it is the list of used extensions, it is taken in.
fn look_root_member(
    reader: &mut Reader<'_>,
    depth: usize,
    name: &str,
    row: Option<&Member>,
    rows: &[Member],
    table: &Table<'_>,
    used: &mut Option<BTreeSet<String>>,
) -> Result<bool, Invalid>
    requires { option_map (λ m. m.now) row ≡ row_named name.now rows.now }
    ensures { IfOk result (λ quiet. (j : tree.Json)
        × (tree.value depth reader.old ≡ Some (j, reader.new))
        × UsedNext name.now j used.old used.new
        × (IsTrue quiet → IsQuietRoot table.now rows.now name.now used.new j)) }
{
    match name {
        "extensionsUsed" => {
            let texts = look_first_used(reader, depth, row, table, used)?;
            *used = Some(texts);
            Ok(true)
        }
        _ => {
            let quiet = look_beside(reader, depth, name, row, rows, table, used)?;
            Ok(quiet)
        }
    }
}

/// Looks at the list of used extensions. Fails if there was one before.
fn look_first_used(
    reader: &mut Reader<'_>,
    depth: usize,
    row: Option<&Member>,
    table: &Table<'_>,
    used: &Option<BTreeSet<String>>,
) -> Result<BTreeSet<String>, Invalid>
    ensures { IfOk result (λ texts. (used.now ≡ None) × ((m : Row)
        × (option_map (λ m. m.now) row.entry ≡ Some m)
        × (j : tree.Json) × (tree.value depth reader.old ≡ Some (j, reader.new))
        × AreUsed texts j × IsQuietRow table.now m j)) }
{
    match used {
        Some(_) => Err(Invalid),
        None => {
            let texts = look_used(reader, depth, row, table)?;
            Ok(texts)
        }
    }
}

/// Looks at a member of a document beside the list of used extensions, if that came before.
fn look_beside(
    reader: &mut Reader<'_>,
    depth: usize,
    name: &str,
    row: Option<&Member>,
    rows: &[Member],
    table: &Table<'_>,
    used: &Option<BTreeSet<String>>,
) -> Result<bool, Invalid>
    requires { option_map (λ m. m.now) row ≡ row_named name.now rows.now }
    ensures { IfOk result (λ quiet. Looks (IsQuietRoot table.now rows.now name.now used.now) depth
        reader.old quiet reader.new) }
{
    match used {
        Some(texts) => {
            let listed = Table {
                alloc: table.alloc,
                nodes: table.nodes,
                used: texts,
                known: table.known,
            };
            let quiet = look_listed(reader, depth, name, row, rows, &listed)?;
            Ok(quiet)
        }
        None => {
            let quiet = look_listed(reader, depth, name, row, rows, table)?;
            Ok(quiet)
        }
    }
}
