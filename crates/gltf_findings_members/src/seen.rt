//! Which rows of an object have their member.

ghost use Rattle.std.specs.Prelude.{◌≡◌, ℕ, true, false, IsTrue, get_or, option_map};
ghost use Rattle.gltf_findings_members.specs.Look.{IsNameSeen, IsNoted, IsPlaceOf, NamesSeen, NeededSeen};
ghost use Rattle.gltf_findings_members.specs.Rows.{row_named};

use crate::rows::{is_needed, is_required};
use gltf_schema::Member;

/// The most rows of an object whose members a look keeps in mind.
pub(crate) const MOST_ROWS: usize = 64;

/// The number of the first row of a name.
#[inline(always)]
pub(crate) fn place_of(rows: &[Member], name: &str) -> Option<usize>
    ensures { IsPlaceOf rows.now name.now result }
{
    for i in 0..rows.len() {
        if rows[i].name == name {
            return Some(i);
        }
    }
    None
}

/// The row of a number.
#[inline(always)]
pub(crate) fn row_at<'a>(rows: &'a [Member], place: Option<usize>, name: &str) -> Option<&'a Member>
    requires { IsPlaceOf rows.now name.now place }
    ensures { option_map (λ m. m.now) result ≡ row_named name.now rows.now }
{
    rows.get(place?)
}

/// Whether the row of a number has its member.
#[inline(always)]
fn is_seen(seen: &[bool], i: usize) -> bool
    ensures { result ≡ get_or seen.now i false }
{
    i < seen.len() && seen[i]
}

/// Notes that the row of a number has its member.
#[inline(always)]
pub(crate) fn note_seen(seen: &mut [bool], place: Option<usize>)
    ensures { (i : ℕ) → get_or seen.new i false ≡ true → IsNoted seen.old place i }
{
    if let Some(place) = place {
        if place < seen.len() {
            seen[place] = true;
        }
    }
}

/// Whether the rows that need their member have it, and those of some names.
pub(crate) fn has_all(rows: &[Member], seen: &[bool], names: &[&str]) -> bool
    ensures { IsTrue result → NeededSeen rows.now seen.now × NamesSeen rows.now seen.now names.now }
{
    has_needed(rows, seen) && has_names(rows, seen, names)
}

/// Whether the rows that need their member have it.
fn has_needed(rows: &[Member], seen: &[bool]) -> bool
    ensures { IsTrue result → NeededSeen rows.now seen.now }
{
    for i in 0..rows.len() {
        if is_required(&rows[i]) && !is_seen(seen, i) && is_needed(&rows[i]) {
            return false;
        }
    }
    true
}

/// Whether the rows of some names have their member.
fn has_names(rows: &[Member], seen: &[bool], names: &[&str]) -> bool
    ensures { IsTrue result → NamesSeen rows.now seen.now names.now }
{
    for name in names {
        if !has_name(rows, seen, name) {
            return false;
        }
    }
    true
}

/// Whether the row of a name has its member.
fn has_name(rows: &[Member], seen: &[bool], name: &str) -> bool
    ensures { IsTrue result → IsNameSeen rows.now seen.now name.now }
{
    match place_of(rows, name) {
        Some(i) => is_seen(seen, i),
        None => false,
    }
}
