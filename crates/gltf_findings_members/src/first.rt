//! A first look at the text of a document, after which most documents need no walk.

ghost use Rattle.std.specs.Prelude.{◌≡◌, ◌||◌, bytes_eq, ℕ, List, IfSome, IsTrue, OnSome, codes, option_map, slice_get, true, false};
ghost use Rattle.std.specs.BTreeSet.{contains_text};
ghost use Rattle.gltf_findings_members.specs.Document.{KeepsLoud, KeepsOnly, is_needed_name};
ghost use Rattle.gltf_findings_members.specs.First.{AreRows, AreUsedIn, IsFirstLook, SeesAll};
ghost use Rattle.gltf_findings_members.specs.LeftOut.{KeepsNeeded};

use crate::document::{Seen, look_document};
use crate::excerpt::excerpt_of;
use crate::rows::{is_needed, is_target};
use crate::table::{Table, extension_lists};
use crate::uses::add_text;
use gltf_schema::{Member, Outline, Shape};
use json::{Reader, Scratch, Token};
use serde_json::Value;
use std::alloc::Global;
use std::collections::BTreeSet;

/// How deep the members of a document may nest in what `serde_json` reads.
const MEMBERS_DEPTH: usize = 126;

/// What a first look at a text finds.
#[derive(Debug, Drop)]
pub enum FirstLook {
    /// The value that the text is has no notices.
    Quiet,
    /// Those of its members that may have notices, and `asset`. This value has the same notices.
    Excerpt(Value),
    /// Nothing: the whole value has to be read.
    Nothing,
}

impl FirstLook {
    /// Looks at a text that should be JSON of the outline's type. What it returns says nothing of a
    /// text that is no JSON: whoever reads the text finds that out. It passes over the tokens of
    /// the text, at most three times, and makes values of the members of an `Excerpt` alone. It
    /// takes time in proportion to the text, and n * log n for a list of n indexes, for n used
    /// extensions, and for n members of the document that may have notices. If memory is refused,
    /// it returns `Nothing`.
    pub fn of(alloc: Global, outline: &Outline, text: &str) -> FirstLook
        ensures { IsFirstLook outline.now text.now result }
    {
        match root_shape(outline) {
            Some(Shape::Object(rows, _)) => look_first(alloc, outline, rows, text),
            _ => FirstLook::Nothing,
        }
    }
}

/// The shape of the outline's type.
fn root_shape(outline: &Outline) -> Option<&Shape>
    ensures { option_map (λ s. s.now) result
        ≡ slice_get outline.now.nodes.items outline.now.root }
{
    outline.nodes.get(outline.root)
}

/// Looks at a text by the rows of the outline's type. If the list of used extensions came late, it
/// looks once more.
fn look_first(alloc: Global, outline: &Outline, rows: &[Member], text: &str) -> FirstLook
    requires { AreRows outline.now rows.now }
    ensures { IsFirstLook outline.now text.now result }
{
    let nothing = BTreeSet::new(alloc);
    let mut scratch = Scratch::new(alloc);
    match look_beside(alloc, outline, rows, &nothing, text, &mut scratch) {
        Some(seen) => look_again(alloc, outline, rows, text, seen, &mut scratch),
        None => FirstLook::Nothing,
    }
}

/// Looks once more if that may see less, and returns what was found.
fn look_again(
    alloc: Global,
    outline: &Outline,
    rows: &[Member],
    text: &str,
    seen: Seen,
    scratch: &mut Scratch<Global>,
) -> FirstLook
    requires rows { AreRows outline.now rows.now }
    requires seen { SeesAll outline.now rows.now text.now seen }
    ensures { IsFirstLook outline.now text.now result }
{
    match &seen.used {
        Some(used) if seen.is_late => {
            if let Some(again) = look_beside(alloc, outline, rows, used, text, scratch) {
                return conclude(alloc, outline, rows, text, again);
            }
        }
        _ => {}
    }
    conclude(alloc, outline, rows, text, seen)
}

/// What is seen of a text, some of whose used extensions are known.
fn look_beside(
    alloc: Global,
    outline: &Outline,
    rows: &[Member],
    used: &BTreeSet<String>,
    text: &str,
    scratch: &mut Scratch<Global>,
) -> Option<Seen>
    requires { AreUsedIn text.now used.now }
    ensures { IfSome result (SeesAll outline.now rows.now text.now) }
{
    let known = extension_lists(alloc, &outline.nodes).ok()?;
    let table = Table {
        alloc,
        nodes: &outline.nodes,
        used,
        known: &known,
    };
    let mut reader = Reader::new(text, scratch).ok()?;
    match reader.next() {
        Some(Token::BeginObject) => {
            let seen = look_document(&mut reader, MEMBERS_DEPTH, rows, &table).ok()?;
            Some(seen)
        }
        _ => None,
    }
}

/// What was found by what was seen.
fn conclude(alloc: Global, outline: &Outline, rows: &[Member], text: &str, seen: Seen) -> FirstLook
    requires rows { AreRows outline.now rows.now }
    requires seen { SeesAll outline.now rows.now text.now seen }
    ensures { IsFirstLook outline.now text.now result }
{
    if seen.is_whole && is_empty(&seen.loud) {
        return FirstLook::Quiet;
    }
    if is_target(rows) {
        return FirstLook::Nothing;
    }
    let reach = seen.reach;
    let Some(keep) = names_to_keep(alloc, seen.loud, rows) else {
        return FirstLook::Nothing;
    };
    match excerpt_of(alloc, &keep, reach, text) {
        Some(value) => FirstLook::Excerpt(value),
        None => FirstLook::Nothing,
    }
}

/// Whether there are no names.
fn is_empty(names: &BTreeSet<String>) -> bool
    ensures { IsTrue result → (q : List ℕ) → contains_text names.now q ≡ false }
{
    names.is_empty()
}

/// The names of the members that an excerpt keeps: those that may have notices, and those that
/// rules of other members read.
fn names_to_keep(alloc: Global, loud: BTreeSet<String>, rows: &[Member]) -> Option<BTreeSet<String>>
    ensures { IfSome result (λ keep. KeepsLoud (contains_text keep) loud
        × (contains_text keep (codes "extensionsUsed") ≡ true)
        × (contains_text keep (codes "asset") ≡ true)
        × KeepsNeeded (contains_text keep) rows.now
        × KeepsOnly (contains_text keep) loud rows.now) }
{
    let mut keep = loud;
    keep_name(alloc, &mut keep, "extensionsUsed")?;
    keep_name(alloc, &mut keep, "asset")?;
    keep_needed(alloc, &mut keep, rows)?;
    Some(keep)
}

/// Adds a name. This and the next return `None` if memory is refused.
fn keep_name(alloc: Global, keep: &mut BTreeSet<String>, name: &str) -> Option<()>
    ensures old { OnSome result (KeepsLoud (contains_text keep.new) keep.old) }
    ensures new { OnSome result (contains_text keep.new name.now ≡ true) }
    ensures only { OnSome result ((q : List ℕ) → contains_text keep.new q
        ≡ (contains_text keep.old q || bytes_eq name.now q)) }
{
    match add_text(alloc, keep, name) {
        Ok(()) => Some(()),
        Err(_) => None,
    }
}

/// Adds the names of the members that an object has to have.
fn keep_needed(alloc: Global, keep: &mut BTreeSet<String>, rows: &[Member]) -> Option<()>
    ensures old { OnSome result (KeepsLoud (contains_text keep.new) keep.old) }
    ensures new { OnSome result (KeepsNeeded (contains_text keep.new) rows.now) }
    ensures only { OnSome result ((q : List ℕ) → contains_text keep.new q ≡ true
        → (contains_text keep.old q || is_needed_name rows.now q) ≡ true) }
{
    for i in 0..rows.len() {
        if is_needed(&rows[i]) {
            keep_name(alloc, keep, rows[i].name)?;
        }
    }
    Some(())
}
