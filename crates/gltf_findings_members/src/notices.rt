//! All notices of a value.

ghost use Rattle.std.specs.Prelude.{◌≡◌, [], IfOk, IsTrue};
ghost use Rattle.serde_json.specs.Data.{Data};
ghost use Rattle.serde_json.specs.Read.{read};
ghost use Rattle.serde_json.specs.View.{view};
ghost use Rattle.gltf_findings_members.specs.Format.{format_of};
ghost use Rattle.gltf_findings_members.specs.Noted.{steps_in, Adds};
ghost use Rattle.gltf_findings_members.specs.Notices.{found_in, notices_in, all_notices, notices_at};

use crate::first::FirstLook;
use crate::notice::{Notice, Noticing};
use crate::required::note_required;
use crate::table::{Table, extension_lists};
use crate::uses::names_used;
use crate::walk::note_value;
use gltf_schema::Outline;
use serde_json::Value;
use std::alloc::{AllocError, Global};

/// What is wrong with a value, in the order of `docs/FINDINGS.md`.
#[derive(Debug, Drop)]
pub struct Notices {
    found: Vec<Notice>,
}

impl Notices {
    /// Returns what is wrong with a value, which may be any JSON, beside the outline of the type
    /// that it should be. It takes time in proportion to the value and the notices. Each member of
    /// an object is compared with the object's rows, and an extension object that no row names
    /// with those of all objects. Lists of n indexes take n * log n steps. It recurses no deeper
    /// than the outline. Fails only if out of memory.
    pub fn of(alloc: Global, outline: &Outline, value: &Value) -> Result<Notices, AllocError>
        ensures { IfOk result (λ notices. notices_in notices
            ≡ all_notices outline.now.nodes.items outline.now.root (view value.now)) }
    {
        let used = names_used(alloc, value)?;
        let known = extension_lists(alloc, &outline.nodes)?;
        let table = Table {
            alloc,
            nodes: &outline.nodes,
            used: &used,
            known: &known,
        };
        notices_by(alloc, &table, outline.root, value)
    }

    /// Returns whether a text surely has no notices: `true` only if its value has none, or if it is
    /// no JSON. `false` says nothing: a text whose first look finds anything to look at more
    /// closely, or for which memory is refused, may have none all the same. It costs what
    /// [`FirstLook::of`] does.
    pub fn are_none(alloc: Global, outline: &Outline, text: &str) -> bool
        ensures { IsTrue result → (d : Data) → read text.now ≡ Some d
            → all_notices outline.now.nodes.items outline.now.root d ≡ [] }
    {
        matches!(FirstLook::of(alloc, outline, text), FirstLook::Quiet)
    }

    /// Returns the notices in order.
    pub fn as_slice(&self) -> &[Notice]
        ensures { result.now ≡ found_in self.now }
    {
        &self.found
    }
}

/// What is wrong with a value.
fn notices_by<'a>(
    alloc: Global,
    table: &'a Table<'a>,
    root: usize,
    value: &'a Value,
) -> Result<Notices, AllocError>
    ensures { IfOk result (λ notices. notices_in notices
        ≡ notices_at (format_of table.now) root [] (view value.now)) }
{
    let mut to: Noticing<'a> = Noticing::new(alloc);
    note_all(value, root, table, &mut to)?;
    Ok(Notices { found: to.notices })
}

/// Notes what is wrong with a value.
#[tactic(auto, using(std::proofs::lemmas::List::append_assoc))]
fn note_all<'a>(
    value: &'a Value,
    root: usize,
    table: &'a Table<'a>,
    to: &mut Noticing<'a>,
) -> Result<(), AllocError>
    ensures { Adds to.old result to.new
        (notices_at (format_of table.now) root (steps_in to.old) (view value.now)) }
{
    note_value(value, false, table.shape(root), table, to)?;
    note_required(value, to)
}
