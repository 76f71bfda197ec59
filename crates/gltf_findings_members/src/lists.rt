//! Lists: indexes that are listed twice, empty lists, and lists of a fixed length.

ghost use Rattle.std.specs.Prelude.{◌≡◌, [], not, option_map, IfOk, OnOk};
ghost use Rattle.std.specs.BTreeSet.{insert_key};
ghost use Rattle.std.specs.Ordering.{nat_cmp};
ghost use Rattle.serde_json.specs.View.{view, items_view};
ghost use Rattle.gltf_findings_members.specs.Lists.{is_among, repeats_from, repeat_code, with_index, empty_code, length_code, repeat_notices};
ghost use Rattle.gltf_findings_members.specs.Noted.{steps_in, Adds};

use crate::notice::Noticing;
use gltf_base::Step;
use gltf_findings_codes::Code;
use gltf_schema::Shape;
use serde_json::Value;
use std::alloc::AllocError;
use std::collections::BTreeSet;

/// Notes the indexes that a list has twice, if its items are indexes. It takes `n log n` steps.
pub(crate) fn note_repeats(
    shape: Option<&Shape>,
    items: &[Value],
    to: &mut Noticing<'_>,
) -> Result<(), AllocError>
    ensures { Adds to.old result to.new (repeat_notices (option_map (λ s. s.now) shape.entry)
        (steps_in to.old) (items_view items.now)) }
{
    match shape {
        Some(Shape::Whole32) => note_repeats_from(items, to),
        _ => Ok(()),
    }
}

/// Notes the indexes that a list has twice.
fn note_repeats_from(items: &[Value], to: &mut Noticing<'_>) -> Result<(), AllocError>
    ensures { Adds to.old result to.new
        (repeats_from (steps_in to.old) [] 0 (items_view items.now)) }
{
    let mut before: BTreeSet<u64> = BTreeSet::new(to.alloc());
    for number in 0..items.len() {
        let code = repeat_code(&mut before, &items[number])?;
        to.note_below(Step::Index(number), code)?;
    }
    Ok(())
}

/// The code of an index that was listed before, and adds it to those before.
fn repeat_code(before: &mut BTreeSet<u64>, value: &Value) -> Result<Option<Code>, AllocError>
    ensures code { IfOk result (λ code. code ≡ repeat_code before.old.keys (view value.now)) }
    ensures after { OnOk result (before.new.keys ≡ with_index before.old.keys (view value.now)) }
{
    let Some(number) = value.as_u64() else {
        return Ok(None);
    };
    if is_new(before, number)? {
        Ok(None)
    } else {
        Ok(Some(Code::DuplicateElements))
    }
}

/// Whether a number is none of those before, and adds it to them.
pub(crate) fn is_new(before: &mut BTreeSet<u64>, number: u64) -> Result<bool, AllocError>
    ensures new { IfOk result (λ new. new ≡ not (is_among before.old.keys number)) }
    ensures after { OnOk result (before.new.keys ≡ insert_key nat_cmp before.old.keys number) }
{
    let is_new = before.insert(number)?;
    Ok(is_new)
}

/// The code of a list that must not be empty and is.
pub(crate) fn empty_code(items: &[Value]) -> Option<Code>
    ensures { result ≡ empty_code (items_view items.now) }
{
    if items.is_empty() {
        Some(Code::EmptyEntity)
    } else {
        None
    }
}

/// The code of a list that must have so many items and doesn't.
pub(crate) fn length_code(count: usize, items: &[Value]) -> Option<Code>
    ensures { result ≡ length_code count (items_view items.now) }
{
    if items.len() == count {
        None
    } else {
        Some(Code::ArrayLengthNotInList)
    }
}
