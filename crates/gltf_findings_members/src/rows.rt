//! The members that an object of the format has.

ghost use Rattle.std.specs.Prelude.{◌≡◌, option_map};
ghost use Rattle.serde_json.specs.View.{view, members_view};
ghost use Rattle.gltf_findings_members.specs.Rows.{row_named, reads_null_as_absent, is_missing, is_needed, is_required, missing_notices, own_notices, empty_target_code, is_target, is_texture_info, unknown_code};
ghost use Rattle.gltf_findings_members.specs.Noted.{steps_in, Adds};

use crate::attribute::is_attribute;
use crate::members::empty_object_code;
use crate::notice::Noticing;
use gltf_base::Step;
use gltf_findings_codes::Code;
use gltf_schema::{Member, Presence};
use serde_json::{Map, Value};
use std::alloc::AllocError;

/// The row of this name.
pub(crate) fn row_named<'a>(rows: &'a [Member], name: &str) -> Option<&'a Member>
    ensures { option_map (λ m. m.now) result ≡ row_named name.now rows.now }
{
    for row in rows {
        if row.name == name {
            return Some(row);
        }
    }
    None
}

/// Whether a value is null, and the row reads that as if the member were missing.
pub(crate) fn reads_null_as_absent(row: &Member, value: &Value) -> bool
    ensures { result ≡ reads_null_as_absent row.now (view value.now) }
{
    row.presence == Presence::OrNull && value.is_null()
}

/// Notes what is wrong with an object by itself: members that have to be there and are missing,
/// and a morph target without attributes.
pub(crate) fn note_own<'a>(
    value: &Value,
    members: &Map<String, Value>,
    rows: &'a [Member],
    to: &mut Noticing<'a>,
) -> Result<(), AllocError>
    ensures { Adds to.old result to.new (own_notices (steps_in to.old) rows.now
        (members_view members.now.entries) (view value.now)) }
{
    to.note_some(empty_target_code(rows, members))?;
    note_missing(value, rows, to)
}

/// The code of a morph target without attributes.
fn empty_target_code(rows: &[Member], members: &Map<String, Value>) -> Option<Code>
    ensures { result ≡ empty_target_code rows.now (members_view members.now.entries) }
{
    // derived
    if is_target(rows) {
        empty_object_code(members)
    } else {
        None
    }
}

/// Notes the rows whose members have to be there and are missing, in the order of rows.
fn note_missing<'a>(
    value: &Value,
    rows: &'a [Member],
    to: &mut Noticing<'a>,
) -> Result<(), AllocError>
    ensures { Adds to.old result to.new
        (missing_notices (steps_in to.old) (view value.now) rows.now) }
{
    for row in rows {
        to.note_below(Step::Field(row.name), is_missing(value, row))?;
    }
    Ok(())
}

/// Whether the table requires a row's member.
#[inline(always)]
pub(crate) fn is_required(row: &Member) -> bool
    ensures { result ≡ is_required row.now.presence }
{
    // derived
    match row.presence {
        Presence::Required => true,
        _ => false,
    }
}

/// Whether a row's member has to be there.
pub(crate) fn is_needed(row: &Member) -> bool
    ensures { result ≡ is_needed row.now }
{
    // derived
    is_required(row) && row.name != "node"
}

/// The code of a row whose member has to be there and is missing.
fn is_missing(value: &Value, row: &Member) -> Option<Code>
    ensures { result ≡ is_missing (view value.now) row.now }
{
    if is_needed(row) && value.get(row.name).is_none() {
        Some(Code::UndefinedProperty)
    } else {
        None
    }
}

/// Whether the object displaces attributes: it has a row `POSITION`.
pub(crate) fn is_target(rows: &[Member]) -> bool
    ensures { result ≡ is_target rows.now }
{
    // derived
    row_named(rows, "POSITION").is_some()
}

/// Whether the object refers to a texture: it has the rows `index` and `texCoord`.
pub(crate) fn is_texture_info(rows: &[Member]) -> bool
    ensures { result ≡ is_texture_info rows.now }
{
    // derived
    row_named(rows, "index").is_some() && row_named(rows, "texCoord").is_some()
}

/// The code of a member that no row names.
pub(crate) fn unknown_code(rows: &[Member], name: &str) -> Option<Code>
    ensures { result ≡ unknown_code rows.now name.now }
{
    // derived
    if is_target(rows) {
        if is_attribute(name) {
            None
        } else {
            Some(Code::MeshPrimitiveInvalidAttribute)
        }
    } else {
        Some(Code::UnexpectedProperty)
    }
}
