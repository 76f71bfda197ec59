//! The walk through a value, beside the outline of its type.

ghost use Rattle.std.specs.Prelude.{option_map};
ghost use Rattle.serde_json.specs.View.{view, items_view, members_view};
ghost use Rattle.gltf_findings_members.specs.Noted.{steps_in, Adds};
ghost use Rattle.gltf_findings_members.specs.Format.{format_of};
ghost use Rattle.gltf_findings_members.specs.Walk.{notices, item_notices, member_notices, extensions_notices, extension_members_notices, row_notices, member_notice, extension_notice};

use crate::lists::{empty_code, length_code, note_repeats};
use crate::members::{extension_row, note_attributes};
use crate::misfit::misfit_in;
use crate::notice::Noticing;
use crate::rows::{note_own, reads_null_as_absent, row_named, unknown_code};
use crate::table::{Table, extras_code};
use gltf_base::Step;
use gltf_findings_codes::Code;
use gltf_schema::{Member, Shape};
use serde_json::{Map, Value};
use std::alloc::AllocError;

/// Notes what is wrong with a value and with all that it holds.
#[cycle(walk)]
pub(crate) fn note_value<'a>(
    value: &'a Value,
    is_item: bool,
    shape: Option<&'a Shape>,
    table: &'a Table<'a>,
    to: &mut Noticing<'a>,
) -> Result<(), AllocError>
    ensures { Adds to.old result to.new (notices (format_of table.now) is_item
        (option_map (λ s. s.now) shape.entry) (steps_in to.old) (view value.now)) }
{
    match value {
        Value::Object(members) => match shape {
            Some(Shape::Object(rows, _)) => {
                note_own(value, members, rows, to)?;
                note_members(members, rows, table, to)
            }
            Some(Shape::Indexes(_)) => note_attributes(members, to),
            _ => to.note_some(misfit_in(is_item, shape, value)),
        },
        Value::Array(items) => match shape {
            Some(Shape::List(item)) => {
                let shape = table.shape(*item);
                to.note_some(empty_code(items))?;
                note_items(items, shape, table, to)?;
                note_repeats(shape, items, to)
            }
            Some(Shape::Numbers(count, item)) => {
                to.note_some(length_code(*count, items))?;
                note_items(items, table.shape(*item), table, to)
            }
            _ => to.note_some(misfit_in(is_item, shape, value)),
        },
        _ => to.note_some(misfit_in(is_item, shape, value)),
    }
}

/// Notes what is wrong with the items of a list.
#[cycle(walk)]
fn note_items<'a>(
    items: &'a Vec<Value>,
    shape: Option<&'a Shape>,
    table: &'a Table<'a>,
    to: &mut Noticing<'a>,
) -> Result<(), AllocError>
    ensures { Adds to.old result to.new (item_notices (format_of table.now)
        (option_map (λ s. s.now) shape.entry) (steps_in to.old) 0 (items_view items.now.items)) }
{
    for (number, item) in items.iter().enumerate() {
        to.enter(Step::Index(number))?;
        note_value(item, true, shape, table, to)?;
        to.leave();
    }
    Ok(())
}

/// Notes what is wrong with the members of an object, in the byte order of names.
#[cycle(walk)]
fn note_members<'a>(
    members: &'a Map<String, Value>,
    rows: &'a [Member],
    table: &'a Table<'a>,
    to: &mut Noticing<'a>,
) -> Result<(), AllocError>
    ensures { Adds to.old result to.new (member_notices (format_of table.now) rows.now
        (steps_in to.old) (members_view members.now.entries)) }
{
    for (name, member) in members.iter() {
        to.enter(Step::Field(name.as_str()))?;
        note_member(member, name.as_str(), rows, table, to)?;
        to.leave();
    }
    Ok(())
}

/// Notes what is wrong with a member of an object.
#[cycle(walk)]
fn note_member<'a>(
    value: &'a Value,
    name: &'a str,
    rows: &'a [Member],
    table: &'a Table<'a>,
    to: &mut Noticing<'a>,
) -> Result<(), AllocError>
    ensures { Adds to.old result to.new (member_notice (format_of table.now) rows.now
        (steps_in to.old) name.now (view value.now)) }
{
    let row = row_named(rows, name);
    match name {
        "extensions" => note_extensions(value, table.extension_rows(rows, row), table, to),
        "extras" => to.note_some(extras_code(value)),
        _ => match row {
            Some(row) => note_row(value, row, table, to),
            None => to.note_some(unknown_code(rows, name)),
        },
    }
}

/// Notes what is wrong with the member of a row.
#[cycle(walk)]
fn note_row<'a>(
    value: &'a Value,
    row: &'a Member,
    table: &'a Table<'a>,
    to: &mut Noticing<'a>,
) -> Result<(), AllocError>
    ensures { Adds to.old result to.new (row_notices (format_of table.now) row.now
        (steps_in to.old) (view value.now)) }
{
    if reads_null_as_absent(row, value) {
        return Ok(());
    }
    note_value(value, false, table.shape(row.value), table, to)
}

/// Notes what is wrong with the extension objects of an object.
#[cycle(walk)]
fn note_extensions<'a>(
    value: &'a Value,
    rows: Option<&'a Vec<Member>>,
    table: &'a Table<'a>,
    to: &mut Noticing<'a>,
) -> Result<(), AllocError>
    ensures { Adds to.old result to.new (extensions_notices (format_of table.now)
        (option_map (λ rows. rows.now.items) rows.entry) (steps_in to.old) (view value.now)) }
{
    match value {
        Value::Object(members) => note_extension_members(members, rows, table, to),
        Value::Null => Ok(()),
        _ => to.note(Code::TypeMismatch),
    }
}

/// Notes what is wrong with each extension object, in the byte order of names.
#[cycle(walk)]
fn note_extension_members<'a>(
    members: &'a Map<String, Value>,
    rows: Option<&'a Vec<Member>>,
    table: &'a Table<'a>,
    to: &mut Noticing<'a>,
) -> Result<(), AllocError>
    ensures { Adds to.old result to.new (extension_members_notices (format_of table.now)
        (option_map (λ rows. rows.now.items) rows.entry) (steps_in to.old)
        (members_view members.now.entries)) }
{
    for (name, member) in members.iter() {
        to.enter(Step::Field(name.as_str()))?;
        to.note_some(table.undeclared_code(name.as_str()))?;
        note_extension(member, name.as_str(), rows, table, to)?;
        to.leave();
    }
    Ok(())
}

/// Notes what is wrong with an extension object.
#[cycle(walk)]
fn note_extension<'a>(
    value: &'a Value,
    name: &'a str,
    rows: Option<&'a Vec<Member>>,
    table: &'a Table<'a>,
    to: &mut Noticing<'a>,
) -> Result<(), AllocError>
    ensures { Adds to.old result to.new (extension_notice (format_of table.now)
        (option_map (λ rows. rows.now.items) rows.entry) (steps_in to.old) name.now
        (view value.now)) }
{
    match extension_row(rows, name) {
        Some(row) => note_row(value, row, table, to),
        None => to.note_some(table.unknown_extension_code(name, value)),
    }
}
