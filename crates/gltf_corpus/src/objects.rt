//! Tries each member of each object of the format with many values, and compares what becomes of
//! them with what `objects.json` expects. The file also has documents, each with a value for each
//! member of an object. It says which fields the Debug text of the first document names, and what
//! absent numbers mean (`defaults.rt`). `tools/gen_objects.py` writes it from the table of the
//! format. Only what differs is printed.

use crate::defaults::are_defaults_expected;
use crate::expected::{are_same, is_text, list_of, object_at, verdict, with_member};
use anyhow::{Context, Result};
use gltf_json::{Error, Root, Value};
use serde_json::Map;
use std::alloc::{AllocError, Global};
use std::fmt::Write;
use std::fs;

const REFUSED: &str = "refused";

/// What a document, and a clone of it, are written as; null where they differ.
fn written(alloc: Global, document: Value) -> Result<Value, Error> {
    let root = Root::from_value(alloc, document)?;
    let value = root.to_value(alloc)?;
    let copy = root.clone()?.to_value(alloc)?;
    Ok(if value == copy { value } else { Value::Null })
}

/// The member of the object at a place.
fn member_at<'a>(document: &'a Value, place: &str, name: &str) -> Option<&'a Value> {
    document.pointer(place)?.get(name)
}

/// What became of a member of a document that was read and written.
fn outcome_of_written(
    alloc: Global,
    document: &Value,
    found: &Value,
    place: &str,
    name: &str,
) -> Result<String, AllocError> {
    let member = member_at(found, place, name);
    if with_member(alloc, document, place, name, member)? != *found {
        return String::from_str(alloc, "other members changed");
    }
    match member {
        Some(_) if found == document => String::from_str(alloc, "kept"),
        Some(value) => format!(in alloc; "written as {value}"),
        None => String::from_str(alloc, "left out"),
    }
}

/// What becomes of a document that has a value, or none, as a member of the object at a place.
fn outcome(alloc: Global, document: &Value, place: &str, name: &str) -> Result<String, Error> {
    match written(alloc, document.clone()?) {
        Ok(found) => Ok(outcome_of_written(alloc, document, &found, place, name)?),
        Err(Error::Schema) => Ok(String::from_str(alloc, REFUSED)?),
        Err(Error::InvalidItem) => Ok(String::from_str(alloc, "invalid")?),
        Err(error) => Err(error),
    }
}

/// What became of values: each value behind a heading that says what. Refused values are left out.
#[derive(Drop)]
struct Outcomes {
    line: String,
    last: String,
}

impl Outcomes {
    /// Adds a value, or none, and what became of it.
    fn push(&mut self, found: String, value: Option<&Value>) -> Result<(), AllocError> {
        if found.as_str() == REFUSED {
            return Ok(());
        }
        if found != self.last {
            write!(self.line, "; {found}:")?;
        }
        self.last = found;
        match value {
            Some(value) => write!(self.line, " {value}"),
            None => self.line.push_str(" nothing"),
        }
    }
}

/// What becomes of each value, and of none, as a member of the object at a place.
fn line_of(
    alloc: Global,
    whole: &Value,
    values: &[Value],
    place: &str,
    name: &str,
) -> Result<String, Error> {
    let mut outcomes = Outcomes {
        line: String::new(alloc),
        last: String::from_str(alloc, REFUSED)?,
    };
    let without = with_member(alloc, whole, place, name, None)?;
    outcomes.push(outcome(alloc, &without, place, name)?, None)?;
    for value in values {
        let document = with_member(alloc, whole, place, name, Some(value))?;
        outcomes.push(outcome(alloc, &document, place, name)?, Some(value))?;
    }
    Ok(outcomes.line)
}

/// Whether each value becomes what is expected, as a member of the object at a place.
fn is_member_expected(
    rt: &HostRuntime,
    whole: &Value,
    values: &[Value],
    (place, name): (&str, &str),
    expected: &Value,
) -> Result<bool> {
    let found = line_of(rt.alloc(), whole, values, place, name)?;
    let line = expected.as_str().context("no line")?;
    is_text(rt, (place, name), line, found.as_str())
}

/// Whether a document that has each member of the object at a place is written as it is.
fn is_kept(rt: &HostRuntime, whole: &Value, place: &str) -> Result<bool> {
    let found = match written(rt.alloc(), whole.clone()?) {
        Ok(found) => found,
        Err(error) => {
            println!(rt; "{place}/: {error}")?;
            return Ok(false);
        }
    };
    if found == *whole {
        return Ok(true);
    }
    let none = Map::new(rt.alloc());
    let members = found.pointer(place).and_then(Value::as_object);
    if are_same(
        rt,
        place,
        object_at(whole, place)?,
        members.unwrap_or(&none),
    )? {
        println!(rt; "{place}/: what holds the object changed")?;
    }
    Ok(false)
}

/// Whether each member of an object, and one that no row names, becomes what is expected with each
/// value. No value is tried if the document that has all members isn't written as it is.
fn is_object_expected(rt: &HostRuntime, object: &Value, values: &[Value]) -> Result<bool> {
    let whole = object.get("in").context("no document")?;
    let place = object.get("at").and_then(Value::as_str);
    let place = place.context("no place")?;
    let mut well = is_kept(rt, whole, place)?;
    if well {
        for (name, line) in object_at(object, "/members")?.iter() {
            let title = (place, name.as_str());
            well = is_member_expected(rt, whole, values, title, line)? && well;
        }
    }
    Ok(well)
}

/// How often a Debug text has each name of a field.
fn field_counts(alloc: Global, text: &str) -> Result<Map<String, Value>, AllocError> {
    let mut counts = Map::new(alloc);
    for word in text.split(' ') {
        if let Some(name) = word.strip_suffix(':') {
            let before = counts.get(name).and_then(Value::as_u64).unwrap_or(0);
            let count = Value::from(before.saturating_add(1));
            counts.insert(String::from_str(alloc, name)?, count)?;
        }
    }
    Ok(counts)
}

/// The Debug text of a document.
fn debug_text(alloc: Global, document: &Value) -> Result<String, Error> {
    let root = Root::from_value(alloc, document.clone()?)?;
    Ok(format!(in alloc; "{root:?}")?)
}

/// Whether the Debug text of the first document names each field as often as expected.
fn are_fields_expected(rt: &HostRuntime, data: &Value) -> Result<bool> {
    let document = data.pointer("/objects/0/in").context("no document")?;
    match debug_text(rt.alloc(), document) {
        Ok(text) => {
            let counts = field_counts(rt.alloc(), text.as_str())?;
            are_same(rt, "fields", object_at(data, "/fields")?, &counts)
        }
        Err(error) => {
            println!(rt; "fields: {error}")?;
            Ok(false)
        }
    }
}

/// Whether each object becomes what is expected.
fn are_objects_expected(rt: &HostRuntime, data: &Value) -> Result<bool> {
    let values = list_of(data, "values")?;
    let mut well = true;
    for object in list_of(data, "objects")? {
        well = is_object_expected(rt, object, values)? && well;
    }
    Ok(well)
}

/// Whether a value becomes what is expected, as a member of the least document.
fn is_form_expected(rt: &HostRuntime, least: &Value, form: &Value) -> Result<bool> {
    let name = form.get("name").and_then(Value::as_str);
    let title = ("", name.context("no name")?);
    let line = form.get("line").context("no line")?;
    is_member_expected(rt, least, list_of(form, "values")?, title, line)
}

/// Whether each of the values that are worked by hand becomes what is expected.
fn are_forms_expected(rt: &HostRuntime, data: &Value) -> Result<bool> {
    let least = data.get("least").context("no document")?;
    let mut well = true;
    for form in list_of(data, "forms")? {
        well = is_form_expected(rt, least, form)? && well;
    }
    Ok(well)
}

/// Prints what differs from what is expected of objects, and last whether anything does.
pub fn print_objects(rt: &HostRuntime) -> Result<()> {
    let bytes = fs::read(rt, "objects.json")?;
    let data = Value::from_slice(rt.alloc(), bytes.as_slice())?;
    let mut well = are_fields_expected(rt, &data)?;
    well = are_defaults_expected(rt, &data)? && well;
    well = are_objects_expected(rt, &data)? && well;
    well = are_forms_expected(rt, &data)? && well;
    println!(rt; "# objects: {}", verdict(well))?;
    Ok(())
}
