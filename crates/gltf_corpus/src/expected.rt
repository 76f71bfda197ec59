//! Parts of the data, and the comparison of what is found with what the data expects.

use anyhow::{Context, Result};
use gltf_json::Value;
use serde_json::Map;
use std::alloc::{AllocError, Global};
use std::fs;

/// Makes a value, or none, a member of an object.
fn set_member(
    alloc: Global,
    members: &mut Map<String, Value>,
    name: &str,
    value: Option<&Value>,
) -> Result<(), AllocError> {
    members.remove(name);
    if let Some(value) = value {
        members.insert(String::from_str(alloc, name)?, value.clone()?)?;
    }
    Ok(())
}

/// A document with a value, or none, as a member of the object at a place.
pub fn with_member(
    alloc: Global,
    document: &Value,
    place: &str,
    name: &str,
    value: Option<&Value>,
) -> Result<Value, AllocError> {
    let mut edited = document.clone()?;
    if let Some(Value::Object(members)) = edited.pointer_mut(place) {
        set_member(alloc, members, name, value)?;
    }
    Ok(edited)
}

/// Whether a text is the expected one. Prints both below a title if it isn't.
pub fn is_text(
    rt: &HostRuntime,
    (place, name): (&str, &str),
    expected: &str,
    found: &str,
) -> Result<bool> {
    if found == expected {
        return Ok(true);
    }
    println!(rt; "{place}/{name}\n  expected {expected}\n  found {found}")?;
    Ok(false)
}

/// The text of a value, or of none.
fn text_of(alloc: Global, value: Option<&Value>) -> Result<String, AllocError> {
    match value {
        Some(value) => value.to_string(alloc),
        None => String::from_str(alloc, "nothing"),
    }
}

/// Whether a member is the expected one.
fn is_same(
    rt: &HostRuntime,
    title: (&str, &str),
    expected: Option<&Value>,
    found: Option<&Value>,
) -> Result<bool> {
    let expected = text_of(rt.alloc(), expected)?;
    let found = text_of(rt.alloc(), found)?;
    is_text(rt, title, expected.as_str(), found.as_str())
}

/// Whether an object has the expected members, and no more.
pub fn are_same(
    rt: &HostRuntime,
    place: &str,
    expected: &Map<String, Value>,
    found: &Map<String, Value>,
) -> Result<bool> {
    let mut well = true;
    for (name, value) in expected.iter() {
        let name = name.as_str();
        well = is_same(rt, (place, name), Some(value), found.get(name))? && well;
    }
    for (name, value) in found.iter() {
        let name = name.as_str();
        if expected.get(name).is_none() {
            well = is_same(rt, (place, name), None, Some(value))? && well;
        }
    }
    Ok(well)
}

/// The object at a place.
pub fn object_at<'a>(document: &'a Value, place: &str) -> Result<&'a Map<String, Value>> {
    let object = document.pointer(place).and_then(Value::as_object);
    object.context("no object")
}

/// The list that is a member of a value.
pub fn list_of<'a>(value: &'a Value, name: &str) -> Result<&'a [Value]> {
    let list = value.get(name).and_then(Value::as_array);
    Ok(list.context("no list")?.as_slice())
}

/// The cases of a file, of which each line is one.
pub fn cases_in(rt: &HostRuntime, path: &str) -> Result<Vec<Value>> {
    let text = fs::read_to_string(rt, path)?;
    let mut cases = Vec::new(rt.alloc());
    for line in text.as_str().split('\n') {
        if !line.is_empty() {
            cases.push(Value::from_str(rt.alloc(), line)?)?;
        }
    }
    Ok(cases)
}

/// What is said of all cases.
pub fn verdict(well: bool) -> &'static str {
    if well {
        "as expected"
    } else {
        "not as expected"
    }
}
