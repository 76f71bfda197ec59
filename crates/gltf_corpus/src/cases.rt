//! Reads and writes documents in both ways (`both.rt`): those of `documents.jsonl`, those of
//! `objects.json`, and the cases of `cases.jsonl`, which say what becomes of them.
//! `tools/gen_cases.py` writes the cases. Only what differs is printed, and last how many cases
//! there are.

use crate::both::{difference, writing_difference};
use crate::expected::{cases_in, is_text, list_of, object_at, verdict, with_member};
use crate::kept::keep_in_document;
use anyhow::{Context, Result};
use gltf_json::{Root, Value};
use serde_json::json;
use std::alloc::Global;
use std::fs;

/// Whether both ways agree on a text. Prints what differs, and the text, if they don't.
fn is_alike(rt: &HostRuntime, text: &[u8]) -> Result<bool> {
    match difference(rt.alloc(), text)? {
        None => Ok(true),
        Some(what) => {
            let text = String::from_utf8_lossy(rt.alloc(), text)?;
            println!(rt; "{what}: {text}")?;
            Ok(false)
        }
    }
}

/// Whether both ways agree on each document of `documents.jsonl`.
fn are_documents_alike(rt: &HostRuntime) -> Result<bool> {
    let text = fs::read_to_string(rt, "documents.jsonl")?;
    let mut well = true;
    for line in text.as_str().split('\n') {
        if !line.is_empty() && !line.starts_with("# ") {
            well = is_alike(rt, line.as_bytes())? && well;
        }
    }
    Ok(well)
}

/// Whether a text is a document, or is refused at a member of the object at a place, as a JSON
/// pointer.
fn is_refused_there(rt: &HostRuntime, text: &[u8], (place, name): (&str, &str)) -> Result<bool> {
    match Root::refused_at(rt.alloc(), text)? {
        Some(found) => {
            let due = format!(in rt.alloc(); "{place}/{name}")?;
            is_text(rt, ("places", name), due.as_str(), found.pointer.as_str())
        }
        None => Ok(true),
    }
}

/// Whether both ways agree on a document with a value, or none, as a member of the object at a
/// place.
fn is_member_alike(
    rt: &HostRuntime,
    whole: &Value,
    title: (&str, &str),
    value: Option<&Value>,
) -> Result<bool> {
    let (place, name) = title;
    let document = with_member(rt.alloc(), whole, place, name, value)?;
    let text = document.to_vec(rt.alloc())?;
    Ok(is_alike(rt, text.as_slice())? && is_refused_there(rt, text.as_slice(), title)?)
}

/// Whether both ways agree on the document of an object, whole, without each member of the object,
/// and with null in its place.
fn is_object_alike(rt: &HostRuntime, object: &Value) -> Result<bool> {
    let whole = object.get("in").context("no document")?;
    let place = object.get("at").and_then(Value::as_str);
    let place = place.context("no place")?;
    let mut well = is_alike(rt, whole.to_vec(rt.alloc())?.as_slice())?;
    for (name, _) in object_at(object, "/members")?.iter() {
        let title = (place, name.as_str());
        well = is_member_alike(rt, whole, title, None)? && well;
        well = is_member_alike(rt, whole, title, Some(&Value::Null))? && well;
    }
    Ok(well)
}

/// Whether both ways agree on the documents of each object of `objects.json`.
fn are_objects_alike(rt: &HostRuntime) -> Result<bool> {
    let bytes = fs::read(rt, "objects.json")?;
    let data = Value::from_slice(rt.alloc(), bytes.as_slice())?;
    let mut well = true;
    for object in list_of(&data, "objects")? {
        well = is_object_alike(rt, object)? && well;
    }
    Ok(well)
}

/// The bytes of a case: a text, or numbers.
fn bytes_of(alloc: Global, case: &Value) -> Result<Vec<u8>> {
    let mut bytes = Vec::new(alloc);
    match case.get("text").and_then(Value::as_str) {
        Some(text) => bytes.extend_from_slice(text.as_bytes())?,
        None => {
            for number in list_of(case, "bytes")? {
                let number = number.as_u64().context("no number")?;
                bytes.push(u8::try_from(number).ok().context("no byte")?)?;
            }
        }
    }
    Ok(bytes)
}

/// What becomes of a document to which a case adds members: its line, its error, or what differs
/// between the ways of writing it.
fn become_of(alloc: Global, mut root: Root, case: &Value) -> Result<String> {
    if let Some(added) = case.get("others") {
        keep_in_document(&mut root, added)?;
    }
    if let Some(extras) = case.get("extras") {
        root.extras = Some(extras.clone()?);
    }
    if let Some(what) = writing_difference(alloc, &root, &root)? {
        return Ok(String::from_str(alloc, what)?);
    }
    match root.to_string(alloc) {
        Ok(line) => Ok(line),
        Err(error) => Ok(format!(in alloc; "{error}")?),
    }
}

/// What becomes of a case.
fn outcome(alloc: Global, case: &Value) -> Result<String> {
    let bytes = bytes_of(alloc, case)?;
    if let Some(what) = difference(alloc, bytes.as_slice())? {
        return Ok(String::from_str(alloc, what)?);
    }
    match Root::from_slice(alloc, bytes.as_slice()) {
        Ok(root) => become_of(alloc, root, case),
        Err(error) => Ok(format!(in alloc; "{error}")?),
    }
}

/// The place at which a case is refused, as a path and as a JSON pointer.
fn place_of(alloc: Global, case: &Value) -> Result<Value> {
    let bytes = bytes_of(alloc, case)?;
    let place = Root::refused_at(alloc, bytes.as_slice())?.context("it is not refused")?;
    Ok(json!(in alloc; [place.path.as_str(), place.pointer.as_str()])?)
}

/// Whether a case becomes what it says, and is refused at the place that it says.
fn is_case_expected(rt: &HostRuntime, case: &Value) -> Result<bool> {
    let title = case.get("title").and_then(Value::as_str);
    let title = title.context("no title")?;
    let due = case.get("becomes").and_then(Value::as_str);
    let due = due.context("no expected outcome")?;
    let found = outcome(rt.alloc(), case)?;
    let mut well = is_text(rt, ("cases", title), due, found.as_str())?;
    if let Some(due) = case.get("at") {
        let due = due.to_string(rt.alloc())?;
        let found = place_of(rt.alloc(), case)?.to_string(rt.alloc())?;
        well = is_text(rt, ("places", title), due.as_str(), found.as_str())? && well;
    }
    Ok(well)
}

/// Prints what differs between the two ways, and last the number of cases.
pub fn print_cases(rt: &HostRuntime) -> Result<()> {
    let mut well = are_documents_alike(rt)?;
    well = are_objects_alike(rt)? && well;
    let cases = cases_in(rt, "cases.jsonl")?;
    for case in &cases {
        well = is_case_expected(rt, case)? && well;
    }
    let count = cases.len();
    println!(rt; "# both ways, and {count} cases: {}", verdict(well))?;
    Ok(())
}
