//! Documents that are built by calls. Each line of `built.jsonl` has what a document begins as, the
//! calls, what each gives, and what the document is written as in the end. Only what differs is
//! printed.

mod held;
mod lists;

use crate::both::writing_difference;
use crate::expected::{cases_in, is_text, list_of, verdict};
use crate::ways::rules_of;
use anyhow::{Context, Result};
use gltf_json::buffer::View;
use gltf_json::extensions::scene::khr_lights_punctual::Light;
use gltf_json::extensions::scene::khr_materials_variants::Variant;
use gltf_json::texture::Sampler;
use gltf_json::validation::{Item, Refused};
use gltf_json::{
    Accessor, Animation, Buffer, Camera, Image, Index, Material, Mesh, Node, Root, Scene, Schema,
    Skin, Texture, Value,
};
use held::{back_from, begin};
use std::alloc::Global;

/// A document to which calls are made.
trait Built: Drop {
    /// Makes a call for a type of items, and says what it gives.
    fn call_of<T: Item + Schema>(&mut self, alloc: Global, call: &Value) -> Result<String>;

    /// Makes a call of the whole document, and says what it gives.
    fn call(&mut self, alloc: Global, call: &Value) -> Result<String>;

    /// The document itself.
    fn as_root(&self) -> &Root;
}

/// A text of a call.
fn text_in<'a>(call: &'a Value, name: &str) -> Result<&'a str> {
    let text = call.get(name).and_then(Value::as_str);
    text.context("no text in a call")
}

/// The item of a call.
fn item_in<T: Schema>(alloc: Global, call: &Value) -> Result<T> {
    let item = call.get("item").context("no item in a call")?;
    Ok(T::decode(alloc, item.clone()?)?)
}

/// The index of a call.
fn index_in<T>(call: &Value) -> Result<Index<T>> {
    let number = call.get("number").and_then(Value::as_u64);
    let number = number.and_then(|number| u32::try_from(number).ok());
    Ok(Index::new(number.context("no number in a call")?))
}

/// What an item is written as, why it isn't, or that there is none.
fn written<T: Schema>(alloc: Global, item: Option<&T>) -> Result<String> {
    let Some(item) = item else {
        return Ok(String::from_str(alloc, "none")?);
    };
    match item.encode(alloc) {
        Ok(value) => Ok(value.to_string(alloc)?),
        Err(error) => Ok(format!(in alloc; "{error}")?),
    }
}

/// What a document is written as, or the way in which it isn't written so, or not as its clone.
fn line_of(alloc: Global, root: &Root) -> Result<String> {
    let clone = root.clone()?;
    match writing_difference(alloc, root, &clone)? {
        Some(what) => Ok(String::from_str(alloc, what)?),
        None => Ok(root.to_string(alloc)?),
    }
}

/// Makes a call for the items of a list of data, if this is one.
fn call_of_data<D: Built>(
    alloc: Global,
    document: &mut D,
    call: &Value,
    list: &str,
) -> Option<Result<String>> {
    match list {
        "accessors" => Some(document.call_of::<Accessor>(alloc, call)),
        "buffers" => Some(document.call_of::<Buffer>(alloc, call)),
        "bufferViews" => Some(document.call_of::<View>(alloc, call)),
        "images" => Some(document.call_of::<Image>(alloc, call)),
        "samplers" => Some(document.call_of::<Sampler>(alloc, call)),
        _ => None,
    }
}

/// Makes a call for the items of a list of what surfaces and views look like, if this is one.
fn call_of_looks<D: Built>(
    alloc: Global,
    document: &mut D,
    call: &Value,
    list: &str,
) -> Option<Result<String>> {
    match list {
        "cameras" => Some(document.call_of::<Camera>(alloc, call)),
        "lights" => Some(document.call_of::<Light>(alloc, call)),
        "materials" => Some(document.call_of::<Material>(alloc, call)),
        "textures" => Some(document.call_of::<Texture>(alloc, call)),
        "variants" => Some(document.call_of::<Variant>(alloc, call)),
        _ => None,
    }
}

/// Makes a call for the items of a list of what is shown, if this is one.
fn call_of_shown<D: Built>(
    alloc: Global,
    document: &mut D,
    call: &Value,
    list: &str,
) -> Option<Result<String>> {
    match list {
        "animations" => Some(document.call_of::<Animation>(alloc, call)),
        "meshes" => Some(document.call_of::<Mesh>(alloc, call)),
        "nodes" => Some(document.call_of::<Node>(alloc, call)),
        "scenes" => Some(document.call_of::<Scene>(alloc, call)),
        "skins" => Some(document.call_of::<Skin>(alloc, call)),
        _ => None,
    }
}

/// Makes a call to a document, for the items of its list, if it names one, and says what it gives.
// One match over all lists would take many times as long to prove.
fn make_call<D: Built>(alloc: Global, document: &mut D, call: &Value) -> Result<String> {
    let Some(list) = call.get("list").and_then(Value::as_str) else {
        return document.call(alloc, call);
    };
    if let Some(found) = call_of_data(alloc, document, call, list) {
        return found;
    }
    if let Some(found) = call_of_looks(alloc, document, call, list) {
        return found;
    }
    match call_of_shown(alloc, document, call, list) {
        Some(found) => found,
        None => None.context("no such list"),
    }
}

/// Whether each call of a case gives what it should, and the document is written in the end as it
/// should be.
fn are_calls_expected<D: Built>(rt: &HostRuntime, document: &mut D, case: &Value) -> Result<bool> {
    let title = text_in(case, "title")?;
    let mut well = true;
    for call in list_of(case, "calls")? {
        let found = make_call(rt.alloc(), document, call)?;
        let names = (title, text_in(call, "call")?);
        well = is_text(rt, names, text_in(call, "gives")?, found.as_str())? && well;
    }
    let found = line_of(rt.alloc(), document.as_root())?;
    let due = text_in(case, "becomes")?;
    Ok(is_text(rt, (title, "written"), due, found.as_str())? && well)
}

/// Whether a document is held or refused as a case says, and the calls on it, or on the document
/// that comes back, give what they should.
fn is_held_expected<D: Built, R: Built>(
    rt: &HostRuntime,
    case: &Value,
    held: Result<D, Refused<R>>,
) -> Result<bool> {
    let title = (text_in(case, "title")?, "held");
    let due = text_in(case, "held")?;
    match held {
        Ok(mut document) => {
            let well = is_text(rt, title, due, "yes")?;
            Ok(are_calls_expected(rt, &mut document, case)? && well)
        }
        Err(refused) => {
            let why = format!(in rt.alloc(); "{refused}")?;
            let well = is_text(rt, title, due, why.as_str())?;
            let mut document = back_from(refused);
            Ok(are_calls_expected(rt, &mut document, case)? && well)
        }
    }
}

/// Whether a document is built as a case says.
fn is_case_expected(rt: &HostRuntime, case: &Value) -> Result<bool> {
    if case.get("held").is_some() {
        return is_held_expected(rt, case, begin(rt.alloc(), rules_of(case)?, case)?);
    }
    let mut root = match case.get("start").and_then(Value::as_str) {
        Some(text) => Root::from_str(rt.alloc(), text)?,
        None => Root::new(rt.alloc())?,
    };
    are_calls_expected(rt, &mut root, case)
}

/// Prints which documents are built otherwise than by `built.jsonl`, and last how many cases
/// there are.
pub fn print_built(rt: &HostRuntime) -> Result<()> {
    let cases = cases_in(rt, "built.jsonl")?;
    let mut well = true;
    for case in &cases {
        well = is_case_expected(rt, case)? && well;
    }
    let count = cases.len();
    println!(rt; "# documents by calls, {count} cases: {}", verdict(well))?;
    Ok(())
}
