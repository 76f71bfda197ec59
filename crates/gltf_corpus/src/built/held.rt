//! Calls on a document that is held without reports.

use super::{Built, index_in, item_in, line_of, text_in, written};
use crate::expected::list_of;
use anyhow::{Context, Result};
use gltf_json::asset::Asset;
use gltf_json::validation::{Clean, CleanError, Item, Refused, Rules};
use gltf_json::{Index, Root, Scene, Schema, Value};
use std::alloc::Global;
use std::fmt::Display;

/// Holds the document that a case begins as, a new one if it has none, or refuses it. Both calls
/// that hold a document must agree.
pub(super) fn begin<'a>(
    alloc: Global,
    rules: Rules<'a>,
    case: &Value,
) -> Result<Result<Clean<'a>, Refused<Root>>> {
    let Some(text) = case.get("start").and_then(Value::as_str) else {
        return Ok(Ok(begin_new(alloc, rules)?));
    };
    let (is_held, root) = match Clean::of(rules, Root::from_str(alloc, text)?) {
        Ok(clean) => (true, clean.into_root()),
        Err(root) => (false, root),
    };
    let held = Clean::of_or_report(rules, root);
    if held.is_ok() != is_held {
        return None.context("one call holds the document, and the other refuses it");
    }
    Ok(held)
}

/// Holds a new document, by `Clean::new` if the rules are the standard ones.
fn begin_new<'a>(alloc: Global, rules: Rules<'a>) -> Result<Clean<'a>> {
    let clean = if rules == Rules::new() {
        Clean::new(alloc)?
    } else {
        Clean::with_rules(alloc, rules)?
    };
    if clean.rules() != rules {
        return None.context("a new document has other rules");
    }
    Ok(clean)
}

/// Why an item was refused, and the item that comes back.
fn handed_back<T: Schema>(alloc: Global, why: String, item: &T) -> Result<String> {
    let item = written(alloc, Some(item))?;
    Ok(format!(in alloc; "{why}, and {item} comes back")?)
}

/// The number that an item gets by a push, or why it was refused.
fn pushed<T: Schema>(alloc: Global, ended: Result<Index<T>, CleanError<T>>) -> Result<String> {
    let error = match ended {
        Ok(index) => return Ok(format!(in alloc; "{index}")?),
        Err(error) => error,
    };
    let why = format!(in alloc; "{error}")?;
    match error {
        CleanError::Full(item) | CleanError::Memory(item) => handed_back(alloc, why, &item),
        CleanError::Faulty(item, _) => handed_back(alloc, why, &item),
    }
}

/// What comes back of what was refused.
pub(super) fn back_from<T>(refused: Refused<T>) -> T {
    match refused {
        Refused::Full(value) | Refused::Memory(value) => value,
        Refused::NoItem(value) => value,
        Refused::Faulty(value, _report) => value,
    }
}

/// Why an item was refused, with a report if it has one, and the item that comes back.
fn refusal_text<T: Schema>(alloc: Global, refused: Refused<T>) -> Result<String> {
    let why = format!(in alloc; "{refused}")?;
    handed_back(alloc, why, &back_from(refused))
}

/// The number that an item gets by a push, or the report with which it was refused.
fn reported<T: Schema>(alloc: Global, ended: Result<Index<T>, Refused<T>>) -> Result<String> {
    match ended {
        Ok(index) => Ok(format!(in alloc; "{index}")?),
        Err(error) => refusal_text(alloc, error),
    }
}

/// The item whose place was taken, or why it was not.
fn replaced<T: Schema>(alloc: Global, ended: Result<T, Refused<T>>) -> Result<String> {
    match ended {
        Ok(item) => written(alloc, Some(&item)),
        Err(error) => refusal_text(alloc, error),
    }
}

/// The names of a call.
fn names_in(alloc: Global, call: &Value) -> Result<Vec<String>> {
    let mut names = Vec::new(alloc);
    for name in list_of(call, "names")? {
        let name = name.as_str().context("no name in a call")?;
        names.push(String::from_str(alloc, name)?)?;
    }
    Ok(names)
}

/// That something was done, or why it wasn't.
fn done<E: Display + Drop>(alloc: Global, ended: Result<(), E>) -> Result<String> {
    match ended {
        Ok(()) => Ok(String::from_str(alloc, "done")?),
        Err(error) => Ok(format!(in alloc; "{error}")?),
    }
}

/// The scene of a call, if it has a number.
fn scene_in(call: &Value) -> Result<Option<Index<Scene>>> {
    match call.get("number") {
        Some(_) => Ok(Some(index_in(call)?)),
        None => Ok(None),
    }
}

/// Sets a member that can't be wrong.
fn set_member(alloc: Global, clean: &mut Clean<'_>, call: &Value) -> Result<()> {
    match text_in(call, "call")? {
        "set asset" => clean.set_asset(item_in::<Asset>(alloc, call)?),
        "set extras" => clean.set_extras(Some(call.get("item").context("no item")?.clone()?)),
        "set used" => clean.set_extensions_used(names_in(alloc, call)?),
        "push used" => {
            let name = String::from_str(alloc, text_in(call, "text")?)?;
            clean.push_extension_used(name)?;
        }
        _ => return None.context("no such call on a document that is held"),
    }
    Ok(())
}

impl<'a> Built for Clean<'a> {
    fn call_of<T: Item + Schema>(&mut self, alloc: Global, call: &Value) -> Result<String> {
        match text_in(call, "call")? {
            "push" => pushed(alloc, self.push(item_in::<T>(alloc, call)?)),
            "push or report" => reported(alloc, self.push_or_report(item_in::<T>(alloc, call)?)),
            "replace" => {
                let item = item_in::<T>(alloc, call)?;
                replaced(alloc, self.replace(index_in::<T>(call)?, item))
            }
            "get" => written(alloc, self.get(index_in::<T>(call)?)),
            _ => None.context("no such call on a list that is held"),
        }
    }

    fn call(&mut self, alloc: Global, call: &Value) -> Result<String> {
        match text_in(call, "call")? {
            "write" => line_of(alloc, self.root()),
            "set scene" => done(alloc, self.set_scene(scene_in(call)?)),
            "require" => done(alloc, self.set_extensions_required(names_in(alloc, call)?)),
            _ => {
                set_member(alloc, self, call)?;
                Ok(String::from_str(alloc, "done")?)
            }
        }
    }

    fn as_root(&self) -> &Root {
        self.root()
    }
}
