//! Calls on a document: its lists, pushes that are taken back, and the reports of an item.

use super::{Built, index_in, item_in, line_of, text_in, written};
use crate::ways::collected;
use anyhow::{Context, Result};
use gltf_json::path::{Step, Steps};
use gltf_json::root::{Get, Mark};
use gltf_json::validation::{Item, Rules, Validate};
use gltf_json::{Index, Root, Schema, Value};
use std::alloc::Global;

/// The mark of a call.
fn mark_in(call: &Value) -> Result<Mark> {
    match text_in(call, "mark")? {
        "Listed" => Ok(Mark::Listed),
        "NoObject" => Ok(Mark::NoObject),
        "NoExtensions" => Ok(Mark::NoExtensions),
        _ => None.context("no such mark"),
    }
}

/// Pushes an item onto a document, and says which number it gets.
fn pushed<R: Get<T>, T: Schema>(alloc: Global, root: &mut R, item: T) -> Result<String> {
    match root.push(item) {
        Ok(index) => Ok(format!(in alloc; "{index}")?),
        Err(error) => Ok(format!(in alloc; "{error}")?),
    }
}

/// Pushes an item onto the list that is lent for writing.
fn push_lent<R: Get<T>, T: Drop>(root: &mut R, item: T) -> Result<()> {
    let list = root.list_mut().context("no list is lent")?;
    list.push(item)?;
    Ok(())
}

/// How many items the list has that is lent for writing, if it is lent.
fn lent_count<R: Get<T>, T>(root: &mut R) -> Option<usize> {
    let list = root.list_mut()?;
    Some(list.len())
}

/// A number, or that there is none.
fn number(alloc: Global, number: Option<usize>) -> Result<String> {
    match number {
        Some(number) => Ok(format!(in alloc; "{number}")?),
        None => Ok(String::from_str(alloc, "none")?),
    }
}

/// Makes a call to a document that has a list of a type.
fn call_of_list<R: Get<T>, T: Schema>(alloc: Global, root: &mut R, call: &Value) -> Result<String> {
    match text_in(call, "call")? {
        "push" => pushed(alloc, root, item_in::<T>(alloc, call)?),
        "push lent" => {
            push_lent(root, item_in::<T>(alloc, call)?)?;
            number(alloc, Some(root.list().len()))
        }
        "count" => number(alloc, Some(root.list().len())),
        "count lent" => number(alloc, lent_count(root)),
        "get" => written(alloc, root.get(index_in::<T>(call)?)),
        "mark" => Ok(format!(in alloc; "{:?}", root.mark())?),
        "undo" => written(alloc, root.undo_push(mark_in(call)?).as_ref()),
        _ => None.context("no such call on a list"),
    }
}

/// The reports of an item at a number of a list, a line for each.
fn reports_at<'a, T: Item>(
    alloc: Global,
    root: &Root,
    item: &'a T,
    list: &'a str,
    number: usize,
) -> Result<String> {
    let mut path = Steps::new();
    path.push(Step::Field(list));
    path.push(Step::Index(number));
    collected(alloc, (&Rules::new(), root), item, &mut path)
}

/// The reports of an item of a document. Its place has the name of its list.
fn reports_of_item<T: Item>(
    alloc: Global,
    root: &Root,
    index: Index<T>,
    list: &str,
) -> Result<String> {
    let item = root.get(index).context("no item")?;
    reports_at(alloc, root, item, list, index.value())
}

/// The reports of a document, a line for each.
fn reports_of(alloc: Global, root: &Root) -> Result<String> {
    collected(alloc, (&Rules::new(), root), root, &mut Steps::new())
}

impl Built for Root {
    fn call_of<T: Item + Schema>(&mut self, alloc: Global, call: &Value) -> Result<String> {
        if text_in(call, "call")? == "reports" {
            return reports_of_item(alloc, self, index_in::<T>(call)?, text_in(call, "list")?);
        }
        call_of_list::<Root, T>(alloc, self, call)
    }

    fn call(&mut self, alloc: Global, call: &Value) -> Result<String> {
        match text_in(call, "call")? {
            "write" => line_of(alloc, self),
            "reports" => reports_of(alloc, self),
            _ => None.context("no such call on a document"),
        }
    }

    fn as_root(&self) -> &Root {
        self
    }
}
