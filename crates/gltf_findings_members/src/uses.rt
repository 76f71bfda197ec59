//! The extensions that a document lists as used.

ghost use Rattle.std.specs.Prelude.{◌≡◌, ◌||◌, ℕ, List, IfOk, OnOk, bytes_eq, option_map};
ghost use Rattle.std.specs.BTreeSet.{contains_text};
ghost use Rattle.serde_json.specs.View.{view, items_view};
ghost use Rattle.gltf_findings_members.specs.Uses.{items_at, uses, has_text, is_text};

use serde_json::Value;
use std::alloc::{AllocError, Global};
use std::collections::BTreeSet;

/// The items of the list that is the member of this name.
pub(crate) fn items_at<'a>(value: &'a Value, name: &str) -> Option<&'a Vec<Value>>
    ensures { option_map (λ v. items_view v.now.items) result ≡ items_at name.now (view value.now) }
{
    match value.get(name) {
        Some(found) => found.as_array(),
        None => None,
    }
}

/// The names that `extensionsUsed` lists. Fails only if out of memory.
pub(crate) fn names_used(alloc: Global, value: &Value) -> Result<BTreeSet<String>, AllocError>
    ensures { IfOk result (λ used. (q : List ℕ)
        → contains_text used q ≡ uses (view value.now) q) }
{
    match items_at(value, "extensionsUsed") {
        Some(items) => texts_in(alloc, items),
        None => Ok(BTreeSet::new(alloc)),
    }
}

/// The texts of a list.
fn texts_in(alloc: Global, items: &[Value]) -> Result<BTreeSet<String>, AllocError>
    ensures { IfOk result (λ used. (q : List ℕ)
        → contains_text used q ≡ has_text q (items_view items.now)) }
{
    let mut used = BTreeSet::new(alloc);
    for item in items {
        add_item(alloc, &mut used, item)?;
    }
    Ok(used)
}

/// Adds a value that is a text.
fn add_item(alloc: Global, used: &mut BTreeSet<String>, item: &Value) -> Result<(), AllocError>
    ensures { OnOk result ((q : List ℕ) → contains_text used.new q
        ≡ (contains_text used.old q || is_text q (view item.now))) }
{
    match item.as_str() {
        Some(text) => add_text(alloc, used, text),
        None => Ok(()),
    }
}

/// Adds a text.
pub(crate) fn add_text(
    alloc: Global,
    used: &mut BTreeSet<String>,
    text: &str,
) -> Result<(), AllocError>
    ensures { OnOk result ((q : List ℕ) → contains_text used.new q
        ≡ (contains_text used.old q || bytes_eq text.now q)) }
{
    used.insert(String::from_str(alloc, text)?)?;
    Ok(())
}
