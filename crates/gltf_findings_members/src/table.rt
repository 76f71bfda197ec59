//! What a walk looks things up in.

ghost use Rattle.std.specs.Prelude.{◌≡◌, ◌++◌, IfOk, OnOk, option_map, option_to_list, slice_get};
ghost use Rattle.serde_json.specs.View.{view};
ghost use Rattle.gltf_findings_members.specs.Format.{format_of, undeclared_code, unknown_extension_code, extension_rows, extension_rows_of, rows_with, extension_list, extension_lists, lists_in, is_known, extras_code, rows_of};

use crate::misfit::mismatch_unless;
use crate::rows::{is_texture_info, row_named};
use gltf_findings_codes::Code;
use gltf_schema::{Member, Shape};
use serde_json::Value;
use std::alloc::{AllocError, Global};
use std::collections::BTreeSet;

/// The outline of the document's type, and what is said of extensions.
#[derive(Drop)]
pub(crate) struct Table<'a> {
    pub(crate) alloc: Global,
    pub(crate) nodes: &'a [Shape],
    /// The names in `extensionsUsed`.
    pub(crate) used: &'a BTreeSet<String>,
    /// The rows of the extension objects of each object.
    pub(crate) known: &'a [&'a Vec<Member>],
}

impl<'a> Table<'a> {
    /// The shape of the node of this number.
    pub(crate) fn shape(&self, number: usize) -> Option<&'a Shape>
        ensures { option_map (λ s. s.now) result ≡ slice_get self.now.nodes.now number }
    {
        self.nodes.get(number)
    }

    /// The rows of the extension objects of an object with these rows, one of which is that of
    /// `extensions`. They are the same for all references to textures.
    pub(crate) fn extension_rows(
        &self,
        rows: &[Member],
        row: Option<&Member>,
    ) -> Option<&'a Vec<Member>>
        ensures { option_map (λ rows. rows.now.items) result
            ≡ extension_rows_of self.now.nodes.now (lists_in self.now.known.now) rows.now
            (option_map (λ m. m.now) row.entry) }
    {
        if is_texture_info(rows) {
            rows_with(self.known, "KHR_texture_transform")
        } else {
            extension_rows(self.nodes, row)
        }
    }

    /// The code of an extension that `extensionsUsed` doesn't list.
    pub(crate) fn undeclared_code(&self, name: &str) -> Option<Code>
        ensures { result ≡ undeclared_code (format_of self.now) name.now }
    {
        if self.used.contains(name) {
            None
        } else {
            Some(Code::UndeclaredExtension)
        }
    }

    /// Whether some object has an extension.
    pub(crate) fn knows(&self, name: &str) -> bool
        ensures { result ≡ is_known (format_of self.now).known name.now }
    {
        is_known(self.known, name)
    }

    /// The code of an extension object that the object's rows don't name: the extension belongs to
    /// another object, or the table doesn't know it and it is no object.
    pub(crate) fn unknown_extension_code(&self, name: &str, value: &Value) -> Option<Code>
        ensures { result ≡ unknown_extension_code (format_of self.now) name.now (view value.now) }
    {
        if is_known(self.known, name) {
            Some(Code::UnexpectedExtensionObject)
        } else {
            mismatch_unless(value.is_object())
        }
    }
}

/// Whether some rows have the name.
fn is_known(known: &[&Vec<Member>], name: &str) -> bool
    ensures { result ≡ is_known (lists_in known.now) name.now }
{
    for rows in known {
        if row_named(rows, name).is_some() {
            return true;
        }
    }
    false
}

/// The first rows that have the name.
fn rows_with<'a>(known: &'a [&'a Vec<Member>], name: &str) -> Option<&'a Vec<Member>>
    ensures { option_map (λ rows. rows.now.items) result
        ≡ rows_with name.now (lists_in known.now) }
{
    for rows in known {
        if row_named(rows, name).is_some() {
            return Some(*rows);
        }
    }
    None
}

/// The rows of the extension objects that a row has.
fn extension_rows<'a>(nodes: &'a [Shape], row: Option<&Member>) -> Option<&'a Vec<Member>>
    ensures { option_map (λ rows. rows.now.items) result
        ≡ extension_rows nodes.now (option_map (λ m. m.now) row.entry) }
{
    rows_of(nodes.get(row?.value)?)
}

/// The rows of the extension objects of an object.
fn extension_list<'a>(nodes: &'a [Shape], shape: &Shape) -> Option<&'a Vec<Member>>
    ensures { option_map (λ rows. rows.now.items) result ≡ extension_list nodes.now shape.now }
{
    extension_rows(nodes, row_named(rows_of(shape)?, "extensions"))
}

/// The rows of the extension objects of each object. Fails only if out of memory.
pub(crate) fn extension_lists<'a>(
    alloc: Global,
    nodes: &'a [Shape],
) -> Result<Vec<&'a Vec<Member>>, AllocError>
    ensures { IfOk result (λ known. lists_in known.items ≡ extension_lists nodes.now nodes.now) }
{
    let mut known = Vec::new(alloc);
    for shape in nodes {
        add_list(&mut known, extension_list(nodes, shape))?;
    }
    Ok(known)
}

/// Adds rows, if there are some.
fn add_list<'a>(
    known: &mut Vec<&'a Vec<Member>>,
    rows: Option<&'a Vec<Member>>,
) -> Result<(), AllocError>
    ensures { OnOk result (lists_in known.new.items ≡ lists_in known.old.items
        ++ option_to_list (option_map (λ rows. rows.now.items) rows.entry)) }
{
    if let Some(rows) = rows {
        known.push(rows)?;
    }
    Ok(())
}

/// The rows of a shape that is an object.
fn rows_of(shape: &Shape) -> Option<&Vec<Member>>
    ensures { option_map (λ rows. rows.now.items) result ≡ rows_of shape.now }
{
    match shape {
        Shape::Object(rows, _) => Some(rows),
        _ => None,
    }
}

/// The code of extras that are no object.
pub(crate) fn extras_code(value: &Value) -> Option<Code>
    ensures { result ≡ extras_code (view value.now) }
{
    if value.is_null() || value.is_object() {
        None
    } else {
        Some(Code::NonObjectExtras)
    }
}
