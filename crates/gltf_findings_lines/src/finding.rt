//! The findings of a file, whatever their source, and where they are.

ghost use Rattle.std.specs.Prelude.{◌≡◌, ◌++◌, IfOk, OnOk, string_bytes};
ghost use Rattle.serde_json.specs.View.{view};
ghost use Rattle.gltf_findings_lines.specs.Located.{offset_data, pointer_data, pointer_of, shown_pointer, where_of, where_text};

use gltf_findings_codes::{Code, Subject};
use gltf_report_lines::escaped;
use serde_json::Value;
use std::alloc::{AllocError, Global};
use std::fmt::Write;

/// Where a finding is.
#[derive(Clone, Copy, Debug)]
pub enum FindingPlace<'a> {
    /// At an offset in a `.glb` file, in bytes.
    Byte(usize),
    /// At a place of the document.
    Subject(Subject),
    /// At the place of the document that a JSON pointer (RFC 6901) leads to.
    Pointer(&'a str),
}

/// What is wrong with a file, and where.
#[derive(Clone, Copy, Debug)]
pub struct FileFinding<'a> {
    /// What is wrong.
    pub code: Code,
    /// Where.
    pub location: FindingPlace<'a>,
}

impl FindingPlace<'_> {
    /// The JSON pointer of a place of the document, and an empty text for an offset.
    pub(crate) fn pointer(&self, alloc: Global) -> Result<String, AllocError>
        ensures { IfOk result (λ pointer. string_bytes pointer ≡ pointer_of (where_of self.now)) }
    {
        match self {
            FindingPlace::Byte(_) => Ok(String::new(alloc)),
            FindingPlace::Subject(place) => place.pointer(alloc),
            FindingPlace::Pointer(pointer) => String::from_str(alloc, pointer),
        }
    }

    /// The offset as JSON.
    pub(crate) fn offset_value(&self) -> Value
        ensures { view result ≡ offset_data (where_of self.now) }
    {
        match self {
            FindingPlace::Byte(offset) => Value::from(*offset),
            FindingPlace::Subject(_) | FindingPlace::Pointer(_) => Value::Null,
        }
    }

    /// The JSON pointer as JSON.
    pub(crate) fn pointer_value(&self, alloc: Global) -> Result<Value, AllocError>
        ensures { IfOk result (λ value. view value ≡ pointer_data (where_of self.now)) }
    {
        match self {
            FindingPlace::Byte(_) => Ok(Value::Null),
            FindingPlace::Subject(_) | FindingPlace::Pointer(_) => Ok(Value::String(self.pointer(
                alloc,
            )?)),
        }
    }

    /// Appends where a finding is, with a colon and a blank behind it. The document itself has no
    /// text.
    pub(crate) fn push_text(&self, alloc: Global, lines: &mut String) -> Result<(), AllocError>
        ensures { OnOk result (string_bytes lines.new
            ≡ string_bytes lines.old ++ where_text (where_of self.now)) }
    {
        match self {
            FindingPlace::Byte(offset) => write!(lines, "byte {offset}: "),
            FindingPlace::Subject(_) | FindingPlace::Pointer(_) => {
                push_pointer(alloc, lines, &self.pointer(alloc)?)
            }
        }
    }
}

/// Appends a JSON pointer.
fn push_pointer(alloc: Global, lines: &mut String, pointer: &str) -> Result<(), AllocError>
    ensures { OnOk result (string_bytes lines.new
        ≡ string_bytes lines.old ++ shown_pointer pointer.now) }
{
    if pointer.is_empty() {
        return Ok(());
    }
    let pointer = escaped(alloc, pointer)?;
    write!(lines, "{pointer}: ")
}
