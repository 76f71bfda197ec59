//! The line of a report.

ghost use Rattle.std.specs.Prelude.{◌≡◌, ◌++◌, IfOk, OnOk, false, string_bytes};
ghost use Rattle.serde_json.specs.View.{view};
ghost use Rattle.serde_json.specs.Written.{compact_text, has_float};
ghost use Rattle.gltf_base.specs.Steps.{steps_of};
ghost use Rattle.gltf_validation_rules.specs.Report.{report};
ghost use Rattle.gltf_report_lines.specs.Lines.{line, report_data, report_line, rest_data, rest_line};

use crate::escape::escaped;
use crate::format::LineFormat;
use gltf_base::validation::Error;
use gltf_base::{Path, Steps};
use serde_json::{Value, json};
use std::alloc::{AllocError, Global};
use std::fmt::Write;

/// Appends a value as a line of JSON, without blanks between its tokens. The clause says nothing of
/// a value with floats, whose digits `serde_json` chooses. Fails only if out of memory.
pub fn push_value(alloc: Global, lines: &mut String, value: &Value) -> Result<(), AllocError>
    ensures { OnOk result (has_float (view value.now) ≡ false
        → string_bytes lines.new ≡ string_bytes lines.old ++ line (compact_text (view value.now))) }
{
    lines.push_str(&value.to_string(alloc)?)?;
    lines.push('\n')
}

/// A report as a JSON object.
fn report_value(
    alloc: Global,
    file: &str,
    steps: &Steps<'_>,
    error: Error,
) -> Result<Value, AllocError>
    ensures { IfOk result (λ value. view value
        ≡ report_data file.now (report (steps_of steps.now) error)) }
{
    json!(in alloc; {
        "code": error.code(),
        "file": file,
        "kind": "report",
        "message": error.to_string(alloc)?,
        "path": Path::of(alloc, steps)?.0,
        "pointer": Path::pointer_of(alloc, steps)?
    })
}

/// Appends the line of a report. `file` is the name that the line gives to the file. Fails only if
/// out of memory.
pub fn push_report(
    alloc: Global,
    lines: &mut String,
    format: LineFormat,
    file: &str,
    steps: &Steps<'_>,
    error: Error,
) -> Result<(), AllocError>
    ensures { OnOk result (string_bytes lines.new ≡ string_bytes lines.old
        ++ report_line format file.now (report (steps_of steps.now) error)) }
{
    match format {
        LineFormat::Text => {
            let file = escaped(alloc, file)?;
            let path = escaped(alloc, Path::of(alloc, steps)?.as_str())?;
            writeln!(lines, "{file}: {path}: {error}")
        }
        LineFormat::Json => push_value(alloc, lines, &report_value(alloc, file, steps, error)?),
    }
}

/// How many more reports there are, as a JSON object.
fn rest_value(alloc: Global, file: &str, rest: u64) -> Result<Value, AllocError>
    ensures { IfOk result (λ value. view value ≡ rest_data file.now rest) }
{
    json!(in alloc; {"file": file, "kind": "more", "more": rest})
}

/// Appends the line that says how many more reports a file has. Fails only if out of memory.
pub fn push_rest(
    alloc: Global,
    lines: &mut String,
    format: LineFormat,
    file: &str,
    rest: u64,
) -> Result<(), AllocError>
    ensures { OnOk result (string_bytes lines.new ≡ string_bytes lines.old
        ++ rest_line format file.now rest) }
{
    match format {
        LineFormat::Text => {
            let file = escaped(alloc, file)?;
            writeln!(lines, "{file}: and {rest} more")
        }
        LineFormat::Json => push_value(alloc, lines, &rest_value(alloc, file, rest)?),
    }
}
