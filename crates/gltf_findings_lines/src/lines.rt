//! The lines for findings.

ghost use Rattle.std.specs.Prelude.{◌≡◌, ◌++◌, IfOk, OnOk, option_map, take, string_bytes};
ghost use Rattle.serde_json.specs.View.{view};
ghost use Rattle.gltf_report_lines.specs.Lines.{end_line};
ghost use Rattle.gltf_findings_lines.specs.FindingLines.{AreLinesOf, column_data, file_text, finding_data, finding_line, finding_text, line_data, message_text, number_data, place_text, placed_lines, severity_text};

use crate::Position;
use crate::choices::Shown;
use crate::file::File;
use crate::options::FindingOptions;
use crate::placed::{Placed, placed_in};
use gltf_findings_codes::{Code, Severity};
use gltf_report_lines::{LineFormat, escaped, push_rest, push_value};
use serde_json::{Value, json};
use std::alloc::{AllocError, Global};
use std::fmt::Write;

/// A number as JSON, if there is one.
fn number_value(number: Option<u32>) -> Value
    ensures { view result ≡ number_data number }
{
    match number {
        Some(number) => Value::from(number),
        None => Value::Null,
    }
}

/// The line of a position as JSON.
fn line_value(position: Option<Position>) -> Value
    ensures { view result ≡ line_data position }
{
    number_value(position.map(|at| at.line))
}

/// The column of a position as JSON.
fn column_value(position: Option<Position>) -> Value
    ensures { view result ≡ column_data position }
{
    number_value(position.map(|at| at.column))
}

/// A finding as a JSON object.
#[tactic(auto, unfolding(crate::specs::FindingLines::finding_data))]
fn finding_value(alloc: Global, file: &str, placed: &Placed<'_>) -> Result<Value, AllocError>
    ensures { IfOk result (λ value. view value ≡ finding_data file.now placed.now) }
{
    let shown = placed.shown;
    let (code, location) = (shown.finding.code, shown.finding.location);
    json!(in alloc; {
        "code": code.name(),
        "column": column_value(placed.position),
        "file": file,
        "kind": "finding",
        "line": line_value(placed.position),
        "message": code.message(),
        "offset": location.offset_value(),
        "pointer": location.pointer_value(alloc)?,
        "section": code.section(),
        "severity": shown.severity.name()
    })
}

/// Appends which file a finding is in, and where in its text.
fn push_file(
    alloc: Global,
    lines: &mut String,
    file: &str,
    position: Option<Position>,
) -> Result<(), AllocError>
    ensures { OnOk result (string_bytes lines.new
        ≡ string_bytes lines.old ++ file_text file.now position) }
{
    let file = escaped(alloc, file)?;
    match position {
        Some(Position { line, column }) => write!(lines, "{file}:{line}:{column}"),
        None => lines.push_str(&file),
    }
}

/// Appends how severe a finding is.
fn push_severity(lines: &mut String, severity: Severity) -> Result<(), AllocError>
    ensures { OnOk result (string_bytes lines.new
        ≡ string_bytes lines.old ++ severity_text severity) }
{
    let severity = severity.name();
    write!(lines, ": {severity}: ")
}

/// Appends where a finding is, and how severe it is.
#[tactic(auto, using(std::proofs::lemmas::List::append_assoc))]
fn push_place(
    alloc: Global,
    lines: &mut String,
    file: &str,
    placed: &Placed<'_>,
) -> Result<(), AllocError>
    ensures { OnOk result (string_bytes lines.new
        ≡ string_bytes lines.old ++ place_text file.now placed.now) }
{
    push_file(alloc, lines, file, placed.position)?;
    push_severity(lines, placed.shown.severity)?;
    placed.shown.finding.location.push_text(alloc, lines)
}

/// Appends what is wrong, by a code.
fn push_message(lines: &mut String, code: Code) -> Result<(), AllocError>
    ensures { OnOk result (string_bytes lines.new
        ≡ string_bytes lines.old ++ message_text code) }
{
    let (message, name) = (code.message(), code.name());
    writeln!(lines, "{message} [{name}]")
}

/// Appends the text of a finding.
#[tactic(auto, using(std::proofs::lemmas::List::append_assoc))]
fn push_text(
    alloc: Global,
    lines: &mut String,
    file: &str,
    placed: &Placed<'_>,
) -> Result<(), AllocError>
    ensures { OnOk result (string_bytes lines.new
        ≡ string_bytes lines.old ++ finding_text file.now placed.now) }
{
    push_place(alloc, lines, file, placed)?;
    push_message(lines, placed.shown.finding.code)
}

/// Appends the line of a finding.
#[tactic(auto, using(crate::proofs::NoFloats::finding_without_float))]
fn push_finding(
    alloc: Global,
    lines: &mut String,
    format: LineFormat,
    file: &str,
    placed: &Placed<'_>,
) -> Result<(), AllocError>
    ensures { OnOk result (string_bytes lines.new
        ≡ string_bytes lines.old ++ finding_line format file.now placed.now) }
{
    match format {
        LineFormat::Text => push_text(alloc, lines, file, placed),
        LineFormat::Json => push_value(alloc, lines, &finding_value(alloc, file, placed)?),
    }
}

/// Appends the lines of findings.
fn push_placed(
    alloc: Global,
    lines: &mut String,
    format: LineFormat,
    file: &str,
    placed: &[Placed<'_>],
) -> Result<(), AllocError>
    ensures { OnOk result (string_bytes lines.new
        ≡ string_bytes lines.old ++ placed_lines format file.now placed.now) }
{
    for one in placed {
        push_finding(alloc, lines, format, file, one)?;
    }
    Ok(())
}

/// The first findings, up to the most.
pub(crate) fn first<'s, 'a>(shown: &'s [Shown<'a>], most: u64) -> &'s [Shown<'a>]
    ensures { result.now ≡ take most shown.now }
{
    if (most as usize) < shown.len() {
        &shown[..most as usize]
    } else {
        shown
    }
}

/// Appends how many more findings there are than are printed.
fn push_end(
    alloc: Global,
    lines: &mut String,
    format: LineFormat,
    file: &str,
    most: u64,
    count: u64,
) -> Result<(), AllocError>
    ensures { OnOk result (string_bytes lines.new
        ≡ string_bytes lines.old ++ end_line format file.now most count) }
{
    if most < count {
        push_rest(alloc, lines, format, file, count - most)
    } else {
        Ok(())
    }
}

/// The lines of the first findings of a file, and that of how many more there are.
pub(crate) fn lines_of(
    alloc: Global,
    options: &FindingOptions<'_>,
    format: LineFormat,
    file: &File<'_>,
    shown: &[Shown<'_>],
) -> Result<String, AllocError>
    ensures { IfOk result (λ lines. AreLinesOf format options.now file.now shown.now
        (string_bytes lines)) }
{
    let most = options.most;
    let placed = placed_in(alloc, options.positions_up_to, file, first(shown, most))?;
    let lines = findings_lines(alloc, format, file.name, most, shown.len() as u64, &placed)?;
    Ok(lines)
}

/// The lines of findings, and that of how many more there are.
#[tactic(auto, using(std::proofs::lemmas::List::append_assoc))]
fn findings_lines(
    alloc: Global,
    format: LineFormat,
    file: &str,
    most: u64,
    count: u64,
    placed: &[Placed<'_>],
) -> Result<String, AllocError>
    ensures { IfOk result (λ lines. string_bytes lines
        ≡ placed_lines format file.now placed.now ++ end_line format file.now most count) }
{
    let mut lines = String::new(alloc);
    push_placed(alloc, &mut lines, format, file, placed)?;
    push_end(alloc, &mut lines, format, file, most, count)?;
    Ok(lines)
}
