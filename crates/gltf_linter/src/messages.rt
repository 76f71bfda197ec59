//! The lines that are neither findings nor reports.

ghost use Rattle.std.specs.Prelude.{◌≡◌, ◌++◌, IfOk, OnOk, string_bytes};
ghost use Rattle.serde_json.specs.View.{view};
ghost use Rattle.gltf_linter.specs.Lines.{count_text, counts_data, counts_text, files_text, refusals_text, refused_line, severities_text, summary_data, summary_text};

use crate::refusal::Refusal;
use crate::tally::Tally;
use gltf_findings_lines::Counts;
use gltf_report_lines::{LineFormat, escaped, push_value};
use serde_json::{Value, json};
use std::alloc::{AllocError, Global};
use std::fmt::Write;

/// A refusal as a JSON object. The line and the column are null unless the text is no JSON, the path
/// and the pointer unless a place in its JSON is known.
fn refusal_value(alloc: Global, file: &str, refusal: &Refusal) -> Result<Value, AllocError> {
    let (line, column) = refusal.line_and_column().unzip();
    let (path, pointer) = match refusal.place() {
        Some(place) => (Some(place.path.0.clone()?), Some(place.pointer.clone()?)),
        None => (None, None),
    };
    json!(in alloc; {
        "code": refusal.code(),
        "column": column,
        "file": file,
        "kind": "refusal",
        "line": line,
        "message": refusal.to_string(alloc)?,
        "path": path,
        "pointer": pointer
    })
}

/// Appends the text for a file that is refused.
fn push_refused(alloc: Global, lines: &mut String, file: &str, why: &str) -> Result<(), AllocError>
    ensures { OnOk result (string_bytes lines.new
        ≡ string_bytes lines.old ++ refused_line file.now why.now) }
{
    let file = escaped(alloc, file)?;
    let why = escaped(alloc, why)?;
    writeln!(lines, "{file}: refused: {why}")
}

/// The line for a file that is refused.
pub fn refusal_line(
    alloc: Global,
    format: LineFormat,
    file: &str,
    refusal: &Refusal,
) -> Result<String, AllocError> {
    let mut line = String::new(alloc);
    match format {
        LineFormat::Text => push_refused(alloc, &mut line, file, &refusal.to_string(alloc)?)?,
        LineFormat::Json => push_value(alloc, &mut line, &refusal_value(alloc, file, refusal)?)?,
    }
    Ok(line)
}

/// The counts of reports as a JSON object.
fn summary_value(alloc: Global, tally: &Tally) -> Result<Value, AllocError>
    ensures { IfOk result (λ value. view value ≡ summary_data tally.now) }
{
    json!(in alloc; {
        "faults": tally.faults,
        "files": tally.files,
        "kind": "summary",
        "refused": tally.refused
    })
}

/// Appends the counts of reports as text.
#[tactic(auto, using(std::proofs::lemmas::List::append_assoc))]
fn push_summary(line: &mut String, tally: &Tally) -> Result<(), AllocError>
    ensures { OnOk result (string_bytes line.new
        ≡ string_bytes line.old ++ summary_text tally.now) }
{
    push_files(line, tally)?;
    push_count(line, "faults", tally.faults)?;
    push_refusals(line, tally)
}

/// The line behind the reports of all files.
pub fn summary_line(
    alloc: Global,
    format: LineFormat,
    tally: &Tally,
) -> Result<String, AllocError> {
    let mut line = String::new(alloc);
    match format {
        LineFormat::Text => push_summary(&mut line, tally)?,
        LineFormat::Json => push_value(alloc, &mut line, &summary_value(alloc, tally)?)?,
    }
    Ok(line)
}

/// The counts of findings as a JSON object.
fn counts_value(alloc: Global, tally: &Tally, counts: &Counts) -> Result<Value, AllocError>
    ensures { IfOk result (λ value. view value ≡ counts_data tally.now counts.now) }
{
    json!(in alloc; {
        "errors": counts.errors,
        "files": tally.files,
        "hints": counts.hints,
        "information": counts.information,
        "kind": "summary",
        "refused": tally.refused,
        "warnings": counts.warnings
    })
}

/// Appends how many of something there are.
fn push_count(line: &mut String, name: &str, count: u64) -> Result<(), AllocError>
    ensures { OnOk result (string_bytes line.new
        ≡ string_bytes line.old ++ count_text name.now count) }
{
    write!(line, ", {name}: {count}")
}

/// Appends how many files there are.
fn push_files(line: &mut String, tally: &Tally) -> Result<(), AllocError>
    ensures { OnOk result (string_bytes line.new
        ≡ string_bytes line.old ++ files_text tally.now) }
{
    let files = tally.files;
    write!(line, "files: {files}")
}

/// Appends how many findings of each severity there are.
#[tactic(auto, using(std::proofs::lemmas::List::append_assoc))]
fn push_severities(line: &mut String, counts: &Counts) -> Result<(), AllocError>
    ensures { OnOk result (string_bytes line.new
        ≡ string_bytes line.old ++ severities_text counts.now) }
{
    push_count(line, "errors", counts.errors)?;
    push_count(line, "warnings", counts.warnings)?;
    push_count(line, "information", counts.information)?;
    push_count(line, "hints", counts.hints)
}

/// Appends how many files were refused, and the end of the line.
#[tactic(auto, using(std::proofs::lemmas::List::append_assoc))]
fn push_refusals(line: &mut String, tally: &Tally) -> Result<(), AllocError>
    ensures { OnOk result (string_bytes line.new
        ≡ string_bytes line.old ++ refusals_text tally.now) }
{
    push_count(line, "refused", tally.refused)?;
    line.push('\n')
}

/// Appends the counts of findings as text.
#[tactic(auto, using(std::proofs::lemmas::List::append_assoc))]
fn push_counts(line: &mut String, tally: &Tally, counts: &Counts) -> Result<(), AllocError>
    ensures { OnOk result (string_bytes line.new
        ≡ string_bytes line.old ++ counts_text tally.now counts.now) }
{
    push_files(line, tally)?;
    push_severities(line, counts)?;
    push_refusals(line, tally)
}

/// The line behind the findings of all files.
pub fn counts_line(
    alloc: Global,
    format: LineFormat,
    tally: &Tally,
    counts: &Counts,
) -> Result<String, AllocError> {
    let mut line = String::new(alloc);
    match format {
        LineFormat::Text => push_counts(&mut line, tally, counts)?,
        LineFormat::Json => push_value(alloc, &mut line, &counts_value(alloc, tally, counts)?)?,
    }
    Ok(line)
}
