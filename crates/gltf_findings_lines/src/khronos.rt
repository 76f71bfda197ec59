//! The report of a file in the form of the Khronos glTF-Validator.

ghost use Rattle.std.specs.Prelude.{◌≡◌, IfOk, map, option_map, string_bytes};
ghost use Rattle.serde_json.specs.View.{view};
ghost use Rattle.serde_json.specs.Written.{compact_text};
ghost use Rattle.gltf_report_lines.specs.Lines.{line};
ghost use Rattle.gltf_findings_lines.specs.Khronos.{issues_data, khronos_data, message_data, mime_type, refusal_data, refusal_message, severity_number, unread_data, validator_version};

use crate::choices::Shown;
use crate::counts::Counts;
use crate::file::File;
use crate::finding::FindingPlace;
use crate::info::{Contents, info_value};
use crate::lines::first;
use gltf_findings_codes::Severity;
use gltf_report_lines::push_value;
use serde_json::{Value, json};
use std::alloc::{AllocError, Global};

/// What stands for the version of the validator.
fn validator_version() -> &'static str
    ensures { result.now ≡ validator_version }
{
    // derived
    "gltf_lint 1.4.1+1"
}

/// The number of a severity.
fn severity_number(severity: Severity) -> u64
    ensures { result ≡ severity_number severity }
{
    // derived
    match severity {
        Severity::Error => 0,
        Severity::Warning => 1,
        Severity::Information => 2,
        Severity::Hint => 3,
    }
}

/// The media type of a file.
fn mime_type(file: &File<'_>) -> &'static str
    ensures { result.now ≡ mime_type file.now }
{
    // derived
    if file.is_container {
        "model/gltf-binary"
    } else {
        "model/gltf+json"
    }
}

/// A finding as a message.
fn message_value(alloc: Global, shown: &Shown<'_>) -> Result<Value, AllocError>
    ensures { IfOk result (λ value. view value ≡ message_data shown.now) }
{
    let code = shown.finding.code;
    let severity = severity_number(shown.severity);
    match shown.finding.location {
        FindingPlace::Byte(offset) => json!(in alloc; {
            "code": code.name(),
            "message": code.message(),
            "offset": offset,
            "severity": severity
        }),
        FindingPlace::Subject(_) | FindingPlace::Pointer(_) => json!(in alloc; {
            "code": code.name(),
            "message": code.message(),
            "pointer": shown.finding.location.pointer(alloc)?,
            "severity": severity
        }),
    }
}

/// Findings as messages.
fn message_values(alloc: Global, shown: &[Shown<'_>]) -> Result<Vec<Value>, AllocError>
    ensures { IfOk result (λ values. map view values.items ≡ map message_data shown.now) }
{
    let mut values = Vec::new(alloc);
    for one in shown {
        values.push(message_value(alloc, one)?)?;
    }
    Ok(values)
}

/// The counts of the findings, and the first ones.
fn issues_value(alloc: Global, most: u64, shown: &[Shown<'_>]) -> Result<Value, AllocError>
    ensures { IfOk result (λ value. view value ≡ issues_data most shown.now) }
{
    let counts = Counts::of(shown);
    json!(in alloc; {
        "messages": message_values(alloc, first(shown, most))?,
        "numErrors": counts.errors,
        "numHints": counts.hints,
        "numInfos": counts.information,
        "numWarnings": counts.warnings,
        "truncated": most < shown.len() as u64
    })
}

/// The report of a file that holds a document.
#[tactic(auto, unfolding(crate::specs::Khronos::khronos_data))]
fn khronos_value(
    alloc: Global,
    file: &File<'_>,
    info: &Contents<'_>,
    most: u64,
    shown: &[Shown<'_>],
) -> Result<Value, AllocError>
    ensures { IfOk result (λ value. view value
        ≡ khronos_data file.now info.now most shown.now) }
{
    json!(in alloc; {
        "info": info_value(alloc, info)?,
        "issues": issues_value(alloc, most, shown)?,
        "mimeType": mime_type(file),
        "uri": file.name,
        "validatorVersion": validator_version()
    })
}

/// The report of a file that holds no document: it says nothing of what a document holds.
#[tactic(auto, unfolding(crate::specs::Khronos::unread_data))]
fn unread_value(
    alloc: Global,
    file: &File<'_>,
    most: u64,
    shown: &[Shown<'_>],
) -> Result<Value, AllocError>
    ensures { IfOk result (λ value. view value ≡ unread_data file.now most shown.now) }
{
    json!(in alloc; {
        "issues": issues_value(alloc, most, shown)?,
        "mimeType": mime_type(file),
        "uri": file.name,
        "validatorVersion": validator_version()
    })
}

/// The report of a file that holds a document, as a line.
#[tactic(auto, using(crate::proofs::NoFloats::khronos_without_float))]
pub fn khronos_line(
    alloc: Global,
    file: &File<'_>,
    info: &Contents<'_>,
    most: u64,
    shown: &[Shown<'_>],
) -> Result<String, AllocError>
    ensures { IfOk result (λ text. string_bytes text
        ≡ line (compact_text (khronos_data file.now info.now most shown.now))) }
{
    let value = khronos_value(alloc, file, info, most, shown)?;
    let mut text = String::new(alloc);
    push_value(alloc, &mut text, &value)?;
    Ok(text)
}

/// The report of a file that holds no document, as a line.
#[tactic(auto, using(crate::proofs::NoFloats::unread_without_float))]
pub(crate) fn unread_line(
    alloc: Global,
    file: &File<'_>,
    most: u64,
    shown: &[Shown<'_>],
) -> Result<String, AllocError>
    ensures { IfOk result (λ text. string_bytes text
        ≡ line (compact_text (unread_data file.now most shown.now))) }
{
    let value = unread_value(alloc, file, most, shown)?;
    let mut text = String::new(alloc);
    push_value(alloc, &mut text, &value)?;
    Ok(text)
}

/// Why a file is refused, as a message. It has a pointer if a place is known.
fn refusal_message(
    alloc: Global,
    code: &str,
    message: &str,
    pointer: Option<&str>,
) -> Result<Value, AllocError>
    ensures { IfOk result (λ value. view value
        ≡ refusal_message code.now message.now (option_map (λ s. s.now) pointer.entry)) }
{
    match pointer {
        Some(pointer) => json!(in alloc; {
            "code": code,
            "message": message,
            "pointer": pointer,
            "severity": 0u64
        }),
        None => json!(in alloc; {"code": code, "message": message, "severity": 0u64}),
    }
}

/// The report of a file that is refused.
#[tactic(auto, unfolding(crate::specs::Khronos::refusal_data))]
fn refusal_value(alloc: Global, file: &File<'_>, message: Value) -> Result<Value, AllocError>
    ensures { IfOk result (λ value. view value ≡ refusal_data file.now (view message)) }
{
    json!(in alloc; {
        "issues": {
            "messages": [message],
            "numErrors": 1u64,
            "numHints": 0u64,
            "numInfos": 0u64,
            "numWarnings": 0u64,
            "truncated": false
        },
        "mimeType": mime_type(file),
        "uri": file.name,
        "validatorVersion": validator_version()
    })
}

/// Returns the report of a file that is refused, as a line: its only message has this code of the
/// validator, and this pointer if a place is known. Fails only if out of memory.
#[tactic(auto, using(crate::proofs::NoFloats::refusal_without_float))]
pub fn refusal_report(
    alloc: Global,
    file: &File<'_>,
    code: &str,
    message: &str,
    pointer: Option<&str>,
) -> Result<String, AllocError>
    ensures { IfOk result (λ text. string_bytes text ≡ line (compact_text (refusal_data file.now
        (refusal_message code.now message.now (option_map (λ s. s.now) pointer.entry))))) }
{
    let message = refusal_message(alloc, code, message, pointer)?;
    let value = refusal_value(alloc, file, message)?;
    let mut text = String::new(alloc);
    push_value(alloc, &mut text, &value)?;
    Ok(text)
}
