//! What the calls do, before an output is written.

ghost use Rattle.std.specs.Prelude.{◌≡◌, map, IfOk, string_bytes};
ghost use Rattle.std.specs.Str.Lines.{lines};
ghost use Rattle.gltf_root.specs.Answer.{answer};
ghost use Rattle.gltf_validation_rules.specs.Context.{rules_of};
ghost use Rattle.gltf_findings_lines.specs.Checked.{refusal_of};
ghost use Rattle.gltf_c.specs.Calls.{AreFindingsListed, IsChecked, IsListed, IsListing, IsRewriting, findings_status};

use crate::returned::{Returned, give, refuse, tell};
use crate::{NO_MEMORY, NO_REPORT, NOT_DOCUMENT, NOT_GLB, NOT_JSON, REPORTS};
use gltf_findings_lines::{File, FileFindings, Unread, json_lines};
use gltf_report_lines::{LineFormat, Outcome, all_lines, json_of};
use gltf_root::root::{Nulls, Root, Spacing, Style};
use gltf_schema::Error;
use gltf_validation_rules::Rules;
use std::alloc::{AllocError, Global};

/// Checks a document by the rules, and writes the outcome to a buffer.
pub(crate) fn check(
    alloc: Global,
    rules: &Rules<'_>,
    document: &[u8],
    output: &mut [u8],
) -> Returned
    ensures { IsChecked (rules_of rules.now) document.now output.old output.new result }
{
    match json_of(document) {
        Ok(json) => tell(&Outcome::of(alloc, rules, json), output),
        Err(_) => give(NOT_GLB, "refused: not binary glTF\n", output),
    }
}

/// Checks a document by the rules, and writes the lines of its reports as JSON to a buffer.
pub(crate) fn list(
    alloc: Global,
    rules: &Rules<'_>,
    file: &str,
    document: &[u8],
    output: &mut [u8],
) -> Returned
    ensures { IsListed (rules_of rules.now) file.now document.now output.old output.new result }
{
    let Ok(json) = json_of(document) else {
        return refuse(NOT_GLB);
    };
    match listing(alloc, rules, file, json) {
        Ok(lines) if lines.is_empty() => refuse(NO_REPORT),
        Ok(lines) => give(REPORTS, &lines, output),
        Err(Error::Json) => refuse(NOT_JSON),
        Err(Error::Schema) => refuse(NOT_DOCUMENT),
        Err(_) => refuse(NO_MEMORY),
    }
}

/// The lines of the reports of a document.
fn listing(alloc: Global, rules: &Rules<'_>, file: &str, json: &[u8]) -> Result<String, Error>
    ensures { IsListing (rules_of rules.now) file.now (answer json.now) result }
{
    let root = Root::from_slice(alloc, json)?;
    Ok(all_lines(alloc, rules, LineFormat::Json, file, &root)?)
}

/// Finds what is wrong with a file, and writes the lines of its findings to a buffer.
pub(crate) fn find(alloc: Global, name: &str, bytes: &[u8], output: &mut [u8]) -> Returned
    ensures { AreFindingsListed name.now bytes.now output.old output.new result }
{
    let file = File {
        name,
        bytes,
        is_container: bytes.starts_with(b"glTF"),
    };
    match json_lines(alloc, &file) {
        Ok(found) => give(findings_status(&found), &found.lines, output),
        Err(_) => refuse(NO_MEMORY),
    }
}

/// The status for what was found.
fn findings_status(found: &FileFindings) -> u8
    ensures { result ≡ findings_status (refusal_of found.now) (string_bytes found.now.lines) }
{
    match found.refusal() {
        Some(Unread::NoJson) => NOT_JSON,
        Some(Unread::NoDocument) => NOT_DOCUMENT,
        Some(Unread::Container(_)) => NOT_GLB,
        None if found.lines.is_empty() => NO_REPORT,
        None => REPORTS,
    }
}

/// The lines of a text.
pub(crate) fn lines_in(alloc: Global, text: &str) -> Result<Vec<&str>, AllocError>
    ensures { IfOk result (λ found. map (λ line. line.now) found.items ≡ lines text.now) }
{
    text.lines().collect(alloc)
}

/// One line, without nulls where the format allows none.
const STYLE: Style = Style {
    spacing: Spacing::Compact,
    nulls: Nulls::LeftOut,
};

/// The bytes that a document is written as again.
pub(crate) fn rewritten(alloc: Global, document: &[u8]) -> Result<Vec<u8>, Error>
    ensures { IsRewriting (answer document.now) result }
{
    Root::from_slice(alloc, document)?.to_vec_with(alloc, STYLE)
}
