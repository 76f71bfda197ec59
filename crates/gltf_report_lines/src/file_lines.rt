//! The lines that are printed for a document.

ghost use Rattle.std.specs.Prelude.{◌≡◌, length, IfOk, string_bytes};
ghost use Rattle.gltf_base.specs.Device.{saturated};
ghost use Rattle.gltf_root.specs.Root.{root_tree};
ghost use Rattle.gltf_validation_rules.specs.Context.{rules_of};
ghost use Rattle.gltf_validation_rules.specs.Reports.{document_reports};
ghost use Rattle.gltf_report_lines.specs.Lines.{file_lines, report_lines};

use crate::format::LineFormat;
use crate::options::Options;
use crate::reports::{push_report, push_rest};
use gltf_root::root::Root;
use gltf_validation_rules::Rules;
use gltf_validation_walk::Walk;
use std::alloc::{AllocError, Global};

/// What is wrong in the document of a file.
#[derive(Debug, Drop)]
pub struct FileLines {
    /// The lines, each with a newline at its end.
    pub lines: String,
    /// How many reports there are, up to the largest number of 64 bits.
    pub faults: u64,
}

/// Returns the lines of the first reports of a document, and how many reports there are. If they
/// are more than the most that are printed, a last line says how many more. `file` is the name that
/// the lines give to the file. Fails only if out of memory.
pub fn found_in(
    alloc: Global,
    options: &Options<'_>,
    file: &str,
    root: &Root,
) -> Result<FileLines, AllocError>
    ensures lines { IfOk result (λ found. string_bytes found.lines
        ≡ file_lines options.now.format file.now options.now.most
        (document_reports (rules_of options.now.rules) (root_tree root.now))) }
    ensures faults { IfOk result (λ found. found.faults ≡ saturated
        (length (document_reports (rules_of options.now.rules) (root_tree root.now)))) }
{
    let mut lines = String::new(alloc);
    let mut faults: u64 = 0;
    let mut walk = Walk::with_rules(options.rules, root);
    while let Some(error) = walk.next_report() {
        if faults < options.most {
            let steps = walk.steps();
            push_report(alloc, &mut lines, options.format, file, steps, error)?;
        }
        faults = faults.saturating_add(1);
    }
    if faults > options.most {
        let rest = faults - options.most;
        push_rest(alloc, &mut lines, options.format, file, rest)?;
    }
    Ok(FileLines { lines, faults })
}

/// Returns the lines of all reports of a document. `file` is the name that the lines give to the
/// file. Fails only if out of memory.
pub fn all_lines(
    alloc: Global,
    rules: &Rules<'_>,
    format: LineFormat,
    file: &str,
    root: &Root,
) -> Result<String, AllocError>
    ensures { IfOk result (λ lines. string_bytes lines ≡ report_lines format file.now
        (document_reports (rules_of rules.now) (root_tree root.now))) }
{
    let mut lines = String::new(alloc);
    let mut walk = Walk::with_rules(*rules, root);
    while let Some(error) = walk.next_report() {
        push_report(alloc, &mut lines, format, file, walk.steps(), error)?;
    }
    Ok(lines)
}
