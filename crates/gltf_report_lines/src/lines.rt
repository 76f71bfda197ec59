//! A line for each report.

ghost use Rattle.std.specs.Prelude.{◌≡◌, IfOk, string_bytes};
ghost use Rattle.gltf_validation_rules.specs.Context.{rules_of};
ghost use Rattle.gltf_root.specs.Root.{root_tree};
ghost use Rattle.gltf_validation_rules.specs.Reports.{document_reports};
ghost use Rattle.gltf_report_lines.specs.Output.{report_lines};

use gltf_base::Path;
use gltf_root::root::Root;
use gltf_validation_rules::Rules;
use gltf_validation_walk::Walk;
use std::alloc::{AllocError, Global};
use std::fmt::Write;

/// The lines of all reports of a document by the rules.
pub(crate) fn lines_of(alloc: Global, rules: &Rules<'_>, root: &Root) -> Result<String, AllocError>
    ensures { IfOk result (λ lines. string_bytes lines
        ≡ report_lines (document_reports (rules_of rules.now) (root_tree root.now))) }
{
    let mut lines = String::new(alloc);
    let mut walk = Walk::with_rules(*rules, root);
    while let Some(error) = walk.next_report() {
        let place = Path::of(alloc, walk.steps())?;
        writeln!(lines, "{place}: {error}")?;
    }
    Ok(lines)
}
