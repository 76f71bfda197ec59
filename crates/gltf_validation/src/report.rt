//! The first report of a root.

ghost use Rattle.std.specs.Prelude.{◌≡◌, IfOk, OnErr, Some, option_map};
ghost use Rattle.gltf_root.specs.Root.{root_tree};
ghost use Rattle.gltf_validation_rules.specs.Context.{rules_of};
ghost use Rattle.gltf_validation_rules.specs.Reports.{document_reports};
ghost use Rattle.gltf_validation.specs.Clean.{IsClean};
ghost use Rattle.gltf_validation.specs.FirstReport.{first_report, report_shown, report_text};

use gltf_base::Path;
use gltf_base::validation::Error;
use gltf_root::root::Root;
use gltf_validation_rules::Rules;
use gltf_validation_walk::Walk;
use std::alloc::AllocError;
use std::fmt::{self, Display, Formatter, Write};

/// A report: a fault, and the path to its place.
#[derive(Clone, Debug, Drop, PartialEq)]
pub struct Report {
    /// The path from the document to the place.
    pub path: Path,
    /// The fault.
    pub error: Error,
}

impl Display for Report {
    ghost output = { λ report. Some (report_text report) };

    /// Writes the path and the fault, with a colon between them.
    fn fmt<W: Write>(&self, f: &mut Formatter<W>) -> fmt::Result {
        write!(f, "{}: {}", self.path, self.error)
    }
}

impl std::error::Error for Report {}

/// The first report of a root against itself; `None` if it has none. Fails only if it has one, and
/// it is out of memory for its path.
pub(crate) fn first_report(rules: &Rules<'_>, root: &Root) -> Result<Option<Report>, AllocError>
    ensures found { IfOk result (λ found. option_map report_shown found
        ≡ first_report (document_reports (rules_of rules.now) (root_tree root.now))) }
    ensures faulty { OnErr result (¬ IsClean (rules_of rules.now) (root_tree root.now)) }
{
    let mut walk = Walk::with_rules(*rules, root);
    let Some(error) = walk.next_report() else {
        return Ok(None);
    };
    let path = Path::of(*root.nodes.allocator(), walk.steps())?;
    Ok(Some(Report { path, error }))
}
