//! The outcome of checking a document.

ghost use Rattle.std.specs.Prelude.{◌≡◌, ◌≤◌, ◌⊎◌, None, Some};
ghost use Rattle.gltf_validation_rules.specs.Context.{rules_of};
ghost use Rattle.gltf_report_lines.specs.Outcome.{IsOutcome, outcome_output};
ghost use Rattle.gltf_report_lines.specs.Output.{output, refusal};
ghost use Rattle.gltf_report_lines.specs.Run.{reading_output};

use crate::lines::lines_of;
use gltf_root::root::Root;
use gltf_schema::Error;
use gltf_validation_rules::Rules;
use std::alloc::Global;

/// The outcome of checking a document.
#[derive(Debug, Drop)]
pub enum Outcome {
    /// The document has no report.
    Clean,
    /// A line `path: fault` for each report, in order.
    Reports(String),
    /// The bytes are no JSON.
    NotJson,
    /// The JSON is no document.
    NotDocument,
    /// Out of memory, or the document was not read to its end.
    GivenUp,
}

impl Outcome {
    /// Returns the outcome for the bytes of a document by the rules. It is `GivenUp` only if out of
    /// memory.
    pub fn of(alloc: Global, rules: &Rules<'_>, document: &[u8]) -> Outcome
        ensures { IsOutcome (output (rules_of rules.now) document.now) result }
    {
        Outcome::of_reading(alloc, rules, &Root::from_slice(alloc, document))
    }

    /// Returns the outcome for a reading, by the rules.
    pub(crate) fn of_reading(
        alloc: Global,
        rules: &Rules<'_>,
        reading: &Result<Root, Error>,
    ) -> Outcome
        ensures output { (reading_output (rules_of rules.now) reading.now
            ≡ Some (outcome_output result)) ⊎ (outcome_output result ≡ refusal) }
        ensures given_up { reading_output (rules_of rules.now) reading.now ≡ None
            → outcome_output result ≡ refusal }
    {
        match reading {
            Ok(root) => match lines_of(alloc, rules, root) {
                Ok(lines) if lines.is_empty() => Outcome::Clean,
                Ok(lines) => Outcome::Reports(lines),
                Err(_) => Outcome::GivenUp,
            },
            Err(Error::Json) => Outcome::NotJson,
            Err(Error::Schema) => Outcome::NotDocument,
            Err(_) => Outcome::GivenUp,
        }
    }

    /// Returns the text, which ends in a newline.
    pub fn text(&self) -> &str
        ensures { result.now ≡ (outcome_output self.now).text }
    {
        match self {
            Outcome::Clean => "clean\n",
            Outcome::Reports(lines) => lines,
            Outcome::NotJson => "refused: not JSON\n",
            Outcome::NotDocument => "refused: not a glTF document\n",
            Outcome::GivenUp => "refused: input or output\n",
        }
    }

    /// Returns the exit status that belongs to the text.
    pub fn status(&self) -> u8
        ensures status { result ≡ (outcome_output self.now).status }
        ensures bound { result ≤ 4 }
    {
        match self {
            Outcome::Clean => 0,
            Outcome::Reports(_) => 1,
            Outcome::NotJson => 2,
            Outcome::NotDocument => 3,
            Outcome::GivenUp => 4,
        }
    }
}
