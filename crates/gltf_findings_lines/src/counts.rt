//! How many findings of each severity there are.

ghost use Rattle.std.specs.Prelude.{◌≡◌};
ghost use Rattle.gltf_findings_lines.specs.Counted.{at_least, counted_one, counts_of, counts_sum, no_counts};

use crate::choices::Shown;
use gltf_findings_codes::Severity;

/// How many findings of each severity there are. A number stops at the largest of 64 bits.
#[derive(Clone, Copy, Debug, PartialEq, Eq)]
pub struct Counts {
    pub errors: u64,
    pub warnings: u64,
    pub information: u64,
    pub hints: u64,
}

impl Counts {
    /// No finding.
    pub fn new() -> Counts
        ensures { result ≡ no_counts }
    {
        Counts {
            errors: 0,
            warnings: 0,
            information: 0,
            hints: 0,
        }
    }

    /// Counts findings.
    pub fn of(shown: &[Shown<'_>]) -> Counts
        ensures { result ≡ counts_of shown.now }
    {
        let mut counts = Counts::new();
        for one in shown {
            counts.add_one(one.severity);
        }
        counts
    }

    /// Counts one more finding.
    fn add_one(&mut self, severity: Severity)
        ensures { self.new ≡ counted_one severity self.old }
    {
        match severity {
            Severity::Error => self.errors = self.errors.saturating_add(1),
            Severity::Warning => self.warnings = self.warnings.saturating_add(1),
            Severity::Information => self.information = self.information.saturating_add(1),
            Severity::Hint => self.hints = self.hints.saturating_add(1),
        }
    }

    /// Adds other counts.
    pub fn add(&mut self, other: &Counts)
        ensures { self.new ≡ counts_sum self.old other.now }
    {
        self.errors = self.errors.saturating_add(other.errors);
        self.warnings = self.warnings.saturating_add(other.warnings);
        self.information = self.information.saturating_add(other.information);
        self.hints = self.hints.saturating_add(other.hints);
    }

    /// How many findings are at least as severe as a level.
    pub fn at_least(&self, level: Severity) -> u64
        ensures { result ≡ at_least level self.now }
    {
        let warnings = self.errors.saturating_add(self.warnings);
        let information = warnings.saturating_add(self.information);
        match level {
            Severity::Error => self.errors,
            Severity::Warning => warnings,
            Severity::Information => information,
            Severity::Hint => information.saturating_add(self.hints),
        }
    }
}
