//! Which findings are printed, and how severe each of them is there.

ghost use Rattle.std.specs.Prelude.{◌≡◌, IfOk};
ghost use Rattle.std.specs.Option.{option_copied};
ghost use Rattle.gltf_base.specs.Names.{behind};
ghost use Rattle.gltf_findings_codes.specs.Codes.{code_name, code_severity};
ghost use Rattle.gltf_findings_lines.specs.Chosen.{chosen, is_at_or_below, is_covered, is_ignored, severity_by};

use crate::finding::FileFinding;
use gltf_findings_codes::{Code, Severity};
use std::alloc::{AllocError, Global};

/// The severity that the caller chose for the findings with a code.
#[derive(Clone, Copy)]
pub struct Leveled<'a> {
    /// The name of the code.
    pub code: &'a str,
    pub severity: Severity,
}

/// Findings that are not printed: those with a code at a place or in what is there.
#[derive(Clone, Copy)]
pub struct Ignored<'a> {
    /// The name of the code.
    pub code: &'a str,
    /// The JSON pointer of the place.
    pub pointer: &'a str,
}

/// The choices of the caller.
#[derive(Clone, Copy)]
pub struct Choices<'a> {
    pub severities: &'a [Leveled<'a>],
    pub ignored: &'a [Ignored<'a>],
}

/// A finding that is printed, and how severe it is there.
#[derive(Clone, Copy)]
pub struct Shown<'a> {
    pub severity: Severity,
    pub finding: FileFinding<'a>,
}

impl Choices<'_> {
    /// The findings that are printed, in order.
    pub fn chosen<'a>(
        &self,
        alloc: Global,
        findings: &[FileFinding<'a>],
    ) -> Result<Vec<Shown<'a>>, AllocError>
        ensures { IfOk result (λ shown. shown.items ≡ chosen self.now findings.now) }
    {
        let mut shown = Vec::new(alloc);
        for finding in findings {
            if !self.ignores(alloc, finding)? {
                shown.push(Shown {
                    severity: self.severity(finding.code),
                    finding: *finding,
                })?;
            }
        }
        Ok(shown)
    }

    /// How severe findings with a code are.
    fn severity(&self, code: Code) -> Severity
        ensures { result
            ≡ severity_by self.now.severities.now (code_name code) (code_severity code) }
    {
        let mut severity = code.severity();
        for leveled in self.severities {
            if leveled.code == code.name() {
                severity = leveled.severity;
            }
        }
        severity
    }

    /// Whether a finding is not printed.
    fn ignores(&self, alloc: Global, finding: &FileFinding<'_>) -> Result<bool, AllocError>
        ensures { IfOk result (λ is. is ≡ is_ignored self.now.ignored.now finding.now) }
    {
        for ignored in self.ignored {
            if ignored.covers(alloc, finding)? {
                return Ok(true);
            }
        }
        Ok(false)
    }
}

impl Ignored<'_> {
    /// Whether the choice covers a finding.
    fn covers(&self, alloc: Global, finding: &FileFinding<'_>) -> Result<bool, AllocError>
        ensures { IfOk result (λ is. is ≡ is_covered self.now finding.now) }
    {
        if self.code != finding.code.name() {
            return Ok(false);
        }
        let pointer = finding.location.pointer(alloc)?;
        Ok(is_at_or_below(self.pointer, pointer.as_str()))
    }
}

/// Whether a pointer leads to a place or to what is in it.
fn is_at_or_below(place: &str, pointer: &str) -> bool
    ensures { result ≡ is_at_or_below place.now pointer.now }
{
    match strip(place, pointer) {
        Some(rest) => rest.is_empty() || rest.as_bytes()[0] == b'/',
        None => false,
    }
}

/// What is behind a prefix.
fn strip<'a>(prefix: &str, text: &'a str) -> Option<&'a str>
    ensures { option_copied result ≡ behind prefix.now text.now }
{
    text.strip_prefix(prefix)
}
