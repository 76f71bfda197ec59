//! Cases of documents.

use super::{Cases, text_of};
use anyhow::Result;
use gltf_findings::{Findings, Severity};
use gltf_root::root::Root;
use serde_json::Value;
use std::alloc::Global;
use std::fmt::Write;

/// Whether a finding is an error or a warning.
fn is_grave(severity: Severity) -> bool {
    matches!(severity, Severity::Error | Severity::Warning)
}

/// The findings of a document, a line for each: all of them, or errors and warnings.
fn lines_of(alloc: Global, document: &str, all: bool) -> Result<String> {
    let root = Root::from_str(alloc, document)?;
    let findings = Findings::of(alloc, &root)?;
    let mut lines = String::new(alloc);
    for finding in findings.as_slice() {
        if all || is_grave(finding.code.severity()) {
            let pointer = finding.place.pointer(alloc)?;
            writeln!(lines, "{} {pointer}", finding.code.name())?;
        }
    }
    Ok(lines)
}

/// The findings of documents.
#[derive(Clone, Copy)]
pub struct Documents;

impl Cases for Documents {
    fn lines(&mut self, alloc: Global, case: &Value) -> Result<String> {
        let all = case.get("all").is_some();
        lines_of(alloc, text_of(case, "text")?, all)
    }
}
