//! The reports of documents by rules, against another document, as pointers, and counted from a
//! path that has steps. Each line of `reports.jsonl` is a document, one of these ways, and what may
//! come. Only what differs is printed.

use crate::expected::{cases_in, list_of, verdict};
use crate::ways::{collected, reports_difference, rules_of};
use anyhow::{Context, Result};
use gltf_json::path::{Step, Steps};
use gltf_json::root::Watched;
use gltf_json::validation::{By, Count, Error, Rules, Take, Validate};
use gltf_json::{Path, Root, Value};
use gltf_report_lines::run_with;
use std::alloc::{AllocError, Global};
use std::fmt::Write;

/// What a run by rules writes over a document, and its status, or the way that gives other reports.
fn ruled(alloc: Global, rules: Rules<'_>, text: &str) -> Result<String> {
    let mut reader = Watched::new(text.as_bytes());
    let mut writer = Watched::new(Vec::new(alloc));
    let status = run_with(alloc, &rules, &mut reader, &mut writer);
    let output = String::from_utf8(writer.into_inner())?;
    let lines = if status == 0 { "" } else { output.as_str() };
    let root = Root::from_str(alloc, text)?;
    match reports_difference(alloc, rules, &root, lines)? {
        Some(what) => Ok(String::from_str(alloc, what)?),
        None => Ok(format!(in alloc; "{output}status {status}")?),
    }
}

/// What takes each report as a line, with a pointer and a code.
#[derive(Drop)]
struct Pointers {
    alloc: Global,
    lines: String,
}

impl Take for Pointers {
    type Refusal = AllocError;

    fn take(&mut self, path: &Steps<'_>, error: Error) -> Result<(), AllocError> {
        let place = Path::pointer_of(self.alloc, path)?;
        writeln!(self.lines, "{place}: {}", error.code())
    }
}

/// The reports of a document with pointers and codes, and a last line that says how validation
/// ended.
fn pointed(alloc: Global, root: &Root) -> Result<String, AllocError> {
    let mut sink = By(Pointers {
        alloc,
        lines: String::new(alloc),
    });
    let ended = root.validate(root, &mut Steps::new(), &mut sink);
    let By(mut taken) = sink;
    writeln!(taken.lines, "{ended:?}")?;
    Ok(taken.lines)
}

/// So many steps, or as many as a path has room for.
fn steps<'a>(count: u64) -> Steps<'a> {
    let mut path = Steps::new();
    for n in 0..count {
        if !path.is_full() {
            path.push(Step::Index(n as usize));
        }
    }
    path
}

/// How validation of a document from so many steps ends, how many reports were counted, and the
/// path then.
fn counted_from(alloc: Global, root: &Root, step_count: u64) -> Result<String, AllocError> {
    let mut path = steps(step_count);
    let mut sink = Count::new();
    let ended = root.validate(root, &mut path, &mut sink);
    let count = sink.count();
    let place = Path::of(alloc, &path)?;
    format!(in alloc; "{ended:?}, {count} at {place}")
}

/// The reports of a document in the way of a case: by rules, against another document, from so
/// many steps, or as pointers.
fn outcome(alloc: Global, case: &Value) -> Result<String> {
    let text = case.get("text").and_then(Value::as_str);
    let text = text.context("no text")?;
    if case.get("rules").is_some() {
        return ruled(alloc, rules_of(case)?, text);
    }
    let root = Root::from_str(alloc, text)?;
    if let Some(other) = case.get("against").and_then(Value::as_str) {
        let other = Root::from_str(alloc, other)?;
        return collected(alloc, (&Rules::new(), &other), &root, &mut Steps::new());
    }
    match case.get("steps").and_then(Value::as_u64) {
        Some(step_count) => Ok(counted_from(alloc, &root, step_count)?),
        None => Ok(pointed(alloc, &root)?),
    }
}

/// Whether the outcome of a case is one of those that may come. Prints it if it isn't.
fn is_case_expected(rt: &HostRuntime, case: &Value) -> Result<bool> {
    let found = outcome(rt.alloc(), case)?;
    for due in list_of(case, "gives")? {
        if due.as_str() == Some(found.as_str()) {
            return Ok(true);
        }
    }
    println!(rt; "reports of {case}\n  found {found}")?;
    Ok(false)
}

/// Prints which reports differ from those of `reports.jsonl`, and last how many cases there
/// are.
pub fn print_reports(rt: &HostRuntime) -> Result<()> {
    let cases = cases_in(rt, "reports.jsonl")?;
    let mut well = true;
    for case in &cases {
        well = is_case_expected(rt, case)? && well;
    }
    let count = cases.len();
    println!(rt; "# reports, {count} cases: {}", verdict(well))?;
    Ok(())
}
