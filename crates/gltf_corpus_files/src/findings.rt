//! Compares findings with those that are expected. Each line of a file is a case: its name, what is
//! looked at, and its findings, a line for each. Only what differs is printed.
//!
//! - `findings.jsonl`: a finding has a code and a JSON pointer. The member `text` is a document.
//!   Information and hints are left out, unless a case has a member `all`.
//! - `files.jsonl`: a finding has a code and an offset. The member `file` lists the parts of a
//!   `.glb` file: a number stands for its four bytes, the least first, and a text for its own.
//! - `uris.jsonl`: a finding has a code and a JSON pointer. The member `text` is a document, and
//!   `container` is the file that it is in: `gltf`, `glb`, or the length of its BIN chunk.
//! - `notices.jsonl`: a notice has a code and a JSON pointer. The member `text` is a document. What
//!   a first look at it finds has to have the same notices.

mod documents;
mod files;
mod notices;
mod uris;

use anyhow::{Context, Result};
use documents::Documents;
use files::{Files, count_of_chunks};
use notices::Looks;
use serde_json::Value;
use std::alloc::Global;
use std::fs;
use uris::Uris;

/// What the cases of a file are about.
trait Cases {
    /// What is found in a case, a line for each finding.
    fn lines(&mut self, alloc: Global, case: &Value) -> Result<String>;
}

/// The text that is a member of a case.
fn text_of<'a>(case: &'a Value, name: &str) -> Result<&'a str> {
    case.get(name).and_then(Value::as_str).context("no text")
}

/// Whether a case has the findings that are expected. Prints the case if it doesn't.
fn is_case_expected<C: Cases>(rt: &HostRuntime, cases: &mut C, case: &Value) -> Result<bool> {
    let found = cases.lines(rt.alloc(), case)?;
    let expected = text_of(case, "finds")?;
    let well = found.as_str() == expected;
    if !well {
        let name = text_of(case, "name")?;
        println!(rt; "{name}:\nexpected\n{expected}found\n{found}")?;
    }
    Ok(well)
}

/// Goes through the cases of a file, and prints how many there are.
fn go_through<C: Cases>(rt: &HostRuntime, cases: &mut C, path: &str) -> Result<()> {
    let text = fs::read_to_string(rt, path)?;
    let mut count: u64 = 0;
    let mut well = true;
    for line in text.as_str().split('\n') {
        if !line.is_empty() {
            let case = Value::from_str(rt.alloc(), line)?;
            well = is_case_expected(rt, cases, &case)? && well;
            count = count.saturating_add(1);
        }
    }
    let verdict = if well {
        "as expected"
    } else {
        "not as expected"
    };
    println!(rt; "# {path}, {count} cases: {verdict}")?;
    Ok(())
}

/// Prints how many findings a file of empty chunks has.
fn print_chunks(rt: &HostRuntime) -> Result<()> {
    let count = count_of_chunks(rt.alloc(), 100_000)?;
    println!(rt; "# a file of 100000 empty chunks: {count} findings")?;
    Ok(())
}

/// Goes through the cases of notices, and prints what first looks found.
fn go_through_notices(rt: &HostRuntime) -> Result<()> {
    let mut looks = Looks::new(rt.alloc())?;
    go_through(rt, &mut looks, "notices.jsonl")?;
    println!(rt;
        "# first looks: {} quiet, of {} without notices; {} excerpts; {} nothing",
        looks.quiet, looks.without, looks.excerpts, looks.nothing
    )?;
    Ok(())
}

/// Goes through the cases of each file.
pub fn print_findings(rt: &HostRuntime) -> Result<()> {
    go_through(rt, &mut Documents, "findings.jsonl")?;
    go_through(rt, &mut Files, "files.jsonl")?;
    go_through(rt, &mut Uris, "uris.jsonl")?;
    print_chunks(rt)?;
    go_through_notices(rt)
}
