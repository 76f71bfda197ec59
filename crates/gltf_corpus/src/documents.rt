//! Prints for each document of `documents.jsonl`, below its title: the exit status and the output
//! of a run over it, and what it is written as. The program's `stdout` has what must be printed
//! (docs/DECISIONS.md says from where).

use crate::ways::reports_difference;
use anyhow::Result;
use gltf_json::root::Watched;
use gltf_json::validation::Rules;
use gltf_json::{Error, Root};
use gltf_report_lines::run;
use std::alloc::Global;
use std::fs;

/// The status of a run over a document, and its output.
fn run_over(alloc: Global, document: &[u8]) -> (u8, Vec<u8>) {
    let mut reader = Watched::new(document);
    let mut writer = Watched::new(Vec::new(alloc));
    let status = run(alloc, &mut reader, &mut writer);
    (status, writer.into_inner())
}

/// The line of a document that was written in lines, and read back.
fn rewritten(alloc: Global, root: &Root) -> Result<String, Error> {
    let lines = root.to_string_pretty(alloc)?;
    Root::from_str(alloc, lines.as_str())?.to_string(alloc)
}

/// What a document is written as in one line, and a note if it isn't so once it was read back.
fn line_of(alloc: Global, document: &[u8]) -> Result<String, Error> {
    let root = Root::from_slice(alloc, document)?;
    let mut line = root.to_string(alloc)?;
    if rewritten(alloc, &root)? != line {
        line.push_str(", but it doesn't last")?;
    }
    Ok(line)
}

/// Names the way that gives other reports of a document than a run over it.
fn reports_note(alloc: Global, document: &[u8], lines: &str) -> Result<Option<&'static str>> {
    match Root::from_slice(alloc, document) {
        Ok(root) => reports_difference(alloc, Rules::new(), &root, lines),
        Err(_) => Ok(None),
    }
}

/// Prints what is answered of a document.
fn answer(rt: &HostRuntime, document: &[u8]) -> Result<()> {
    let (status, output) = run_over(rt.alloc(), document);
    let output = String::from_utf8(output)?;
    print!(rt; "status {status}\n{output}")?;
    let lines = if status == 1 { output.as_str() } else { "" };
    if let Some(note) = reports_note(rt.alloc(), document, lines)? {
        println!(rt; "{note}")?;
    }
    match line_of(rt.alloc(), document) {
        Ok(line) => println!(rt; "written: {line}")?,
        Err(Error::InvalidItem) => println!(rt; "not written: an item of a choice is invalid")?,
        // The output said so.
        Err(Error::Json | Error::Schema) => {}
        Err(error) => return Err(error.into()),
    }
    Ok(())
}

/// Prints the titles of the documents, numbered, each with its answer.
pub fn print_answers(rt: &HostRuntime) -> Result<()> {
    let text = fs::read_to_string(rt, "documents.jsonl")?;
    let mut number: u64 = 0;
    for line in text.as_str().split('\n') {
        match line.strip_prefix("# ") {
            Some(title) => {
                number = number.saturating_add(1);
                println!(rt; "# {number} {title}")?;
            }
            None if line.is_empty() => {}
            None => answer(rt, line.as_bytes())?,
        }
    }
    Ok(())
}
