//! Goes through documents, and through calls on documents, that are given as data. It prints what
//! becomes of them, or only what becomes of them otherwise than the data expects. The program
//! `gltf_corpus_run` has the data, and what must be printed.
#![tactic(auto)]

mod both;
mod built;
mod cases;
mod defaults;
mod documents;
mod expected;
mod kept;
mod objects;
mod reports;
mod ways;

use anyhow::Result;

/// Prints the answer to each document of `documents.jsonl`. Then it prints where an object of the
/// format differs from `objects.json`, and where the ways of reading and writing a document differ.
pub fn print_documents(rt: &HostRuntime) -> Result<()> {
    documents::print_answers(rt)?;
    objects::print_objects(rt)?;
    cases::print_cases(rt)
}

/// Prints where reports in other ways than a run, and documents that are built by calls, differ
/// from `reports.jsonl` and `built.jsonl`.
pub fn print_calls(rt: &HostRuntime) -> Result<()> {
    reports::print_reports(rt)?;
    built::print_built(rt)
}
