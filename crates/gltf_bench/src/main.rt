//! Measures how long reading, validating, writing and loading of one document take:
//! `gltf_bench FILE` prints the best and the median of nine rounds for each call, in nanoseconds for
//! a byte of the file.
#![tactic(auto)]

mod loading;

use anyhow::{Context, Result};
use gltf_base::Steps;
use gltf_json::Root;
use gltf_json::validation::{Count, Validate, Walk};
use gltf_schema::{Reader, Stream};
use json::{Scratch, is_valid};
use serde_json::Value;
use std::time::Instant;
use std::{env, fs, str};

/// What is measured.
#[derive(Clone, Copy)]
enum Task {
    PassTokens,
    PassValues,
    ReadValue,
    ReadAndDropValue,
    FromSlice,
    FromSliceAndDrop,
    FromValue,
    Validate,
    Walk,
    ToValue,
    ToVec,
    CloneRoot,
    DropRoot,
}

/// Each task, and the name that it is printed under.
const TASKS: [(Task, &str); 13] = [
    (Task::PassTokens, "a pass over the tokens"),
    (Task::PassValues, "a pass over the values"),
    (Task::ReadValue, "Value::from_slice"),
    (Task::ReadAndDropValue, "Value::from_slice and drop"),
    (Task::FromSlice, "Root::from_slice"),
    (Task::FromSliceAndDrop, "Root::from_slice and drop"),
    (Task::FromValue, "Root::from_value"),
    (Task::Validate, "Root::validate into a Count"),
    (Task::Walk, "Walk to its end"),
    (Task::ToValue, "Root::to_value"),
    (Task::ToVec, "Root::to_vec"),
    (Task::CloneRoot, "Root::clone"),
    (Task::DropRoot, "drop of a root"),
];

const ROUNDS: usize = 9;

/// How deep arrays and objects may nest, as in `serde_json`.
const MAX_DEPTH: usize = 127;

const USAGE: &str =
    "usage: gltf_bench FILE\nFILE is a glTF document; gen_document.py of tools/ makes large ones.";

/// The nanoseconds since `start`.
fn nanos_since(rt: &HostRuntime, start: &Instant) -> Result<u64> {
    let spent = start.elapsed(rt)?;
    let whole = spent.as_secs().saturating_mul(1_000_000_000);
    Ok(whole.saturating_add(u64::from(spent.subsec_nanos())))
}

/// Asks a walk over a document for each of its reports.
fn walk_to_end(root: &Root) {
    let mut walk = Walk::new(root);
    while let Some(error) = walk.next_report() {
        let _ = error;
    }
}

/// The nanoseconds that a task takes once. What it makes is dropped after the clock is read, unless
/// the drop belongs to the task.
// Each task is a function of its own: the proof of one function for all would take many times as
// long.
fn time(rt: &HostRuntime, task: Task, bytes: &[u8], root: &Root) -> Result<u64> {
    match task {
        Task::PassTokens => time_tokens(rt, bytes),
        Task::PassValues => time_values(rt, bytes),
        Task::ReadValue => time_value(rt, bytes),
        Task::ReadAndDropValue => time_value_and_drop(rt, bytes),
        Task::FromSlice => time_slice(rt, bytes),
        Task::FromSliceAndDrop => time_slice_and_drop(rt, bytes),
        Task::FromValue => time_from_value(rt, bytes),
        Task::Validate => time_validation(rt, root),
        Task::Walk => time_walk(rt, root),
        Task::ToValue => time_to_value(rt, root),
        Task::ToVec => time_to_vec(rt, root),
        Task::CloneRoot => time_clone(rt, root),
        Task::DropRoot => time_drop(rt, root),
    }
}

/// A pass with the kit's reader of tokens.
fn time_tokens(rt: &HostRuntime, bytes: &[u8]) -> Result<u64> {
    let text = str::from_utf8(bytes)?;
    let mut scratch = Scratch::new(rt.alloc());
    let start = Instant::now(rt)?;
    let _is_json = is_valid(text, &mut scratch)?;
    nanos_since(rt, &start)
}

/// A pass with the reader of `gltf_schema`, which asks the text for each value.
fn time_values(rt: &HostRuntime, bytes: &[u8]) -> Result<u64> {
    let text = str::from_utf8(bytes)?;
    let start = Instant::now(rt)?;
    let passed = Stream::new(rt.alloc(), Reader::new(text), MAX_DEPTH).skip_value();
    let nanos = nanos_since(rt, &start)?;
    passed.ok().context("the text isn't read value by value")?;
    Ok(nanos)
}

fn time_value(rt: &HostRuntime, bytes: &[u8]) -> Result<u64> {
    let start = Instant::now(rt)?;
    let value = Value::from_slice(rt.alloc(), bytes)?;
    let nanos = nanos_since(rt, &start)?;
    drop(value);
    Ok(nanos)
}

fn time_value_and_drop(rt: &HostRuntime, bytes: &[u8]) -> Result<u64> {
    let start = Instant::now(rt)?;
    drop(Value::from_slice(rt.alloc(), bytes)?);
    nanos_since(rt, &start)
}

fn time_slice(rt: &HostRuntime, bytes: &[u8]) -> Result<u64> {
    let start = Instant::now(rt)?;
    let read = Root::from_slice(rt.alloc(), bytes)?;
    let nanos = nanos_since(rt, &start)?;
    drop(read);
    Ok(nanos)
}

fn time_slice_and_drop(rt: &HostRuntime, bytes: &[u8]) -> Result<u64> {
    let start = Instant::now(rt)?;
    drop(Root::from_slice(rt.alloc(), bytes)?);
    nanos_since(rt, &start)
}

fn time_from_value(rt: &HostRuntime, bytes: &[u8]) -> Result<u64> {
    let value = Value::from_slice(rt.alloc(), bytes)?;
    let start = Instant::now(rt)?;
    let read = Root::from_value(rt.alloc(), value)?;
    let nanos = nanos_since(rt, &start)?;
    drop(read);
    Ok(nanos)
}

fn time_validation(rt: &HostRuntime, root: &Root) -> Result<u64> {
    let mut count = Count::new();
    let start = Instant::now(rt)?;
    let _ = root.validate(root, &mut Steps::new(), &mut count);
    nanos_since(rt, &start)
}

fn time_walk(rt: &HostRuntime, root: &Root) -> Result<u64> {
    let start = Instant::now(rt)?;
    walk_to_end(root);
    nanos_since(rt, &start)
}

fn time_to_value(rt: &HostRuntime, root: &Root) -> Result<u64> {
    let start = Instant::now(rt)?;
    let value = root.to_value(rt.alloc())?;
    let nanos = nanos_since(rt, &start)?;
    drop(value);
    Ok(nanos)
}

fn time_to_vec(rt: &HostRuntime, root: &Root) -> Result<u64> {
    let start = Instant::now(rt)?;
    let written = root.to_vec(rt.alloc())?;
    let nanos = nanos_since(rt, &start)?;
    drop(written);
    Ok(nanos)
}

fn time_clone(rt: &HostRuntime, root: &Root) -> Result<u64> {
    let start = Instant::now(rt)?;
    let copy = root.clone()?;
    let nanos = nanos_since(rt, &start)?;
    drop(copy);
    Ok(nanos)
}

fn time_drop(rt: &HostRuntime, root: &Root) -> Result<u64> {
    let copy = root.clone()?;
    let start = Instant::now(rt)?;
    drop(copy);
    nanos_since(rt, &start)
}

/// A number of nanoseconds for each byte, in thousandths.
fn thousandths(nanos: u64, bytes: usize) -> u64 {
    nanos.saturating_mul(1000) / (bytes as u64).max(1)
}

/// Runs the rounds of a task, and prints its row.
fn report(rt: &HostRuntime, task: Task, name: &str, bytes: &[u8], root: &Root) -> Result<()> {
    let mut rounds = Vec::with_capacity(rt.alloc(), ROUNDS)?;
    for _ in 0..ROUNDS {
        rounds.push(time(rt, task, bytes, root)?)?;
    }
    print_row(rt, name, rounds, bytes.len())
}

/// Prints the best and the median of the nanoseconds of rounds, for each of so many bytes.
fn print_row(rt: &HostRuntime, name: &str, mut rounds: Vec<u64>, len: usize) -> Result<()> {
    rounds.sort()?;
    let best = thousandths(rounds.first().copied().unwrap_or(0), len);
    let median = thousandths(rounds.get(ROUNDS / 2).copied().unwrap_or(0), len);
    println!(rt;
        "{name}: best {}.{:03}, median {}.{:03}",
        best / 1000,
        best % 1000,
        median / 1000,
        median % 1000
    )?;
    Ok(())
}

fn main(rt: HostRuntime) -> Result<()> {
    let Some(file) = env::args(&rt)?.nth(1) else {
        println!(rt; "{USAGE}")?;
        return Ok(());
    };
    let bytes = fs::read(&rt, &file).context("the file can't be read")?;
    let root = Root::from_slice(rt.alloc(), &bytes).context("the file is no glTF document")?;
    println!(rt;
        "{} bytes; nanoseconds for each byte, of {ROUNDS} rounds",
        bytes.len()
    )?;
    for (task, name) in TASKS {
        report(&rt, task, name, &bytes, &root)?;
    }
    loading::report_all(&rt, &root, bytes.len())
}
