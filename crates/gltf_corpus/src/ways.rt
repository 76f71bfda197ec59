//! The reports of a document in every way that gives them: collected, one at a time by a walk, and
//! held by a sink that takes only so many.

ghost use Rattle.std.specs.Prelude.{ℕ, ◌+◌, ⊤};

use anyhow::{Context, Result};
use gltf_json::extensions::ENABLED_WITH_EMPTY_TEXTURES;
use gltf_json::path::Steps;
use gltf_json::validation::{Collect, Error, Rules, Sink, Validate, Walk};
use gltf_json::{Path, Root, Value};
use std::alloc::{AllocError, Global};
use std::fmt::Write;

/// Textures may be empty, and what gives them images may be required.
const EMPTY: Rules<'static> = Rules {
    empty_texture: true,
    enabled: ENABLED_WITH_EMPTY_TEXTURES,
};

/// What gives textures images may be required.
const FULL: Rules<'static> = Rules {
    empty_texture: false,
    enabled: ENABLED_WITH_EMPTY_TEXTURES,
};

/// Nothing may be required.
const BARE: Rules<'static> = Rules {
    empty_texture: false,
    enabled: &[],
};

/// The rules of a case, or the standard ones.
pub fn rules_of(case: &Value) -> Result<Rules<'static>> {
    match case.get("rules").and_then(Value::as_str) {
        None | Some("standard") => Ok(Rules::new()),
        Some("empty") => Ok(EMPTY),
        Some("full") => Ok(FULL),
        Some("bare") => Ok(BARE),
        Some(_) => None.context("no such rules"),
    }
}

/// What was collected, a line for each report.
fn lines_of(alloc: Global, sink: &Collect) -> Result<String, AllocError> {
    let mut lines = String::new(alloc);
    for (place, error) in sink.reports() {
        writeln!(lines, "{place}: {error}")?;
    }
    Ok(lines)
}

/// The reports of a part of a document, whose path is given, against a root.
fn reports_held<'a, T: Validate>(
    alloc: Global,
    (rules, root): (&Rules<'_>, &Root),
    part: &'a T,
    path: &mut Steps<'a>,
) -> Result<Collect> {
    let mut sink = Collect::new(alloc);
    let ended = part.validate_with(rules, root, path, &mut sink);
    if ended.is_err() {
        return None.context("a walk stopped before its end");
    }
    Ok(sink)
}

/// The same as lines.
pub fn collected<'a, T: Validate>(
    alloc: Global,
    against: (&Rules<'_>, &Root),
    part: &'a T,
    path: &mut Steps<'a>,
) -> Result<String> {
    let sink = reports_held(alloc, against, part, path)?;
    Ok(lines_of(alloc, &sink)?)
}

/// The reports that a walk gives, and what it gives behind the last one.
fn walked(alloc: Global, rules: Rules<'_>, root: &Root) -> Result<String, AllocError> {
    let mut walk = Walk::with_rules(rules, root);
    let mut lines = String::new(alloc);
    if !walk.steps().is_empty() {
        lines.push_str("a path before the first report\n")?;
    }
    for _ in 0..u32::MAX {
        let Some(error) = walk.next_report() else {
            break;
        };
        let place = Path::of(alloc, walk.steps())?;
        writeln!(lines, "{place}: {error}")?;
    }
    if walk.next_report().is_some() || !walk.steps().is_empty() {
        lines.push_str("more behind the last report\n")?;
    }
    Ok(lines)
}

/// Why a bounded sink refuses a report.
#[derive(Clone, Copy, Debug, Drop)]
enum Refusal {
    Full,
    NoMemory,
}

/// A sink that takes so many reports, each as a line, and refuses the next.
#[derive(Drop)]
struct Bounded {
    alloc: Global,
    taken: usize,
    limit: usize,
    lines: String,
}

impl Sink for Bounded {
    type Refusal = Refusal;

    ghost State = { ℕ };

    ghost state = { λ s. s.taken };

    ghost next = { λ n _ _. n + 1 };

    ghost refuses = { λ _ _ _ _ _. ⊤ };

    fn report(&mut self, path: &Steps<'_>, error: Error) -> Result<(), Refusal> {
        if self.taken >= self.limit {
            return Err(Refusal::Full);
        }
        self.taken += 1;
        match write_line(self.alloc, &mut self.lines, path, error) {
            Ok(()) => Ok(()),
            Err(_) => Err(Refusal::NoMemory),
        }
    }
}

/// Appends a report as a line.
fn write_line(
    alloc: Global,
    lines: &mut String,
    path: &Steps<'_>,
    error: Error,
) -> Result<(), AllocError> {
    let place = Path::of(alloc, path)?;
    writeln!(lines, "{place}: {error}")
}

/// What a bounded sink holds of a document's reports, and a last line that says how validation
/// ended, and how long the path is then.
fn held_by_bounded(
    alloc: Global,
    rules: &Rules<'_>,
    root: &Root,
    limit: usize,
) -> Result<String, AllocError> {
    let mut path = Steps::new();
    let mut sink = Bounded {
        alloc,
        taken: 0,
        limit,
        lines: String::new(alloc),
    };
    let ended = root.validate_with(rules, root, &mut path, &mut sink);
    let step_count = path.len();
    writeln!(sink.lines, "{ended:?}, {step_count} steps")?;
    Ok(sink.lines)
}

/// Whether sinks that take none of the reports of a document, one, two and so on until all, hold
/// the first of them.
fn are_fronts_held(alloc: Global, rules: &Rules<'_>, root: &Root) -> Result<bool> {
    let sink = reports_held(alloc, (rules, root), root, &mut Steps::new())?;
    let mut due = String::new(alloc);
    let mut limit: usize = 0;
    for (place, error) in sink.reports() {
        let held = held_by_bounded(alloc, rules, root, limit)?;
        if held.strip_prefix(due.as_str()) != Some("Err(Sink(Full)), 0 steps\n") {
            return Ok(false);
        }
        writeln!(due, "{place}: {error}")?;
        limit = limit.saturating_add(1);
    }
    let held = held_by_bounded(alloc, rules, root, limit)?;
    Ok(held.strip_prefix(due.as_str()) == Some("Ok(()), 0 steps\n"))
}

/// Names the way that gives other reports of a document by rules than these lines.
pub fn reports_difference(
    alloc: Global,
    rules: Rules<'_>,
    root: &Root,
    lines: &str,
) -> Result<Option<&'static str>> {
    if collected(alloc, (&rules, root), root, &mut Steps::new())?.as_str() != lines {
        return Ok(Some("other reports are collected"));
    }
    if walked(alloc, rules, root)?.as_str() != lines {
        return Ok(Some("a walk gives other reports"));
    }
    if !are_fronts_held(alloc, &rules, root)? {
        return Ok(Some("a sink that is full holds other reports"));
    }
    Ok(None)
}
