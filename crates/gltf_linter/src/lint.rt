//! One file after the other.

use crate::arguments::Checks;
use crate::document::{document_of, is_container, unread_refusal};
use crate::files::{Buffers, Entries, Kind};
use crate::messages::{counts_line, refusal_line, summary_line};
use crate::progress::Progress;
use crate::refusal::{Refusal, entry_refusal};
use crate::report::report_of;
use crate::tally::Tally;
use crate::words::NOT_UTF8;
use gltf_findings_lines::{Checker, Counts, File, FileFindings, FindingOptions, Severity, Style};
use gltf_report_lines::found_in;
use std::alloc::{AllocError, Global};
use std::io;

/// What is printed for a file, and what is wrong in it.
#[derive(Drop)]
struct Checked {
    lines: String,
    /// How many reports there are, or findings that decide the exit status.
    faults: u64,
    counts: Counts,
    /// Why the file is refused, if it is.
    refusal: Option<Refusal>,
}

/// What is printed for the findings of a file, and whether it is refused. The validator's report of
/// a refusal comes in place of that of the findings.
fn checked_findings(
    alloc: Global,
    options: &FindingOptions<'_>,
    fail_level: Severity,
    file: &File<'_>,
    found: FileFindings,
) -> Checked {
    let faults = found.counts.at_least(fail_level);
    let counts = found.counts;
    match found.refusal() {
        Some(unread) => Checked {
            lines: match options.style {
                Style::Lines(_) => found.lines,
                Style::Khronos => String::new(alloc),
            },
            faults,
            counts,
            refusal: Some(unread_refusal(alloc, file, unread)),
        },
        None => Checked {
            lines: found.lines,
            faults,
            counts,
            refusal: None,
        },
    }
}

/// What is still to be checked, and what was found so far.
#[derive(Drop)]
pub struct Linter<'a> {
    rt: &'a HostRuntime,
    checks: Checks<'a>,
    checker: Checker,
    /// The severity from which on a finding decides the exit status.
    fail_level: Severity,
    /// Paths, of which the first one is at the end.
    waiting: Vec<(String, Kind)>,
    tally: Tally,
    counts: Counts,
    progress: Progress,
    buffers: Buffers,
}

impl<'a> Linter<'a> {
    pub fn new(
        rt: &'a HostRuntime,
        checks: Checks<'a>,
        fail_level: Severity,
    ) -> io::Result<Linter<'a>> {
        Ok(Linter {
            rt,
            checks,
            checker: Checker::new(rt.alloc())?,
            fail_level,
            waiting: Vec::new(rt.alloc()),
            tally: Tally::new(),
            counts: Counts::new(),
            progress: Progress::new(rt),
            buffers: Buffers::new(rt.alloc())?,
        })
    }

    /// Checks what these arguments name, in their order, and prints what is wrong.
    pub fn check_all(&mut self, names: &[&str]) -> io::Result<()> {
        for name in names {
            self.check_argument(name)?;
        }
        Ok(())
    }

    /// Checks the file or the folder that an argument names. A folder without a document, here or
    /// below, is refused.
    fn check_argument(&mut self, name: &str) -> io::Result<()> {
        if let Some(name) = name.strip_suffix(NOT_UTF8) {
            return self.refuse(name, &Refusal::Argument);
        }
        let kind = Kind::of_argument(self.rt, name);
        let before = self.tally.files;
        let path = String::from_str(self.rt.alloc(), name)?;
        self.waiting.push((path, kind))?;
        for _ in 0..u64::MAX {
            match self.waiting.pop() {
                Some((path, Kind::File)) => self.check(&path)?,
                Some((path, Kind::Folder)) => self.expand(&path)?,
                None => break,
            }
        }
        if matches!(kind, Kind::Folder) && self.tally.files == before {
            self.refuse(name, &Refusal::Empty)?;
        }
        Ok(())
    }

    /// Prints the summary, and returns the exit status.
    pub fn finish(&mut self) -> io::Result<u8> {
        let line = self.summary()?;
        self.print(line.as_str())?;
        Ok(self.tally.status())
    }

    /// The line behind those of all files, if there is one.
    fn summary(&self) -> Result<String, AllocError> {
        let alloc = self.rt.alloc();
        match (self.checks, self.checks.style()) {
            (_, Style::Khronos) => Ok(String::new(alloc)),
            (Checks::Findings(_), Style::Lines(format)) => counts_line(
                alloc,
                format,
                &self.tally,
                &self.counts,
            ),
            (Checks::Reports(_), Style::Lines(format)) => summary_line(alloc, format, &self.tally),
        }
    }

    /// Prints lines.
    fn print(&mut self, lines: &str) -> io::Result<()> {
        if !lines.is_empty() {
            self.progress.clear(self.rt)?;
            self.rt.print(lines)?;
        }
        Ok(())
    }

    /// Puts what is in a folder in front, in order of names.
    fn expand(&mut self, folder: &str) -> io::Result<()> {
        match Entries::of(self.rt, folder) {
            Ok(entries) => {
                for error in entries.errors {
                    self.refuse(folder, &entry_refusal(error))?;
                }
                for entry in entries.found.into_iter().rev() {
                    self.waiting.push(entry)?;
                }
                Ok(())
            }
            Err(error) => self.refuse(folder, &Refusal::Unreadable(error)),
        }
    }

    /// Checks a file, and prints what is wrong in it.
    fn check(&mut self, path: &str) -> io::Result<()> {
        match self.checked(path) {
            Ok(checked) => {
                let Checked {
                    lines,
                    counts,
                    faults,
                    refusal,
                } = checked;
                self.print(lines.as_str())?;
                self.counts.add(&counts);
                match refusal {
                    Some(refusal) => self.refuse(path, &refusal)?,
                    None => self.tally.add_checked(faults),
                }
            }
            Err(refusal) => self.refuse(path, &refusal)?,
        }
        self.progress.show(self.rt, self.tally.files)
    }

    /// What is wrong in a file. Fails if it can't be read, or with `--reports` if it holds no
    /// document.
    fn checked(&mut self, path: &str) -> Result<Checked, Refusal> {
        let alloc = self.rt.alloc();
        let bytes = self.buffers.read(self.rt, path)?;
        match &self.checks {
            Checks::Findings(options) => {
                let file = File {
                    name: path,
                    bytes,
                    is_container: is_container(path, bytes),
                };
                let found = self.checker.check(alloc, options, &file)?;
                Ok(checked_findings(alloc, options, self.fail_level, &file, found))
            }
            Checks::Reports(options) => {
                let root = document_of(alloc, path, bytes)?;
                let found = found_in(alloc, options, path, &root)?;
                Ok(Checked {
                    lines: found.lines,
                    faults: found.faults,
                    counts: Counts::new(),
                    refusal: None,
                })
            }
        }
    }

    /// Prints why a path is refused.
    fn refuse(&mut self, path: &str, refusal: &Refusal) -> io::Result<()> {
        let line = self.refusal(path, refusal)?;
        self.print(line.as_str())?;
        self.tally.add_refused();
        Ok(())
    }

    /// The line of a refusal.
    fn refusal(&self, path: &str, refusal: &Refusal) -> Result<String, AllocError> {
        match self.checks.style() {
            Style::Lines(format) => refusal_line(self.rt.alloc(), format, path, refusal),
            Style::Khronos => report_of(self.rt.alloc(), path, refusal),
        }
    }
}
