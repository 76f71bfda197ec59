//! What the program `gltf_lint` does: it checks glTF documents in files, folders and standard input,
//! and prints what is wrong in each.
#![tactic(auto)]

mod arguments;
mod choices;
mod document;
mod files;
mod help;
mod lint;
mod messages;
mod progress;
mod refusal;
mod report;
mod tally;
mod text;
mod words;

use arguments::{Checks, command, enabled_extensions, fail_level};
use choices::ChoiceLists;
use clap::ArgMatches;
use help::long_help;
use lint::Linter;
use std::io::{self, ErrorKind};
use std::process::ExitCode;
use tally::REFUSED;
use words::words;

/// Checks what the arguments name, prints a summary and returns the exit status.
fn check(rt: &HostRuntime, matches: &ArgMatches<'_>) -> io::Result<u8> {
    let enabled = enabled_extensions(rt.alloc(), matches)?;
    let choices = match ChoiceLists::of(rt.alloc(), matches) {
        Ok(choices) => choices,
        Err(error) => {
            eprintln!(rt; "error: {error}\n\nFor more information, try '--help'.")?;
            return Ok(REFUSED);
        }
    };
    let checks = Checks::of(matches, choices.as_choices(), &enabled);
    let mut linter = Linter::new(rt, checks, fail_level(matches))?;
    linter.check_all(matches.get_strs("FILE").unwrap_or(&[]))?;
    linter.finish()
}

/// Reads the arguments and does what they say.
fn run(rt: &HostRuntime) -> io::Result<u8> {
    let alloc = rt.alloc();
    let words = words(rt)?;
    let help = long_help(alloc)?;
    match command(alloc, &help)?.try_get_matches_from(words.as_slice()) {
        Ok(matches) => check(rt, &matches),
        Err(error) => {
            error.print(rt)?;
            Ok(error.exit_code() as u8)
        }
    }
}

/// Reads the arguments of the program, does what they say, and returns the exit status
/// (docs/LINT.md, "Exit status").
pub fn lint_by_arguments(rt: &HostRuntime) -> ExitCode {
    match run(rt) {
        Ok(status) => ExitCode::from(status),
        Err(error) => {
            // Who closes the output early, as `head` does, wants no message.
            if error.kind() != ErrorKind::BrokenPipe {
                // There is nothing left to do if this fails too.
                let _ = eprintln!(rt; "gltf_lint: {error}");
            }
            ExitCode::from(REFUSED)
        }
    }
}
