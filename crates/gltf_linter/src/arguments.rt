//! The arguments of the program.

use clap::{Arg, ArgMatches, Command, arg, value_parser};
use gltf_findings_lines::{Choices, FindingOptions, Severity, Style, severity_named};
use gltf_report_lines::{LineFormat, Options};
use gltf_validation_rules::Rules;
use std::alloc::{AllocError, Global};

const AFTER_HELP: &str = "\
Exit status: 0 if nothing is wrong, 1 if there is a finding at or above the
level of --fail-on, or a report, 2 if a file was refused or the arguments are
wrong. --help lists what is checked.";

/// The names of `--format`.
const FORMATS: &[&str] = &["text", "json", "khronos"];

/// The values of `--positions`.
const POSITIONS: &[&str] = &["auto", "always", "never"];

/// The length of the longest JSON, in bytes, for whose findings `--positions auto` prints lines and
/// columns. Looking for them costs half as much again as all else.
const AUTO_POSITIONS: u64 = 1 << 20;

/// The names of severities.
const LEVELS: &[&str] = &["error", "warning", "information", "hint"];

/// The heading of the options that change reports.
const WITH_REPORTS: &str = "Options with --reports";

/// What is looked for in documents.
#[derive(Clone, Copy)]
pub enum Checks<'a> {
    /// What the specification requires and a document doesn't have.
    Findings(FindingOptions<'a>),
    /// What the ported crate reports.
    Reports(Options<'a>),
}

impl<'a> Checks<'a> {
    /// What the arguments choose. `enabled` are the extensions that a document may require.
    pub fn of(
        matches: &ArgMatches<'_>,
        choices: Choices<'a>,
        enabled: &'a [&'a str],
    ) -> Checks<'a> {
        let most = matches.get_one::<u64>("max").unwrap_or(u64::MAX);
        match style_of(matches) {
            Style::Lines(format) if matches.get_flag("reports") => Checks::Reports(Options {
                rules: Rules {
                    empty_texture: matches.get_flag("empty-textures"),
                    enabled,
                },
                format,
                most,
            }),
            style => Checks::Findings(FindingOptions {
                choices,
                style,
                positions_up_to: positions_up_to(matches),
                most,
            }),
        }
    }

    /// What is printed for a file.
    pub fn style(&self) -> Style {
        match self {
            Checks::Findings(options) => options.style,
            Checks::Reports(options) => Style::Lines(options.format),
        }
    }
}

/// What the arguments choose to print.
fn style_of(matches: &ArgMatches<'_>) -> Style {
    match matches.get_str("format") {
        Some("khronos") => Style::Khronos,
        Some("json") => Style::Lines(LineFormat::Json),
        _ if matches.get_flag("json") => Style::Lines(LineFormat::Json),
        _ => Style::Lines(LineFormat::Text),
    }
}

/// The length of the longest JSON for whose findings lines and columns are printed, in bytes.
fn positions_up_to(matches: &ArgMatches<'_>) -> u64 {
    match matches.get_str("positions") {
        Some("always") => u64::MAX,
        Some("never") => 0,
        _ => AUTO_POSITIONS,
    }
}

/// The severity from which on a finding decides the exit status.
pub fn fail_level(matches: &ArgMatches<'_>) -> Severity {
    match matches.get_str("fail-on") {
        Some(name) => severity_named(name).unwrap_or(Severity::Error),
        None => Severity::Error,
    }
}

/// The extensions that a document may require by the standard rules, and those that the arguments
/// enable.
pub fn enabled_extensions<'a>(
    alloc: Global,
    matches: &ArgMatches<'a>,
) -> Result<Vec<&'a str>, AllocError> {
    let mut enabled = Vec::new(alloc);
    for name in Rules::new().enabled {
        enabled.push(*name)?;
    }
    for name in matches.get_strs("enable").unwrap_or(&[]) {
        enabled.push(*name)?;
    }
    Ok(enabled)
}

/// The command, as `clap` reads its arguments. `help` is the text at the end of `--help`.
// Each option has a function: a long chain of calls is expensive to prove (docs/DECISIONS.md,
// "Long functions").
pub fn command<'a>(alloc: Global, help: &'a str) -> Result<Command<'a>, AllocError> {
    let command = with_output(alloc, with_files(alloc, help)?)?;
    with_reports(alloc, with_findings(alloc, command)?)
}

/// The command with its texts and its files.
fn with_files<'a>(alloc: Global, help: &'a str) -> Result<Command<'a>, AllocError> {
    Command::new(alloc, "gltf_lint")
        .version("1.4.1+1")
        .about("Checks glTF 2.0 documents and prints what is wrong in them")
        .after_help(AFTER_HELP)
        .after_long_help(help)
        .arg(arg!(in alloc;
            <FILE>... "A .gltf or .glb file, a folder of them, or - for standard input"
        ))
}

/// Adds the options of what is printed.
fn with_output<'a>(alloc: Global, command: Command<'a>) -> Result<Command<'a>, AllocError> {
    command
        .arg(arg!(in alloc; --json "Print a JSON object for each line"))?
        .arg(format_argument(alloc)?)?
        .arg(max_argument(alloc)?)
}

fn format_argument<'a>(alloc: Global) -> Result<Arg<'a>, AllocError> {
    arg!(in alloc; --format <FORMAT> "Print text, JSON or the validator's report")
        .value_parser(FORMATS)
        .conflicts_with("json")
}

fn max_argument<'a>(alloc: Global) -> Result<Arg<'a>, AllocError> {
    let most = arg!(in alloc; --max <N> "Print at most N findings for a file");
    Ok(most.value_parser(value_parser!(u64)))
}

/// Adds the options of findings.
fn with_findings<'a>(alloc: Global, command: Command<'a>) -> Result<Command<'a>, AllocError> {
    command
        .arg(severity_argument(alloc)?)?
        .arg(ignore_argument(alloc)?)?
        .arg(level_argument(alloc)?)?
        .arg(positions_argument(alloc)?)
}

fn severity_argument<'a>(alloc: Global) -> Result<Arg<'a>, AllocError> {
    let severity = arg!(in alloc; --severity <"CODE=LEVEL">... "Give a code another severity");
    severity.conflicts_with("reports")
}

fn ignore_argument<'a>(alloc: Global) -> Result<Arg<'a>, AllocError> {
    let ignore = arg!(in alloc; --ignore <"CODE[:POINTER]">... "Leave out findings with a code");
    ignore.conflicts_with("reports")
}

fn level_argument<'a>(alloc: Global) -> Result<Arg<'a>, AllocError> {
    arg!(in alloc; --"fail-on" <LEVEL> "Findings as severe as this give status 1")
        .value_parser(LEVELS)
        .conflicts_with("reports")
}

fn positions_argument<'a>(alloc: Global) -> Result<Arg<'a>, AllocError> {
    arg!(in alloc; --positions <WHEN> "Print lines and columns; auto: up to 1 MiB of JSON")
        .value_parser(POSITIONS)
        .conflicts_with("reports")
}

/// Adds the options of reports.
fn with_reports<'a>(alloc: Global, command: Command<'a>) -> Result<Command<'a>, AllocError> {
    command
        .arg(arg!(in alloc; --reports "Print the reports of the crate gltf-json, not findings"))?
        .arg(enable_argument(alloc)?)?
        .arg(textures_argument(alloc)?)
}

fn enable_argument<'a>(alloc: Global) -> Result<Arg<'a>, AllocError> {
    arg!(in alloc; --enable <NAMES>... "Documents may require these too: A,B")
        .value_delimiter(',')
        .help_heading(WITH_REPORTS)
        .requires_arg("reports")
}

fn textures_argument<'a>(alloc: Global) -> Result<Arg<'a>, AllocError> {
    arg!(in alloc; --"empty-textures" "Textures may be without an image")
        .help_heading(WITH_REPORTS)
        .requires_arg("reports")
}
