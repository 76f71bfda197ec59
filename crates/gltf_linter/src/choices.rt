//! The choices of the caller, from the arguments.

use clap::ArgMatches;
use gltf_findings_lines::{Choices, Ignored, Leveled, code_named, severity_named};
use std::alloc::{AllocFailed, Global};
use thiserror::Error;

/// What is wrong with the value of an option.
#[derive(Clone, Copy, Debug, Error)]
pub enum Fault {
    #[error("no code has this name")]
    UnknownCode,
    #[error("CODE=LEVEL is wanted")]
    NoLevel,
    #[error("LEVEL is none of error, warning, information and hint")]
    UnknownLevel,
    #[error("the pointer doesn't begin with /")]
    Pointer,
    #[error("not with --reports")]
    Reports,
}

/// Why the choices can't be read.
#[derive(Clone, Copy, Debug, Error)]
pub enum ChoiceError<'a> {
    #[error("invalid value '{value}' for '{option}': {fault}")]
    Invalid {
        option: &'a str,
        value: &'a str,
        fault: Fault,
    },
    #[error("out of memory")]
    Memory,
}

impl<'a, T: Drop> From<AllocFailed<T>> for ChoiceError<'a> {
    fn from(_refused: AllocFailed<T>) -> ChoiceError<'a> {
        ChoiceError::Memory
    }
}

/// The choices of the caller.
#[derive(Drop)]
pub struct ChoiceLists<'a> {
    severities: Vec<Leveled<'a>>,
    ignored: Vec<Ignored<'a>>,
}

impl<'a> ChoiceLists<'a> {
    /// The choices that the arguments make.
    pub fn of(alloc: Global, matches: &ArgMatches<'a>) -> Result<ChoiceLists<'a>, ChoiceError<'a>> {
        if matches.get_flag("reports") && matches.get_str("format") == Some("khronos") {
            return Err(invalid("--format <FORMAT>", "khronos", Fault::Reports));
        }
        let mut severities = Vec::new(alloc);
        let mut ignored = Vec::new(alloc);
        for value in matches.get_strs("severity").unwrap_or(&[]) {
            match leveled(value) {
                Ok(choice) => severities.push(choice)?,
                Err(fault) => return Err(invalid("--severity <CODE=LEVEL>", value, fault)),
            }
        }
        for value in matches.get_strs("ignore").unwrap_or(&[]) {
            match ignored_by(value) {
                Ok(choice) => ignored.push(choice)?,
                Err(fault) => return Err(invalid("--ignore <CODE[:POINTER]>", value, fault)),
            }
        }
        Ok(ChoiceLists {
            severities,
            ignored,
        })
    }

    /// The choices, borrowed.
    pub fn as_choices(&self) -> Choices<'_> {
        Choices {
            severities: &self.severities,
            ignored: &self.ignored,
        }
    }
}

fn invalid<'a>(option: &'a str, value: &'a str, fault: Fault) -> ChoiceError<'a> {
    ChoiceError::Invalid {
        option,
        value,
        fault,
    }
}

/// The choice `CODE=LEVEL`.
fn leveled(value: &str) -> Result<Leveled<'_>, Fault> {
    let Some((code, level)) = value.split_once('=') else {
        return Err(Fault::NoLevel);
    };
    if code_named(code).is_none() {
        return Err(Fault::UnknownCode);
    }
    match severity_named(level) {
        Some(severity) => Ok(Leveled { code, severity }),
        None => Err(Fault::UnknownLevel),
    }
}

/// The choice `CODE` or `CODE:POINTER`.
fn ignored_by(value: &str) -> Result<Ignored<'_>, Fault> {
    let (code, pointer) = value.split_once(':').unwrap_or((value, ""));
    if code_named(code).is_none() {
        return Err(Fault::UnknownCode);
    }
    if !pointer.is_empty() && !pointer.starts_with('/') {
        return Err(Fault::Pointer);
    }
    Ok(Ignored { code, pointer })
}
