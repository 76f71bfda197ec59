//! What errors print.

use crate::shows;
use gltf_json::root::{Failed, PushError};
use gltf_json::validation::{CleanError, Error, Refused, Stop};
use std::alloc::{AllocError, Global};
use std::test::Fail;

/// What refused pushes print.
fn pushes_shown(alloc: Global) -> Result<String, AllocError> {
    format!(in alloc;
        "{}, {}, {}, {}, {}",
        PushError::Full(7),
        PushError::Memory(7),
        CleanError::Full(7),
        CleanError::Memory(7),
        CleanError::Faulty(7, Error::Missing)
    )
}

/// What refusals with a report, stopped walks and failed devices print.
fn refusals_shown(alloc: Global) -> Result<String, AllocError> {
    let full: Stop<Error> = Stop::StepsFull;
    format!(in alloc;
        "{}, {}, {}, {full}, {}, {Failed}",
        Refused::Full(7),
        Refused::Memory(7),
        Refused::NoItem(7),
        Stop::Sink(Error::Missing)
    )
}

#[test]
fn errors_are_printed(rt: HostRuntime) -> Result<(), Fail> {
    shows(
        pushes_shown(rt.alloc()),
        "List is full, Out of memory, List is full, Out of memory, Missing data",
    )?;
    shows(
        refusals_shown(rt.alloc()),
        "List is full, Out of memory, Index out of bounds, Path is full, Report refused, device failed",
    )?;
    Ok(())
}
