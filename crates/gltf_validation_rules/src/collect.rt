//! A sink that keeps what is reported.

ghost use Rattle.std.specs.Prelude.{◌≡◌, ℕ, List, []};
ghost use Rattle.gltf_base.specs.declared.validation.Error.{Error};
ghost use Rattle.gltf_validation_rules.specs.Sinks.{texts_and_faults, reports_collected, with_report};

use crate::sink::Sink;
use gltf_base::validation::Error;
use gltf_base::{Path, Steps};
use std::alloc::{AllocError, Global};

/// A sink that collects reports. It refuses a report only if out of memory.
#[derive(Clone, Debug, Drop)]
pub struct Collect {
    alloc: Global,
    reports: Vec<(Path, Error)>,
}

impl Collect {
    /// Returns an empty collection. It takes no memory yet.
    pub fn new(alloc: Global) -> Collect
        ensures { reports_collected result ≡ [] }
    {
        Collect {
            alloc,
            reports: Vec::new(alloc),
        }
    }

    /// Returns the reports so far: for each its path and its fault.
    pub fn reports(&self) -> &[(Path, Error)]
        ensures { texts_and_faults result.now ≡ reports_collected self.now }
    {
        self.reports.as_slice()
    }
}

impl Sink for Collect {
    type Refusal = AllocError;

    ghost State = { List (List ℕ × Error) };

    ghost state = { reports_collected };

    ghost next = { with_report };

    // A report that is refused leaves the others as they were.
    ghost refuses = { λ old _ _ _ new. new ≡ old };

    fn report(&mut self, path: &Steps<'_>, error: Error) -> Result<(), AllocError> {
        let place = Path::of(self.alloc, path)?;
        self.reports.push((place, error))?;
        Ok(())
    }
}
