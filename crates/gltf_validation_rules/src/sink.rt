//! A receiver of reports.

ghost use Rattle.std.specs.Prelude.{◌≡◌, ℕ, List, OnOk, IfErr};
ghost use Rattle.gltf_base.specs.Steps.{Step, steps_of};
ghost use Rattle.gltf_base.specs.declared.validation.Error.{Error};
ghost use Rattle.gltf_validation_rules.specs.Sinks.{reports_counted, one_more};

use gltf_base::Steps;
use gltf_base::validation::Error;
use std::fmt::{self, Debug, Display, Formatter, Write};

/// A receiver of reports.
pub trait Sink {
    /// Why a report is refused.
    type Refusal;

    /// What contracts see of a sink.
    ghost State: { Type 0 };

    ghost state: { Self → State };

    /// The state after one more report that was taken.
    ghost next: { State → List Step → Error → State };

    /// When a report is refused, and the state then.
    ghost refuses: { State → List Step → Error → Self.Refusal → State → Type 0 };

    /// Takes a report: a fault, and the path to its place. Any error stops the walk.
    fn report(&mut self, path: &Steps<'_>, error: Error) -> Result<(), Self::Refusal>
        ensures taken { OnOk result (state self.new
            ≡ next (state self.old) (steps_of path.now) error) }
        ensures refused { IfErr result (λ r. refuses (state self.old) (steps_of path.now) error r
            (state self.new)) };
}

/// Why validation stopped before its end.
#[derive(Clone, Copy, Debug, Drop, PartialEq, Eq)]
pub enum Stop<R> {
    /// A path had no room for one more step.
    StepsFull,
    /// The sink refused a report.
    Sink(R),
}

impl<R> Display for Stop<R> {
    ghost use Rattle.gltf_validation_rules.specs.Stops.{stop_text};

    ghost output = { stop_text };

    /// The text is fixed. The variant holds why the sink refused the report.
    fn fmt<W: Write>(&self, f: &mut Formatter<W>) -> fmt::Result {
        match self {
            Stop::StepsFull => f.write_str("Path is full"),
            Stop::Sink(_) => f.write_str("Report refused"),
        }
    }
}

impl<R: Debug + Drop> std::error::Error for Stop<R> {}

/// The [`Sink::Refusal`] of a sink that refuses no report. Nothing makes a value of this type.
#[derive(Clone, Copy, Debug, Drop, PartialEq, Eq)]
pub struct NoRefusal {
    _private: (),
}

impl Display for NoRefusal {
    ghost use Rattle.std.specs.Prelude.{codes, Some};

    ghost output = { λ _. Some (codes "Report refused") };

    fn fmt<W: Write>(&self, f: &mut Formatter<W>) -> fmt::Result {
        f.write_str("Report refused")
    }
}

impl std::error::Error for NoRefusal {}

/// A sink that counts reports. It refuses none. At the greatest number of 64 bits it stops rising.
#[derive(Clone, Debug, Drop)]
pub struct Count {
    count: u64,
}

impl Count {
    /// Returns a count of zero.
    pub fn new() -> Count
        ensures { reports_counted result ≡ 0 }
    {
        Count { count: 0 }
    }

    /// Returns how many reports were counted.
    pub fn count(&self) -> u64
        ensures { result ≡ reports_counted self.now }
    {
        self.count
    }
}

impl Sink for Count {
    type Refusal = ();

    ghost State = { ℕ };

    ghost state = { reports_counted };

    ghost next = { one_more };

    ghost refuses = { λ _ _ _ _ _. ⊥ };

    fn report(&mut self, _path: &Steps<'_>, _error: Error) -> Result<(), ()> {
        self.count = self.count.saturating_add(1);
        Ok(())
    }
}
