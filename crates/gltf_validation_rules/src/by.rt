//! Sinks that are written without contracts.

use crate::sink::Sink;
use gltf_base::Steps;
use gltf_base::validation::Error;

/// A receiver of reports without contracts. [`By`] makes it a [`Sink`].
pub trait Take {
    /// Why a report is refused.
    type Refusal;

    /// Takes a report: a fault, and the path to its place. Any error stops the walk.
    fn take(&mut self, path: &Steps<'_>, error: Error) -> Result<(), Self::Refusal>;
}

/// A sink that hands each report on to a [`Take`]. After the walk, the field holds the `Take` again.
///
/// The contract of a walk into it promises when the walk stops. `Stop::Sink` comes only if there is
/// something to report. `Stop::StepsFull` comes only if a place may be more than 16 steps away. It
/// promises nothing about the field, and not which reports were handed on. For a proof of these,
/// write a `Sink`, whose ghost members say what it holds.
#[derive(Clone, Debug, Drop)]
pub struct By<T>(pub T);

impl<T: Take> Sink for By<T> {
    type Refusal = T::Refusal;

    ghost use Rattle.std.specs.Prelude.{⊤};

    ghost State = { ⊤ };

    ghost state = { λ _. tt };

    ghost next = { λ _ _ _. tt };

    ghost refuses = { λ _ _ _ _ _. ⊤ };

    fn report(&mut self, path: &Steps<'_>, error: Error) -> Result<(), T::Refusal> {
        self.0.take(path, error)
    }
}
