//! Handing over what was found at a place.

ghost use Rattle.gltf_validation_rules.specs.Report.{found_at};
ghost use Rattle.gltf_validation_rules.specs.SinkOutcome.{Walked};

use crate::sink::{Sink, Stop};
use gltf_base::Steps;
use gltf_base::validation::Error;

/// Hands over what was found at a place, if anything. It stops with `Sink` if the sink refuses it.
pub fn tell<S: Sink>(
    path: &Steps<'_>,
    found: Option<Error>,
    sink: &mut S,
) -> Result<(), Stop<S::Refusal>>
    ensures { Walked S.next S.refuses path.now (S.state sink.old) (found_at found) 0 result path.now
        (S.state sink.new) }
{
    match found {
        None => Ok(()),
        Some(error) => match sink.report(path, error) {
            Ok(()) => Ok(()),
            Err(refusal) => Err(Stop::Sink(refusal)),
        },
    }
}
