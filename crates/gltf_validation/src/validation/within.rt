//! A value one step further.

ghost use Rattle.std.specs.Prelude.{◌≡◌, ◌+◌, ◌++◌, ◌∷◌, []};
ghost use Rattle.gltf_base.specs.Steps.{step_of};
ghost use Rattle.gltf_validation_rules.specs.SinkOutcome.{Walked};
ghost use Rattle.gltf_validation.specs.ByType.{reports_by};

use super::Validate;
use gltf_base::{Step, Steps};
use gltf_validation_rules::{HasContext, Sink, Stop};

/// Validates a value one step further.
pub(crate) fn within<'a, T: Validate, C: HasContext, S: Sink>(
    value: &'a T,
    step: Step<'a>,
    context: &C,
    path: &mut Steps<'a>,
    sink: &mut S,
) -> Result<(), Stop<S::Refusal>>
    ensures { Walked S.next S.refuses path.old (S.state sink.old)
        (λ base. reports_by T.kind (T.tree value.now) (T.own value.now) (C.context context.now)
        (base ++ step_of step.entry ∷ [])) (T.depth + 1) result path.new (S.state sink.new) }
{
    if path.is_full() {
        return Err(Stop::StepsFull);
    }
    path.push(step);
    let by = context.context();
    let walked = value.validate_with(by.rules, by.root, path, sink);
    path.pop();
    walked
}
