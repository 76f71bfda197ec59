//! A look at a move: whether anything is wrong there.

ghost use Rattle.std.specs.Prelude.{◌≡◌};
ghost use Rattle.gltf_base.specs.Steps.{Step as SpecStep};
ghost use Rattle.gltf_validation_objects.specs.Moves.{IsSeen, IsSomething};
ghost use Rattle.gltf_validation_objects.specs.Checklist.{Checklist, Move, down, quiet};

use crate::event::EventBuilder;
use crate::quiet::Quiet;
use crate::references::ReferenceState;
use crate::value_ref::ValueRef;
use gltf_base::Step;
use gltf_base::validation::Error;
use gltf_validation_rules::HasContext;

/// What a look sees of the next move in a value.
#[derive(Clone, Copy, Drop)]
pub enum Look {
    /// A step down to a value in which nothing is wrong.
    Quiet,
    /// Something is wrong: at the place itself, or in the value that the step leads to.
    Faulty,
    /// Nothing more.
    Over,
}

impl Look {
    /// What a look sees of a step down to a value that is quiet or not.
    fn quiet_if(is_quiet: bool) -> Look
        ensures { (s : _) (p : Checklist) (move : Move) → is_quiet ≡ quiet p → down s p ≡ move
            → IsSeen move result }
    {
        if is_quiet { Look::Quiet } else { Look::Faulty }
    }
}

impl<'a> EventBuilder<'a> for Look {
    ghost describes_move = { λ _. IsSeen };

    ghost is_more = { IsSomething };

    fn member<T: Quiet, C: HasContext>(_name: &'static str, value: &'a T, context: &C) -> Look {
        Look::quiet_if(value.is_quiet(context))
    }

    fn item<T: Quiet, C: HasContext>(_number: usize, value: &'a T, context: &C) -> Look {
        Look::quiet_if(value.is_quiet(context))
    }

    fn fault_at(_name: &'static str, fault: Option<Error>) -> Look {
        Look::quiet_if(fault.is_none())
    }

    fn fault_here(fault: Option<Error>) -> Look {
        match fault {
            Some(_) => Look::Faulty,
            None => Look::Over,
        }
    }

    fn reference_at(_name: &'static str, state: ReferenceState) -> Look {
        Look::quiet_if(state.is_quiet())
    }

    fn enter<C: HasContext>(
        _step: Step<'a>,
        _value: ValueRef<'a>,
        is_quiet: bool,
        _context: &C,
    ) -> Look {
        Look::quiet_if(is_quiet)
    }

    fn end() -> Look {
        Look::Over
    }
}
