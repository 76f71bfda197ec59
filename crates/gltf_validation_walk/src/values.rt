//! The next event of any value that a walk comes to.

ghost use Rattle.std.specs.Prelude.{◌+◌, ◌<◌, ◌^◌};
ghost use Rattle.gltf_validation_rules.specs.Context.{context_of};
ghost use Rattle.gltf_validation_objects.specs.ValueRefs.{checklist_of, IsNumbered};
ghost use Rattle.gltf_validation_objects.specs.Moves.{IsGiven, IsMore};
ghost use Rattle.gltf_validation_objects.specs.Checklist.{Move, move_at};

use crate::derived::event_of;
use gltf_validation_objects::{Event, EventBuilder, ValueRef};
use gltf_validation_rules::Context;

/// What can be made of an event.
pub(crate) trait FromEvent<'a>: EventBuilder<'a> {
    /// The same move.
    fn from_event(event: Event<'a>) -> Self
        ensures comes { (context : _) (move : Move) → IsGiven context move event.entry
            → Self.describes_move context move result }
        ensures small { Self.is_more result → IsMore event.entry };
}

impl<'a> FromEvent<'a> for Event<'a> {
    fn from_event(event: Event<'a>) -> Event<'a> {
        event
    }
}

/// The event at a number of a value.
pub fn event<'a>(value: ValueRef<'a>, number: usize, context: &Context<'_>) -> Event<'a>
    requires { IsNumbered value }
    ensures comes { IsGiven (context_of context.now)
        (move_at (checklist_of (context_of context.now) value.entry) number) result }
    ensures small { IsMore result → number + 1 < 2 ^ 64 }
{
    event_of(value, number, context)
}
