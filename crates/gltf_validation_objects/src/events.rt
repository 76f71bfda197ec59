//! The events of objects.

ghost use Rattle.std.specs.Prelude.{◌≡◌, ◌+◌, ◌<◌, ◌^◌};
ghost use Rattle.gltf_schema.specs.Tree.{absent};
ghost use Rattle.gltf_validation_objects.specs.Checklist.{move_at};
ghost use Rattle.gltf_validation_objects.specs.ChecklistOf.{checklist};

use crate::event::EventBuilder;
use crate::visitable::Visitable;
use gltf_validation_rules::HasContext;

/// An object in whose members something can be wrong.
pub trait Events<'a, E: EventBuilder<'a>>: Visitable {
    /// The event at a number: first the members in which something can be wrong, in the order of
    /// the rows, then the places that the object's rule names.
    fn event<C: HasContext>(&'a self, number: usize, context: &C) -> E
        ensures comes { E.describes_move (C.context context.now)
            (move_at (checklist Self.kind (Self.tree self.now) (C.context context.now) absent) number)
            result }
        ensures small { E.is_more result → number + 1 < 2 ^ 64 };
}
