//! The events of a walk, and how an object or a list makes them.

ghost use Rattle.std.specs.Prelude.{◌≡◌};
ghost use Rattle.gltf_base.specs.Steps.{field, item as at_number, step_of};
ghost use Rattle.gltf_schema.specs.Tree.{absent};
ghost use Rattle.gltf_validation_rules.specs.Context.{Context as SpecContext};
ghost use Rattle.gltf_validation_objects.specs.ValueRefs.{checklist_of};
ghost use Rattle.gltf_validation_objects.specs.Checklist.{Move, down, first_move, leaf, over, quiet};
ghost use Rattle.gltf_validation_objects.specs.ChecklistOf.{checklist};
ghost use Rattle.gltf_validation_objects.specs.Moves.{IsGiven, IsMore};
ghost use Rattle.gltf_validation_objects.specs.References.{reference_checklist};

use crate::quiet::Quiet;
use crate::references::ReferenceState;
use crate::value_ref::ValueRef;
use gltf_base::Step;
use gltf_base::validation::Error;
use gltf_validation_rules::HasContext;

/// What a walk meets next in a value.
#[derive(Clone, Copy, Drop)]
pub enum Event<'a> {
    /// A step down, to a value.
    Enter(Step<'a>, ValueRef<'a>),
    /// A fault at the place of the value itself.
    Fault(Error),
    /// Nothing more.
    End,
}

/// What an object or a list makes of its next move. A walk makes an [`Event`], a look a
/// [`Look`](crate::look::Look). Code that is generic over this trait doesn't name the values of a
/// whole document, so its proofs stay small.
pub trait EventBuilder<'a>: Sized {
    /// The result describes a move of a checklist, in a context. Each call promises it of every move
    /// that is equal to its own, which is the form that proofs of `event` use.
    ghost describes_move: { SpecContext → Move → Self → Type 0 };

    ghost is_more: { Self → Type 0 };

    /// A member of an object.
    fn member<T: Quiet, C: HasContext>(name: &'static str, value: &'a T, context: &C) -> Self
        ensures { (move : Move) → down (field name.now) (checklist T.kind (T.tree value.now)
            (C.context context.now) absent) ≡ move
            → describes_move (C.context context.now) move result };

    /// An item of a list.
    fn item<T: Quiet, C: HasContext>(number: usize, value: &'a T, context: &C) -> Self
        ensures { (move : Move) → down (at_number number) (checklist T.kind (T.tree value.now)
            (C.context context.now) absent) ≡ move
            → describes_move (C.context context.now) move result };

    /// A fault at a member of an object, or none.
    fn fault_at(name: &'static str, fault: Option<Error>) -> Self
        ensures { (context : _) (move : Move) → down (field name.now) (leaf fault) ≡ move
            → describes_move context move result };

    /// A fault at the place itself, or none, after which nothing comes.
    fn fault_here(fault: Option<Error>) -> Self
        ensures { (context : _) (move : Move) → first_move (leaf fault) ≡ move
            → describes_move context move result };

    /// A member of an object that is a reference to a texture.
    fn reference_at(name: &'static str, state: ReferenceState) -> Self
        ensures { (context : _) (move : Move) → down (field name.now) (reference_checklist state)
            ≡ move → describes_move context move result };

    /// A step down to a value, of which the caller says whether it is quiet.
    fn enter<C: HasContext>(
        step: Step<'a>,
        value: ValueRef<'a>,
        is_quiet: bool,
        context: &C,
    ) -> Self
        requires { is_quiet ≡ quiet (checklist_of (C.context context.now) value) }
        ensures { (move : Move)
            → down (step_of step.entry) (checklist_of (C.context context.now) value.entry) ≡ move
            → describes_move (C.context context.now) move result };

    /// Nothing more.
    fn end() -> Self
        ensures comes { (context : _) (move : Move) → over ≡ move
            → describes_move context move result }
        ensures ends { is_more result → ⊥ };
}

impl<'a> EventBuilder<'a> for Event<'a> {
    ghost describes_move = { IsGiven };

    ghost is_more = { IsMore };

    fn member<T: Quiet, C: HasContext>(name: &'static str, value: &'a T, context: &C) -> Event<'a> {
        Event::Enter(Step::Field(name), value.value_ref(&context.context()))
    }

    fn item<T: Quiet, C: HasContext>(number: usize, value: &'a T, context: &C) -> Event<'a> {
        Event::Enter(Step::Index(number), value.value_ref(&context.context()))
    }

    fn fault_at(name: &'static str, fault: Option<Error>) -> Event<'a> {
        Event::Enter(Step::Field(name), ValueRef::Leaf(fault))
    }

    fn fault_here(fault: Option<Error>) -> Event<'a> {
        match fault {
            Some(error) => Event::Fault(error),
            None => Event::End,
        }
    }

    fn reference_at(name: &'static str, state: ReferenceState) -> Event<'a> {
        Event::Enter(Step::Field(name), ValueRef::TextureReference(state))
    }

    fn enter<C: HasContext>(
        step: Step<'a>,
        value: ValueRef<'a>,
        _is_quiet: bool,
        _context: &C,
    ) -> Event<'a> {
        Event::Enter(step, value)
    }

    fn end() -> Event<'a> {
        Event::End
    }
}
