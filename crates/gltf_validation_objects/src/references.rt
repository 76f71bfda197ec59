//! References to textures, and the objects in which only such references can be wrong.
#![tactic(auto, using(crate::proofs::Past::past))]

ghost use Rattle.std.specs.Prelude.{◌≡◌, ◌+◌, ◌<◌, ◌^◌};
ghost use Rattle.gltf_schema.specs.Fields.{index_tree};
ghost use Rattle.gltf_schema.specs.Tree.{absent, tree_or_absent};
ghost use Rattle.gltf_validation_rules.specs.Context.{Context as SpecContext, context_of};
ghost use Rattle.gltf_validation_objects.specs.Moves.{IsGiven, IsMore};
ghost use Rattle.gltf_validation_objects.specs.Checklist.{move_at, quiet};
ghost use Rattle.gltf_validation_objects.specs.ChecklistOf.{checklist};
ghost use Rattle.gltf_validation_objects.specs.References.{index_checklist, one_texture, reference_checklist, two_textures};

use crate::event::{Event, EventBuilder};
use crate::member_name::MemberName;
use crate::visitable::Visitable;
use gltf_base::Index;
use gltf_base::validation::Error;
use gltf_parts::texture::Texture;
use gltf_validation_rules::{Context, HasContext, index_fault};

/// What was found at a member that is a reference to a texture. Only its index can be wrong.
#[derive(Clone, Copy, Drop)]
pub enum ReferenceState {
    Absent,
    Resolved,
    OutOfBounds,
}

impl ReferenceState {
    /// Whether nothing is wrong with the reference.
    pub(crate) fn is_quiet(self) -> bool
        ensures { result ≡ quiet (reference_checklist self) }
    {
        match self {
            ReferenceState::Absent | ReferenceState::Resolved => true,
            ReferenceState::OutOfBounds => false,
        }
    }
}

/// A reference to a texture.
pub(crate) trait TextureReference: Visitable {
    /// What is found at the reference.
    fn state(&self, context: &Context<'_>) -> ReferenceState
        ensures { reference_checklist result
            ≡ checklist Self.kind (Self.tree self.now) (context_of context.now) absent };
}

/// What is found at an index of a texture.
pub(crate) fn index_state(index: &Index<Texture>, context: &Context<'_>) -> ReferenceState
    ensures { reference_checklist result
        ≡ index_checklist (context_of context.now) (index_tree index.now) }
{
    match index_fault(index, context.root) {
        None => ReferenceState::Resolved,
        Some(_) => ReferenceState::OutOfBounds,
    }
}

/// Whether nothing is wrong in a reference to a texture.
pub(crate) fn is_reference_quiet<T: TextureReference, C: HasContext>(
    reference: &T,
    context: &C,
) -> bool
    ensures { result ≡ quiet (checklist T.kind (T.tree reference.now) (C.context context.now) absent) }
{
    reference.state(&context.context()).is_quiet()
}

/// What is found at a member that may be absent.
pub(crate) fn member_state<T: TextureReference>(
    reference: &Option<T>,
    context: &Context<'_>,
) -> ReferenceState
    ensures { reference_checklist result ≡ checklist T.kind (tree_or_absent T.tree reference.now)
        (context_of context.now) absent }
{
    match reference {
        Some(reference) => reference.state(context),
        None => ReferenceState::Absent,
    }
}

/// The event at a number of a reference.
pub fn in_reference<'a, E: EventBuilder<'a>>(state: ReferenceState, number: usize) -> E
    ensures comes { (context : _)
        → E.describes_move context (move_at (reference_checklist state) number) result }
    ensures small { E.is_more result → number + 1 < 2 ^ 64 }
{
    match (number, state) {
        (0, ReferenceState::Resolved) => E::fault_at("index", None),
        (0, ReferenceState::OutOfBounds) => E::fault_at("index", Some(Error::IndexOutOfBounds)),
        _ => E::end(),
    }
}

/// The event at a number of an object in which one reference can be wrong.
pub fn in_one_texture<'a>(state: ReferenceState, name: MemberName, number: usize) -> Event<'a>
    ensures comes { (context : SpecContext)
        → IsGiven context (move_at (one_texture state name) number) result }
    ensures small { IsMore result → number + 1 < 2 ^ 64 }
{
    match number {
        0 => Event::reference_at(name.text(), state),
        _ => Event::End,
    }
}

/// The event at a number of an object in which two references can be wrong.
pub fn in_two_textures<'a>(
    first: ReferenceState,
    second: ReferenceState,
    first_name: MemberName,
    second_name: MemberName,
    number: usize,
) -> Event<'a>
    ensures comes { (context : SpecContext) → IsGiven context
        (move_at (two_textures first second first_name second_name) number) result }
    ensures small { IsMore result → number + 1 < 2 ^ 64 }
{
    match number {
        0 => Event::reference_at(first_name.text(), first),
        1 => Event::reference_at(second_name.text(), second),
        _ => Event::End,
    }
}
