//! Where a walk is in one value of a document, and what comes next there.

ghost use Rattle.std.specs.Prelude.{◌≡◌, ◌<◌, ◌∷◌, [], length};
ghost use Rattle.gltf_validation_rules.specs.Context.{context_of};
ghost use Rattle.gltf_validation_objects.specs.Moves.{move_of, IsMore};
ghost use Rattle.gltf_validation_objects.specs.Checklist.{first_move, rest_after};
ghost use Rattle.gltf_validation_walk.specs.Rest.{first_frame, checklist_left, IsNextOfLast};

use crate::attributes::next_attribute;
use crate::event;
use arrayvec::ArrayVec;
use gltf_base::mesh::Semantic;
use gltf_base::validation::Checked;
use gltf_validation_objects::{Event, ValueRef};
use gltf_validation_rules::Context;

/// A value, and where the walk is in it: in attributes behind a key, in any other value at a
/// number.
#[derive(Clone, Copy, Drop)]
pub(crate) struct Frame<'a> {
    pub(crate) value: ValueRef<'a>,
    /// The number of the next member or item.
    pub(crate) number: usize,
    /// The key of the last attribute that the walk came to.
    pub(crate) behind: Option<&'a Checked<Semantic>>,
}

impl<'a> Frame<'a> {
    /// A frame at the start of a value.
    pub(crate) fn at_start(value: ValueRef<'a>) -> Frame<'a>
        ensures { result ≡ first_frame value.entry }
    {
        Frame {
            value,
            number: 0,
            behind: None,
        }
    }
}

impl Default for Frame<'_> {
    fn default() -> Self {
        Frame::at_start(ValueRef::Leaf(None))
    }
}

/// The frames of a walk that begins in a value.
pub(crate) fn begun_in(value: ValueRef<'_>) -> ArrayVec<Frame<'_>, 16>
    ensures { result.items ≡ first_frame value.entry ∷ [] }
{
    let mut frames = ArrayVec::new();
    frames.push(Frame::at_start(value));
    frames
}

/// The next event of the last frame, which is behind that event then.
// The frame stays where it is: it has several words.
pub(crate) fn next_of_last<'a>(
    frames: &mut ArrayVec<Frame<'a>, 16>,
    context: &Context<'_>,
) -> Event<'a>
    requires { 0 < length frames.old.items }
    ensures { IsNextOfLast (context_of context.now) frames.old.items result frames.new.items }
{
    let last = frames.len() - 1;
    next_event(&mut frames[last], context)
}

/// The next event of a frame, which is behind that event then.
fn next_event<'a>(frame: &mut Frame<'a>, context: &Context<'_>) -> Event<'a>
    ensures comes { move_of (context_of context.now) result
        ≡ first_move (checklist_left (context_of context.now) frame.old) }
    ensures rest { IsMore result
        → checklist_left (context_of context.now) frame.new
        ≡ rest_after (checklist_left (context_of context.now) frame.old) 1 }
{
    match frame.value {
        ValueRef::Attributes(attributes) => next_attribute(attributes, &mut frame.behind, context),
        value => match event(value, frame.number, context) {
            Event::End => Event::End,
            next => {
                frame.number += 1;
                next
            }
        },
    }
}
