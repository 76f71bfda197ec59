//! The attributes of a primitive, in the order of their keys.

ghost use Rattle.std.specs.Prelude.{◌≡◌};
ghost use Rattle.gltf_validation_rules.specs.Context.{context_of};
ghost use Rattle.gltf_validation_objects.specs.Moves.{move_of, IsMore};
ghost use Rattle.gltf_validation_objects.specs.Checklist.{first_move, rest_after};
ghost use Rattle.gltf_validation_walk.specs.Rest.{attributes_left, IsFirstBehind};

use gltf_base::mesh::Semantic;
use gltf_base::validation::Checked;
use gltf_base::{Index, KeyStep};
use gltf_parts::accessor::Accessor;
use gltf_validation_objects::{Event, ValueRef};
use gltf_validation_rules::{Context, choice_fault, index_fault};
use std::collections::BTreeMap;
use std::ops::Bound;

/// The event of the attribute behind a key, or of the first attribute; its key is `behind` then.
pub(crate) fn next_attribute<'a>(
    attributes: &'a BTreeMap<Checked<Semantic>, Index<Accessor>>,
    behind: &mut Option<&'a Checked<Semantic>>,
    context: &Context<'_>,
) -> Event<'a>
    ensures comes { move_of (context_of context.now) result
        ≡ first_move (attributes_left (context_of context.now) attributes.now behind.old) }
    ensures rest { IsMore result
        → attributes_left (context_of context.now) attributes.now behind.new
        ≡ rest_after (attributes_left (context_of context.now) attributes.now behind.old) 1 }
{
    match entry_behind(attributes, *behind) {
        Some((semantic, index)) => {
            *behind = Some(semantic);
            let value = ValueRef::Attribute(
                choice_fault(semantic),
                index_fault(index, context.root),
            );
            Event::Enter(semantic.key_step(), value)
        }
        None => Event::End,
    }
}

/// The entry of a map of attributes behind a key, or the first one.
fn entry_behind<'a>(
    attributes: &'a BTreeMap<Checked<Semantic>, Index<Accessor>>,
    behind: Option<&Checked<Semantic>>,
) -> Option<(&'a Checked<Semantic>, &'a Index<Accessor>)>
    ensures { IsFirstBehind behind.entry attributes.now.entries result }
{
    match behind {
        Some(key) => attributes
            .range((Bound::Excluded(key), Bound::Unbounded))
            .next(),
        None => attributes.iter().next(),
    }
}
