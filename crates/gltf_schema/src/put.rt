//! A row's value put into an object.

ghost use Rattle.serde_json.specs.View.{members_view};
ghost use Rattle.gltf_schema.specs.Kind.{required};
ghost use Rattle.gltf_schema.specs.Invalid.{holds_invalid};
ghost use Rattle.gltf_schema.specs.Put.{put_member};
ghost use Rattle.gltf_schema.specs.Outcome.{Writes};

use crate::schema::Schema;
use gltf_base::Error;
use serde_json::{Map, Value};
use std::alloc::Global;

/// Puts a value under a name.
#[tactic(auto, unfolding(crate::specs::Put::put_member))]
pub(crate) fn put_value<T: Schema>(
    alloc: Global,
    members: &mut Map<String, Value>,
    name: &str,
    value: &T,
) -> Result<(), Error>
    ensures { Writes (λ _. members_view members.new.entries) result
        (put_member name.now required T.kind (T.tree value.now)
        (members_view members.old.entries)) (holds_invalid (T.tree value.now)) }
{
    let written = value.encode(alloc)?;
    serde_json::put(members, alloc, name, written)?;
    Ok(())
}
