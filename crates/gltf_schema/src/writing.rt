//! An object's members as they are written, row by row.

ghost use Rattle.std.specs.Prelude.{◌≡◌, ℕ, List, false, Some, Ok, Result, map};
ghost use Rattle.serde_json.specs.Data.{Data, Members, no_members};
ghost use Rattle.serde_json.specs.View.{members_view};
ghost use Rattle.gltf_schema.specs.Tree.{Tree, tree_or_absent, trees, list as list_tree, end};
ghost use Rattle.gltf_schema.specs.Kind.{required as is_required, optional as is_optional, always as is_always, unless as is_unless, sometimes as is_sometimes, or_null as is_or_null, ListOf};
ghost use Rattle.gltf_schema.specs.Outcome.{Writes};
ghost use Rattle.gltf_base.specs.declared.error.Error.{Error as AnError};
ghost use Rattle.gltf_schema.specs.Rowwise.{BeginsWith, WritesRow, PutsIn, TakesOver};
ghost use Rattle.gltf_schema.specs.Writings.{writing_state, written_or_error};

use crate::omittable::Omittable;
use crate::put::put_value;
use crate::schema::Schema;
use gltf_base::Error;
use serde_json::{Map, Value};
use std::alloc::Global;

/// What the rows of an object are written to: a map of its members, or a text.
///
/// Each method writes one row of the table. Rows come in the byte order of their names. Once a row
/// was refused, the methods write nothing.
pub trait WriteRows: Drop {
    /// What is written so far.
    ghost State: { Type 0 };

    /// What is written so far, or why it is not written.
    ghost state: { Self → Result State AnError };

    ghost Begins: { Members → State → State → Type 0 };

    ghost Adds: { State → List ℕ → Data → State → Type 0 };

    /// The members that no row names, before the first row. A row's member will take the place of
    /// one of its name.
    fn others(&mut self, others: &Map<String, Value>)
        ensures { BeginsWith Begins (members_view others.now.entries) (state self.old)
            (state self.new) };

    /// A member that is always written.
    fn always<T: Schema>(&mut self, name: &str, value: &T)
        ensures required { WritesRow Adds (state self.old) name.now is_required T.kind
            (T.tree value.now) (state self.new) }
        ensures always { (default : Tree) → WritesRow Adds (state self.old) name.now
            (is_always default) T.kind (T.tree value.now) (state self.new) };

    /// A member that is written if it is there.
    fn optional<T: Schema>(&mut self, name: &str, value: &Option<T>)
        ensures optional { WritesRow Adds (state self.old) name.now is_optional T.kind
            (tree_or_absent T.tree value.now) (state self.new) }
        ensures sometimes { WritesRow Adds (state self.old) name.now is_sometimes T.kind
            (tree_or_absent T.tree value.now) (state self.new) }
    {
        if let Some(value) = value {
            self.always(name, value);
        }
    }

    /// A member that is written as null if it isn't there.
    fn or_null<T: Schema>(&mut self, name: &str, value: &Option<T>)
        ensures { WritesRow Adds (state self.old) name.now is_or_null T.kind
            (tree_or_absent T.tree value.now) (state self.new) }
    {
        match value {
            Some(value) => self.always(name, value),
            None => self.always(name, &Value::Null),
        }
    }

    /// A member that is left out if it is the default.
    fn unless<T: Omittable>(&mut self, name: &str, value: &T, default: T)
        ensures { WritesRow Adds (state self.old) name.now (is_unless (T.tree default)) T.kind
            (T.tree value.now) (state self.new) }
    {
        if !value.is_default(&default) {
            self.always(name, value);
        }
    }

    /// A list that is left out if it is empty.
    fn list<T: Schema>(&mut self, name: &str, value: &Vec<T>)
        ensures { WritesRow Adds (state self.old) name.now (is_unless (list_tree end))
            (ListOf T.kind) (list_tree (trees (map T.tree value.now.items))) (state self.new) }
    {
        if !value.is_empty() {
            self.always(name, value);
        }
    }
}

/// The members of an object that are written so far, or why they are not written.
///
/// Once a row was refused, the methods write nothing, and [`Writing::finish`] fails with the error.
#[derive(Drop)]
pub struct Writing {
    pub(crate) alloc: Global,
    pub(crate) state: Result<Map<String, Value>, Error>,
}

impl Writing {
    /// Begins to write the members of an object.
    pub fn new(alloc: Global) -> Writing
        ensures { writing_state result ≡ Ok no_members }
    {
        Writing {
            alloc,
            state: Ok(Map::new(alloc)),
        }
    }

    /// The members that were written, or why they could not be.
    pub fn finish(self) -> Result<Map<String, Value>, Error>
        ensures { written_or_error result ≡ writing_state self }
    {
        let Writing { alloc: _, state } = self;
        state
    }
}

impl WriteRows for Writing {
    ghost State = { Members };

    ghost state = { writing_state };

    ghost Begins = { TakesOver };

    ghost Adds = { PutsIn };

    fn others(&mut self, others: &Map<String, Value>) {
        if self.state.is_ok() {
            self.state = copied(others);
        }
    }

    fn always<T: Schema>(&mut self, name: &str, value: &T) {
        if let Ok(members) = &mut self.state {
            if let Err(e) = put_value(self.alloc, members, name, value) {
                self.state = Err(e);
            }
        }
    }
}

/// A copy of the members.
pub(crate) fn copied(members: &Map<String, Value>) -> Result<Map<String, Value>, Error>
    ensures { Writes (λ m. members_view m.entries) result
        (Some (members_view members.now.entries)) false }
{
    Ok(members.clone()?)
}
