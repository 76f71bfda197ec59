//! An object's members as they are read, row by row.

ghost use Rattle.std.specs.Prelude.{◌≡◌, ℕ, List, Ok, Result};
ghost use Rattle.serde_json.specs.Data.{Members};
ghost use Rattle.serde_json.specs.View.{members_view};
ghost use Rattle.gltf_schema.specs.Tree.{Tree, tree_or_absent};
ghost use Rattle.gltf_schema.specs.Kind.{Kind, Mark, required as is_required, optional as is_optional, always, unless, sometimes as is_sometimes, or_null};
ghost use Rattle.gltf_schema.specs.RowReading.{ReadsRow, ReadsOthers, TakesSource, TakesSampler, FromStart, TakesMember, TakesOut, TakesLeft, members_or_error, ReadsValue, refused_by, ended};
ghost use Rattle.gltf_base.specs.declared.error.Error.{Error as AnError};
ghost use Rattle.gltf_schema.specs.KindsReadAlike.{source_taken, sampler_taken};

use crate::schema::Schema;
use crate::source::Source;
use gltf_base::Error;
use serde_json::{Map, Value};
use std::alloc::Global;
use std::mem;

/// What the rows of an object are read from.
///
/// Each method reads one row of the table into its place, which holds the row's default before.
/// Once a row was refused, what the places hold means nothing.
pub trait ReadRows: Drop {
    ghost State: { Type 0 };

    ghost state: { Self → State };

    ghost Takes: { State → List ℕ → Mark → Kind → Tree → Tree → State → Type 0 };

    ghost Leaves: { State → Members → Members → State → Type 0 };

    /// The members that no row took.
    fn others(&mut self, place: &mut Map<String, Value>)
        ensures { ReadsOthers Leaves (state self.old) (members_view place.old.entries)
            (members_view place.new.entries) (state self.new) };

    /// A member that has to be there.
    fn required<T: Schema>(&mut self, name: &'static str, place: &mut T)
        ensures { ReadsRow Takes (state self.old) name.now is_required T.kind (T.tree place.old)
            (T.tree place.new) (state self.new) };

    /// A member that is absent where it is missing or null.
    fn optional<T: Schema>(&mut self, name: &'static str, place: &mut Option<T>)
        ensures left_out { ReadsRow Takes (state self.old) name.now is_optional T.kind
            (tree_or_absent T.tree place.old) (tree_or_absent T.tree place.new)
            (state self.new) }
        ensures or_null { ReadsRow Takes (state self.old) name.now or_null T.kind
            (tree_or_absent T.tree place.old) (tree_or_absent T.tree place.new)
            (state self.new) };

    /// A member that is absent where it is missing; null is refused.
    fn sometimes<T: Schema>(&mut self, name: &'static str, place: &mut Option<T>)
        ensures { ReadsRow Takes (state self.old) name.now is_sometimes T.kind
            (tree_or_absent T.tree place.old) (tree_or_absent T.tree place.new)
            (state self.new) };

    /// A member that is the default where it is missing, whether or not it is written then.
    fn or_default<T: Schema>(&mut self, name: &'static str, place: &mut T)
        ensures always { (t : Tree) → ReadsRow Takes (state self.old) name.now (always t) T.kind
            (T.tree place.old) (T.tree place.new) (state self.new) }
        ensures unless { (t : Tree) → ReadsRow Takes (state self.old) name.now (unless t) T.kind
            (T.tree place.old) (T.tree place.new) (state self.new) };

    // The image of a texture is read as an index into the images.
    ghost as_source: { TakesSource Takes };

    // The sampler of a channel is read as the number that its index is.
    ghost as_sampler: { TakesSampler Takes };
}

/// The members of an object that are not read yet, or why they are not read.
///
/// [`Reading::end`] fails with the error of the row that was refused.
#[derive(Drop)]
pub struct Reading<S: Source> {
    alloc: Global,
    state: Result<S::Fields, Error>,
}

impl<S: Source> Reading<S> {
    /// Begins to read the members of an object.
    pub fn from_members(alloc: Global, members: S::Fields) -> Reading<S>
        ensures { members_or_error S.members result.state ≡ Ok (S.members members) }
    {
        Reading {
            alloc,
            state: Ok(members),
        }
    }

    /// The member of this name, if there is one and no row was refused before.
    #[inline(always)]
    fn take(&mut self, name: &str) -> Option<S>
        ensures { TakesOut S.given (members_or_error S.members self.old.state) name.now result
            (members_or_error S.members self.new.state) }
    {
        match &mut self.state {
            Ok(members) => S::take(members, name),
            Err(_) => None,
        }
    }

    /// Puts what the table reads of a member's value into its place; if it refuses the value, it
    /// refuses the row.
    #[inline(always)]
    fn decode<T: Schema>(&mut self, value: S, place: &mut T)
        ensures { ReadsValue (T.tree place.new) T.kind (S.given value)
            (members_or_error S.members self.old.state)
            (members_or_error S.members self.new.state) }
    {
        match T::decode_from(self.alloc, value) {
            Ok(x) => *place = x,
            Err(e) => self.state = Err(e),
        }
    }

    /// The same, for a member that may be absent.
    #[inline(always)]
    fn decode_some<T: Schema>(&mut self, value: S, place: &mut Option<T>)
        ensures { ReadsValue (tree_or_absent T.tree place.new) T.kind (S.given value)
            (members_or_error S.members self.old.state)
            (members_or_error S.members self.new.state) }
    {
        match T::decode_from(self.alloc, value) {
            Ok(x) => *place = Some(x),
            Err(e) => self.state = Err(e),
        }
    }

    /// Refuses a row, unless one was refused before.
    fn refuse(&mut self, e: Error)
        ensures { members_or_error S.members self.new.state
            ≡ refused_by e (members_or_error S.members self.old.state) }
    {
        if self.state.is_ok() {
            self.state = Err(e);
        }
    }

    /// Succeeds if each row was read.
    pub fn end(self) -> Result<(), Error>
        ensures { result ≡ ended (members_or_error S.members self.state) }
    {
        self.state.map(|_| ())
    }
}

impl<S: Source> ReadRows for Reading<S> {
    ghost State = { Result Members AnError };

    ghost state = { λ r. members_or_error S.members r.state };

    ghost Takes = { FromStart TakesMember };

    ghost Leaves = { TakesLeft };

    ghost as_source = { source_taken };

    ghost as_sampler = { sampler_taken };

    fn others(&mut self, place: &mut Map<String, Value>) {
        let empty = S::no_fields(self.alloc);
        match mem::replace(&mut self.state, Ok(empty)) {
            Ok(members) => match S::into_others(members, self.alloc) {
                Ok(others) => *place = others,
                Err(e) => self.state = Err(Error::from(e)),
            },
            Err(e) => self.state = Err(e),
        }
    }

    fn required<T: Schema>(&mut self, name: &'static str, place: &mut T) {
        match self.take(name) {
            Some(value) => self.decode(value, place),
            None => self.refuse(Error::Schema),
        }
    }

    fn optional<T: Schema>(&mut self, name: &'static str, place: &mut Option<T>) {
        let Some(value) = self.take(name) else {
            return;
        };
        if value.is_null() {
            *place = None;
        } else {
            self.decode_some(value, place);
        }
    }

    fn sometimes<T: Schema>(&mut self, name: &'static str, place: &mut Option<T>) {
        if let Some(value) = self.take(name) {
            self.decode_some(value, place);
        }
    }

    fn or_default<T: Schema>(&mut self, name: &'static str, place: &mut T) {
        if let Some(value) = self.take(name) {
            self.decode(value, place);
        }
    }
}
