//! What is written strictly: an absent member is left out, where the table writes null though the
//! format allows none.

ghost use Rattle.std.specs.Prelude.{◌≡◌, map, option_map, OnOk};
ghost use Rattle.json.specs.Token.{begin_array};
ghost use Rattle.serde_json.specs.View.{view, members_view};
ghost use Rattle.gltf_schema.specs.Tree.{Tree, trees, tree_or_absent, list as list_tree, end};
ghost use Rattle.gltf_schema.specs.Kind.{required as is_required, optional as is_optional, always as is_always, unless as is_unless, sometimes as is_sometimes, ListOf, required};
ghost use Rattle.gltf_schema.specs.Write.{write};
ghost use Rattle.gltf_schema.specs.Nulls.{without_nulls, rows_without_nulls};
ghost use Rattle.gltf_schema.specs.Invalid.{holds_invalid};
ghost use Rattle.gltf_schema.specs.Outcome.{Writes};
ghost use Rattle.gltf_schema.specs.Put.{put_member, put_rows, some_invalid};
ghost use Rattle.gltf_schema.specs.ByName.{by_name, trees_by_name};
ghost use Rattle.gltf_schema.specs.Rowwise.{WritesRow, WritesMembers};
ghost use Rattle.gltf_schema.specs.Printings.{printing_state, PrintsValue, Gathers};

use crate::list_writing::{WithoutNulls, encode_items, print_items};
use crate::printing::Printing;
use crate::schema::{Object, Schema};
use crate::tokens::Tokens;
use crate::writing::{WriteRows, Writing};
use gltf_base::Error;
use serde_json::{Map, Value};
use std::alloc::Global;

/// A type that the table writes with nulls, in itself or further down, and that can be written
/// without them.
pub trait Strict: Schema {
    /// Encodes the value as [`Schema::encode`] does, and leaves out each member that the table
    /// writes as null because it is absent.
    fn encode_strictly(&self, alloc: Global) -> Result<Value, Error>
        ensures { Writes view result (write (without_nulls Self.kind) (Self.tree self.now))
            (holds_invalid (Self.tree self.now)) };

    /// Prints the JSON that [`Strict::encode_strictly`] returns, and fails for the same reasons.
    fn print_strictly<W: Tokens>(&self, to: &mut Printing<W>)
        ensures { PrintsValue (printing_state W.written W.before to.old)
            (write (without_nulls Self.kind) (Self.tree self.now))
            (holds_invalid (Self.tree self.now)) (printing_state W.written W.before to.new) };
}

/// An object of the table that is written without nulls, by its rows.
pub trait StrictObject: Object {
    /// Writes each row as [`Object::write_members`] does, and leaves out each member that is absent
    /// in place of writing null.
    fn write_strictly<W: StrictRows>(&self, to: &mut W)
        ensures { WritesMembers W.Begins W.Adds (Self.unknown self.now)
            (by_name (rows_without_nulls Self.rows))
            (trees_by_name (rows_without_nulls Self.rows) (Self.members self.now))
            (W.state to.old) (W.state to.new) };

    /// Returns the members of this object as [`Object::encode_members`] does, without nulls for
    /// absent ones.
    final fn encode_strict_members(&self, alloc: Global) -> Result<Map<String, Value>, Error>
        ensures { Writes (λ m. members_view m.entries) result
            (put_rows (rows_without_nulls Self.rows) (Self.members self.now)
            (Self.unknown self.now)) (some_invalid (Self.members self.now)) }
    {
        let mut writing = Writing::new(alloc);
        self.write_strictly(&mut writing);
        writing.finish()
    }
}

/// What the rows of an object are written to, if there are rows with nulls below it.
pub trait StrictRows: WriteRows {
    /// A member that is always written, without nulls below it.
    fn always_strictly<T: Strict>(&mut self, name: &str, value: &T)
        ensures required { WritesRow Self.Adds (Self.state self.old) name.now is_required
            (without_nulls T.kind) (T.tree value.now) (Self.state self.new) }
        ensures always { (default : Tree) → WritesRow Self.Adds (Self.state self.old) name.now
            (is_always default) (without_nulls T.kind) (T.tree value.now) (Self.state self.new) };

    /// A member that is written if it is there, without nulls below it.
    fn optional_strictly<T: Strict>(&mut self, name: &str, value: &Option<T>)
        ensures optional { WritesRow Self.Adds (Self.state self.old) name.now is_optional
            (without_nulls T.kind) (tree_or_absent T.tree value.now) (Self.state self.new) }
        ensures sometimes { WritesRow Self.Adds (Self.state self.old) name.now is_sometimes
            (without_nulls T.kind) (tree_or_absent T.tree value.now) (Self.state self.new) }
    {
        if let Some(value) = value {
            self.always_strictly(name, value);
        }
    }

    /// A list that is left out if it is empty, without nulls below it.
    fn list_strictly<T: Strict>(&mut self, name: &str, value: &Vec<T>)
        ensures { WritesRow Self.Adds (Self.state self.old) name.now (is_unless (list_tree end))
            (ListOf (without_nulls T.kind)) (list_tree (trees (map T.tree value.now.items)))
            (Self.state self.new) }
    {
        if !value.is_empty() {
            self.always_strictly(name, value);
        }
    }
}

impl<T: StrictObject> Strict for T {
    fn encode_strictly(&self, alloc: Global) -> Result<Value, Error> {
        Ok(Value::Object(self.encode_strict_members(alloc)?))
    }

    fn print_strictly<W: Tokens>(&self, to: &mut Printing<W>) {
        let outer = to.begin_members();
        self.write_strictly(to);
        to.end_members(outer);
    }
}

impl<T: Strict> Strict for Vec<T> {
    fn encode_strictly(&self, alloc: Global) -> Result<Value, Error> {
        Ok(Value::Array(encode_items::<WithoutNulls, T>(alloc, self)?))
    }

    fn print_strictly<W: Tokens>(&self, to: &mut Printing<W>) {
        print_items::<WithoutNulls, T, W>(self, to);
    }
}

/// Puts a value under a name, without nulls in it.
#[tactic(auto, unfolding(crate::specs::Put::put_member))]
fn put_strictly<T: Strict>(
    alloc: Global,
    members: &mut Map<String, Value>,
    name: &str,
    value: &T,
) -> Result<(), Error>
    ensures { Writes (λ _. members_view members.new.entries) result
        (put_member name.now required (without_nulls T.kind) (T.tree value.now)
        (members_view members.old.entries)) (holds_invalid (T.tree value.now)) }
{
    let written = value.encode_strictly(alloc)?;
    serde_json::put(members, alloc, name, written)?;
    Ok(())
}

impl StrictRows for Writing {
    fn always_strictly<T: Strict>(&mut self, name: &str, value: &T) {
        if let Ok(members) = &mut self.state {
            if let Err(e) = put_strictly(self.alloc, members, name, value) {
                self.state = Err(e);
            }
        }
    }
}

impl<W: Tokens> StrictRows for Printing<W> {
    fn always_strictly<T: Strict>(&mut self, name: &str, value: &T) {
        if self.kept.is_some() {
            gather_strictly(self, name, value);
        } else {
            self.key(name);
            value.print_strictly(self);
        }
    }
}

/// Puts a row's value into the members that are gathered, if some are, without nulls in it.
fn gather_strictly<T: Strict, W: Tokens>(to: &mut Printing<W>, name: &str, value: &T)
    ensures { Gathers (printing_state W.written W.before to.old) name.now (without_nulls T.kind)
        (T.tree value.now) (printing_state W.written W.before to.new) }
{
    if to.failed.is_some() {
        return;
    }
    if let Some(members) = &mut to.kept {
        if let Err(e) = put_strictly(to.alloc, members, name, value) {
            to.failed = Some(e);
        }
    }
}
