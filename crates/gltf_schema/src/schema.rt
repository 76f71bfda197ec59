//! What is read and written by the table.

ghost use Rattle.std.specs.Prelude.{◌≡◌, ◌≤◌, ℕ, Bool, true, false, Some, Err, is_some, refl};
ghost use Rattle.std.specs.Prelude.{IsTrue, IfOk, IfErr, OnOk};
ghost use Rattle.serde_json.specs.Find.{as_object};
ghost use Rattle.serde_json.specs.Data.{Members, no_members};
ghost use Rattle.serde_json.specs.View.{view, members_view};
ghost use Rattle.gltf_schema.specs.Tree.{Trees, object, is_absent, tree_or_absent};
ghost use Rattle.gltf_schema.specs.Kind.{Rule, no_rule, Rows, Object as object_kind};
ghost use Rattle.gltf_schema.specs.Read.{read};
ghost use Rattle.gltf_schema.specs.Write.{write};
ghost use Rattle.gltf_schema.specs.Invalid.{holds_invalid};
ghost use Rattle.gltf_schema.specs.Put.{put_rows, some_invalid};
ghost use Rattle.gltf_schema.specs.ByName.{by_name, trees_by_name};
ghost use Rattle.gltf_schema.specs.Rowwise.{WritesMembers};
ghost use Rattle.gltf_schema.specs.Printings.{printing_state, PrintsValue};
ghost use Rattle.gltf_schema.specs.Plain.{is_plain};
ghost use Rattle.gltf_schema.specs.Sound.{is_sound};
ghost use Rattle.gltf_schema.specs.Height.{kind_height};
ghost use Rattle.gltf_schema.specs.Taken.{take_all};
ghost use Rattle.gltf_schema.specs.Leaves.{wants_object};
ghost use Rattle.gltf_schema.specs.Outcome.{Reads, ReadsOnto, Writes};
ghost use Rattle.gltf_schema.specs.RowReading.{ReadsMembers, Starts, required_in};
ghost use Rattle.gltf_schema.specs.RowPlacing.{place_of, IsInside, ReadsOrPlaces};
ghost use Rattle.gltf_schema.specs.Streamed.{ReadsAt, ReadsItem};
ghost use Rattle.gltf_schema.specs.Stripped.{stripped};
ghost use Rattle.gltf_schema.specs.Outline.{Outlines};

use crate::list::make_room;
use crate::outline::{Shape, outline_object};
use crate::placing::{Refusal, place_members};
use crate::printing::Printing;
use crate::reading::{ReadRows, Reading};
use crate::source::Source;
use crate::stream::{Stream, Unread, read_object};
use crate::stripping::{Strip, strip_object};
use crate::tabled::Tabled;
use crate::tokens::Tokens;
use crate::writing::{WriteRows, Writing};
use gltf_base::Error;
use serde_json::{Map, Value};
use std::alloc::{AllocError, Global};

/// A type that is read from JSON and written to it.
pub trait Schema: Tabled + Drop + Sized {
    /// Decodes a value from any source of JSON. Fails with `Schema` if and only if the JSON isn't
    /// valid for this type. Out of memory, it may fail with `Memory` instead.
    fn decode_from<S: Source>(alloc: Global, source: S) -> Result<Self, Error>
        ensures by_table { Reads Self.tree result (read Self.kind (S.given source)) }
        // What is no object needs no memory to be refused.
        ensures no_object { IsTrue (wants_object Self.kind (S.given source))
            → result ≡ Err Error.Schema };

    /// Decodes a JSON value. Fails with `Schema` if and only if the value isn't valid for this
    /// type. Out of memory, it may fail with `Memory` instead.
    fn decode(alloc: Global, value: Value) -> Result<Self, Error>
        ensures by_table { Reads Self.tree result (read Self.kind (view value)) }
        // What is no object needs no memory to be refused.
        ensures no_object { IsTrue (wants_object Self.kind (view value))
            → result ≡ Err Error.Schema }
    {
        Self::decode_from(alloc, value)
    }

    /// Returns the value that is next in a text. Fails for whatever reason:
    /// [`Schema::decode_from`] says which.
    fn from_token<'a>(from: &mut Stream<'a>) -> Result<Self, Unread>
        ensures read { IfOk result (λ x. ReadsAt Self.kind (Self.tree x) from.old.depth
            from.old.reader from.new.reader) }
        ensures depth { OnOk result (from.new.depth ≡ from.old.depth) }
        ensures pass { OnOk result (from.new.pass ≡ from.old.pass) }
    {
        let value = from.value()?;
        Ok(Self::decode_from(from.alloc, value)?)
    }

    /// Reads a value as [`Schema::from_token`] does into this place, which saves moving it. After
    /// an error any value may be here.
    fn read_token<'a>(&mut self, from: &mut Stream<'a>) -> Result<(), Unread>
        ensures read { OnOk result (ReadsAt Self.kind (Self.tree self.new) from.old.depth
            from.old.reader from.new.reader) }
        ensures depth { OnOk result (from.new.depth ≡ from.old.depth) }
        ensures pass { OnOk result (from.new.pass ≡ from.old.pass) }
    {
        *self = Self::from_token(from)?;
        Ok(())
    }

    /// Reads a value as [`Schema::from_token`] does into a place that may be empty. After an error
    /// any value may be there.
    fn read_some<'a>(place: &mut Option<Self>, from: &mut Stream<'a>) -> Result<(), Unread>
        ensures read { OnOk result (ReadsAt Self.kind (tree_or_absent Self.tree place.new)
            from.old.depth from.old.reader from.new.reader) }
        ensures depth { OnOk result (from.new.depth ≡ from.old.depth) }
        ensures pass { OnOk result (from.new.pass ≡ from.old.pass) }
    {
        *place = Some(Self::from_token(from)?);
        Ok(())
    }

    /// Reads a value as [`Schema::from_token`] does, and pushes it onto a list. After an error the
    /// list may have one item more.
    fn read_onto<'a>(list: &mut Vec<Self>, from: &mut Stream<'a>) -> Result<(), Unread>
        ensures read { OnOk result (ReadsItem Self.kind Self.tree list.old.items list.new.items
            from.old.depth from.old.reader from.new.reader) }
        ensures depth { OnOk result (from.new.depth ≡ from.old.depth) }
        ensures pass { OnOk result (from.new.pass ≡ from.old.pass) }
    {
        let item = Self::from_token(from)?;
        list.push(item)?;
        Ok(())
    }

    /// Decodes a value as [`Schema::decode_from`] does, and pushes it onto a list. After an error
    /// the items are as they were.
    fn decode_onto<S: Source>(alloc: Global, source: S, list: &mut Vec<Self>) -> Result<(), Error>
        ensures { ReadsOnto Self.tree list.old.items result list.new.items
            (read Self.kind (S.given source)) }
    {
        let item = Self::decode_from(alloc, source)?;
        let Ok(()) = list.push(item) else {
            return Err(Error::Memory(AllocError));
        };
        Ok(())
    }

    /// Decodes a value, or fails with the place of what isn't valid. In an object that is in the
    /// first row that refuses its member. In attributes it is the first member that is no index, in
    /// an array the first item that is refused. For a kind without places inside it,
    /// [`whole_or_refused`](crate::whole_or_refused) gives the value itself.
    fn decode_or_place<S: Source>(alloc: Global, source: S) -> Result<Self, Refusal>
        ensures by_table { ReadsOrPlaces Self.tree result Self.kind (S.given source) };

    /// Encodes the value as JSON. Fails with `InvalidItem` if and only if it holds an invalid enum
    /// value or attribute name. Out of memory, it may fail with `Memory` instead.
    fn encode(&self, alloc: Global) -> Result<Value, Error>
        ensures { Writes view result (write Self.kind (Self.tree self.now))
            (holds_invalid (Self.tree self.now)) };

    /// Prints the JSON that [`Schema::encode`] returns, and fails for the same reasons.
    fn print<W: Tokens>(&self, to: &mut Printing<W>)
        ensures { PrintsValue (printing_state W.written W.before to.old)
            (write Self.kind (Self.tree self.now)) (holds_invalid (Self.tree self.now))
            (printing_state W.written W.before to.new) }
    {
        match self.encode(to.alloc) {
            Ok(value) => to.value(&value),
            Err(e) => to.fail(e),
        }
    }

    /// Strips the value in its place, at every depth. It takes no memory. For a kind without
    /// objects inside its values it does nothing.
    fn strip(&mut self, what: Strip)
        ensures { Self.tree self.new ≡ stripped what Self.kind (Self.tree self.old) };

    /// Adds what JSON the type is read from: its node, behind those of what its values hold.
    /// Returns the node's number. Fails if out of memory, and may then have added some.
    fn outline(alloc: Global, nodes: &mut Vec<Shape>) -> Result<usize, AllocError>
        ensures { Outlines nodes.old.items result nodes.new.items Self.kind };

    // What is there is not seen as missing.
    ghost is_never_absent: { (x : Self) → is_absent (Self.tree x) ≡ false };
}

/// An object of the table, by its rows.
pub trait Object: Drop {
    /// What is asked of the object beside the kinds of its members.
    ghost rule: { Rule } = { no_rule };

    ghost rows: { Rows };

    ghost keeps: { Bool };

    ghost members: { Self → Trees };

    ghost unknown: { Self → Members };

    /// The steps from the object to the deepest place at which something can be wrong.
    ghost height: { ℕ };

    /// Returns the object of these members. Fails with `Schema` if a row refuses its member or
    /// lacks it, and with `Memory` if out of memory.
    #[inline(always)]
    final fn decode_members<S: Source>(alloc: Global, found: S::Fields) -> Result<Self, Error>
        ensures { Reads (λ x. (members x, unknown x)) result
            (take_all rows keeps (S.members found)) }
    {
        let mut object = Self::start(alloc);
        let mut reading = Reading::<S>::from_members(alloc, found);
        object.read_rows(&mut reading);
        // With `?` the object would be moved once more.
        match reading.end() {
            Ok(()) => Ok(object),
            Err(e) => Err(e),
        }
    }

    /// Returns the object before any member is read: each row's default, or any value where there
    /// is none.
    fn start(alloc: Global) -> Self
        ensures rows { Starts rows (members result) }
        ensures others { unknown result ≡ no_members };

    /// Returns how many members have to be there.
    fn count_required() -> usize
        ensures { result ≡ required_in rows };

    /// Reads each row in the table's order into its place, and then the members that no row took,
    /// if the object keeps such members.
    fn read_rows<R: ReadRows>(&mut self, from: &mut R)
        ensures { ReadsMembers R.Takes R.Leaves rows keeps (members self.old) (members self.new)
            (unknown self.old) (unknown self.new) (R.state from.old) (R.state from.new) };

    /// Writes each row in the byte order of the rows' names, behind the members that no row names,
    /// if the object keeps such members.
    fn write_members<W: WriteRows>(&self, to: &mut W)
        ensures { WritesMembers W.Begins W.Adds (unknown self.now) (by_name rows)
            (trees_by_name rows (members self.now)) (W.state to.old) (W.state to.new) };

    /// Returns the members of this object: each row's onto those that no row names. Fails with
    /// `InvalidItem` if a row's member holds an invalid item or key, and with `Memory` if out of
    /// memory.
    final fn encode_members(&self, alloc: Global) -> Result<Map<String, Value>, Error>
        ensures { Writes (λ m. members_view m.entries) result
            (put_rows rows (members self.now) (unknown self.now))
            (some_invalid (members self.now)) }
    {
        let mut writing = Writing::new(alloc);
        self.write_members(&mut writing);
        writing.finish()
    }

    // No two rows have one name, here and below, each default is plain and can be written, and the
    // rule has the row that it looks up.
    ghost kind_is_sound: { is_sound (object_kind rule rows keeps) ≡ true };

    // The rows say the same of the height, and a path has room for as many steps below any six.
    ghost height_bounds_kind: { (kind_height (object_kind rule rows keeps) ≡ height)
        × (height ≤ 10) };
}

impl<T: Object> Schema for T {
    ghost is_never_absent = { λ _. refl };

    fn decode_from<S: Source>(alloc: Global, source: S) -> Result<T, Error>
        ensures by_table { Reads (λ x. object (T.members x) (T.unknown x)) result
            (read (object_kind T.rule T.rows T.keeps) (S.given source)) }
        ensures no_object { IsTrue (wants_object (object_kind T.rule T.rows T.keeps)
            (S.given source)) → result ≡ Err Error.Schema }
        // What was read could be written and read back as it is.
        ensures plain { IfOk result (λ x. is_plain (object_kind T.rule T.rows T.keeps)
            (object (T.members x) (T.unknown x)) ≡ true) }
    {
        match source.into_fields() {
            Some(found) => T::decode_members::<S>(alloc, found),
            None => Err(Error::Schema),
        }
    }

    fn from_token<'a>(from: &mut Stream<'a>) -> Result<T, Unread> {
        from.reader.begin_object()?;
        let mut object = T::start(from.alloc);
        // With `?` the object would be moved once more.
        match read_object(&mut object, from) {
            Ok(()) => Ok(object),
            Err(e) => Err(e),
        }
    }

    fn read_token<'a>(&mut self, from: &mut Stream<'a>) -> Result<(), Unread> {
        from.reader.begin_object()?;
        *self = T::start(from.alloc);
        read_object(self, from)
    }

    fn read_some<'a>(place: &mut Option<T>, from: &mut Stream<'a>) -> Result<(), Unread> {
        from.reader.begin_object()?;
        read_object(place.insert(T::start(from.alloc)), from)
    }

    fn read_onto<'a>(list: &mut Vec<T>, from: &mut Stream<'a>) -> Result<(), Unread> {
        from.reader.begin_object()?;
        // With room, the object is moved once, and where it can't be pushed needs no code.
        make_room(list)?;
        match list.push_mut(T::start(from.alloc)) {
            Ok(place) => read_object(place, from),
            Err(_) => unreachable!(),
        }
    }

    fn decode(alloc: Global, value: Value) -> Result<T, Error>
        ensures by_table { Reads (λ x. object (T.members x) (T.unknown x)) result
            (read (object_kind T.rule T.rows T.keeps) (view value)) }
        ensures no_object { IsTrue (wants_object (object_kind T.rule T.rows T.keeps) (view value))
            → result ≡ Err Error.Schema }
        ensures plain { IfOk result (λ x. is_plain (object_kind T.rule T.rows T.keeps)
            (object (T.members x) (T.unknown x)) ≡ true) }
    {
        T::decode_from(alloc, value)
    }

    fn decode_or_place<S: Source>(alloc: Global, source: S) -> Result<T, Refusal>
        ensures by_table { ReadsOrPlaces (λ x. object (T.members x) (T.unknown x)) result
            (object_kind T.rule T.rows T.keeps) (S.given source) }
        // An object is refused at one of its members.
        ensures inside { IfErr result (λ r. IsTrue (is_some (as_object (S.given source)))
            → IsInside (place_of r)) }
    {
        match source.into_fields() {
            Some(found) => place_members::<S, T>(alloc, found),
            None => Err(Refusal::here(alloc, Error::Schema)),
        }
    }

    fn encode(&self, alloc: Global) -> Result<Value, Error>
        ensures by_table { Writes view result (write (object_kind T.rule T.rows T.keeps)
            (object (T.members self.now) (T.unknown self.now)))
            (holds_invalid (object (T.members self.now) (T.unknown self.now))) }
        ensures valid { OnOk result (holds_invalid (object (T.members self.now)
            (T.unknown self.now)) ≡ false) }
        // What a plain value is written as is read back as that value.
        ensures reads_back { IfOk result (λ v. is_plain (object_kind T.rule T.rows T.keeps)
            (object (T.members self.now) (T.unknown self.now)) ≡ true
            → read (object_kind T.rule T.rows T.keeps) (view v)
            ≡ Some (object (T.members self.now) (T.unknown self.now))) }
    {
        Ok(Value::Object(self.encode_members(alloc)?))
    }

    fn print<W: Tokens>(&self, to: &mut Printing<W>) {
        let outer = to.begin_members();
        self.write_members(to);
        to.end_members(outer);
    }

    fn strip(&mut self, what: Strip) {
        strip_object(self, what);
    }

    fn outline(alloc: Global, nodes: &mut Vec<Shape>) -> Result<usize, AllocError> {
        outline_object::<T>(alloc, nodes)
    }
}
