//! Values that are read from tokens into their places.

ghost use Rattle.std.specs.Prelude.{◌≡◌, ◌<◌, IfOk, ◌||◌, ◌∷◌, ℕ, false, true, Some, None, get_or, is_err, OnOk, IsTrue, length, option_map};
ghost use Rattle.json.specs.Json.{skip_value};
ghost use Rattle.json.specs.Token.{begin_object};
ghost use Rattle.serde_json.specs.Data.{Data, no_members, put};
ghost use Rattle.serde_json.specs.View.{view, members_view};
ghost use Rattle.gltf_schema.specs.Tree.{object, tree_or_absent};
ghost use Rattle.gltf_schema.specs.Kind.{Object as object_kind};
ghost use Rattle.gltf_schema.specs.RowReading.{Starts};
ghost use Rattle.gltf_schema.specs.KindsStreamedAlike.{source_next, sampler_next};
ghost use Rattle.gltf_schema.specs.Streamed.{Ahead, ahead_of, is_named, TakesNext, LeavesNext, HasValue, ReadsAt, ReadsOptional};

use crate::reader::Reader;
use crate::reading::ReadRows;
use crate::schema::{Object, Schema};
use crate::value::{is_same, read_value};
use gltf_base::Error;
use json::Scratch;
use serde_json::{Map, Value};
use std::alloc::{AllocError, AllocFailed, Global};

/// How many members may be required of an object.
const MOST_REQUIRED: usize = 8;

/// A value was not read from tokens. Why, is found by reading it by way of a `Value`.
#[derive(Clone, Copy, Debug, Drop)]
pub struct Unread;

impl From<AllocError> for Unread {
    fn from(_refused: AllocError) -> Unread {
        Unread
    }
}

impl<T: Drop> From<AllocFailed<T>> for Unread {
    fn from(_refused: AllocFailed<T>) -> Unread {
        Unread
    }
}

impl From<Error> for Unread {
    fn from(_e: Error) -> Unread {
        Unread
    }
}

/// One pass over the rows of an object.
#[derive(Clone, Copy, Drop)]
pub struct Pass<'a> {
    // The name of the member whose value is next, until a row takes it.
    name: Option<&'a str>,
    failed: bool,
    // How many rows so far need their member, and which of those had it.
    row: usize,
    seen: [bool; MOST_REQUIRED],
}

/// A text that is read into places.
#[derive(Drop)]
pub struct Stream<'a> {
    pub alloc: Global,
    pub reader: Reader<'a>,
    // Where escapes of texts are written.
    pub(crate) scratch: Scratch<Global>,
    // How deep arrays and objects may still nest.
    pub depth: usize,
    pass: Pass<'a>,
}

impl<'a> Stream<'a> {
    /// At the beginning of a text.
    pub fn new(alloc: Global, reader: Reader<'a>, depth: usize) -> Stream<'a>
        ensures { (result.reader ≡ reader.entry) × (result.depth ≡ depth) }
    {
        Stream {
            alloc,
            reader,
            scratch: Scratch::new(alloc),
            depth,
            pass: Pass {
                name: None,
                failed: false,
                row: 0,
                seen: [false; MOST_REQUIRED],
            },
        }
    }

    /// Whether the member that is next has the name.
    #[inline(always)]
    fn is_next(&self, name: &str) -> bool
        ensures { result ≡ is_named name.now (option_map (λ n. n.now) self.now.pass.name) }
    {
        match self.pass.name {
            Some(next) => is_same(name, next),
            None => false,
        }
    }

    /// Reads the value that is next.
    #[inline(always)]
    pub(crate) fn read<T: Schema>(&mut self, place: &mut T) -> Result<(), Unread>
        ensures read { OnOk result (ReadsAt T.kind (T.tree place.new) self.old.depth self.old.reader
            self.new.reader) }
        ensures depth { OnOk result (self.new.depth ≡ self.old.depth) }
        ensures pass { OnOk result (self.new.pass ≡ self.old.pass) }
    {
        place.read_token(self)
    }

    /// Reads the value that is next, absent if it is null.
    #[inline(always)]
    fn read_optional<T: Schema>(&mut self, place: &mut Option<T>) -> Result<(), Unread>
        ensures read { OnOk result (ReadsOptional T.kind (tree_or_absent T.tree place.new)
            self.old.depth self.old.reader self.new.reader) }
        ensures depth { OnOk result (self.new.depth ≡ self.old.depth) }
        ensures pass { OnOk result (self.new.pass ≡ self.old.pass) }
    {
        if self.reader.take_null()? {
            *place = None;
            return Ok(());
        }
        T::read_some(place, self)
    }

    /// Reads the value that is next, and has it there.
    #[inline(always)]
    fn read_some<T: Schema>(&mut self, place: &mut Option<T>) -> Result<(), Unread>
        ensures read { OnOk result (ReadsAt T.kind (tree_or_absent T.tree place.new)
            self.old.depth self.old.reader self.new.reader) }
        ensures depth { OnOk result (self.new.depth ≡ self.old.depth) }
        ensures pass { OnOk result (self.new.pass ≡ self.old.pass) }
    {
        T::read_some(place, self)
    }

    /// Returns the value that is next.
    pub fn value(&mut self) -> Result<Value, Unread>
        ensures value { IfOk result (λ v. HasValue self.old.depth self.old.reader (view v)
            self.new.reader) }
        ensures depth { OnOk result (self.new.depth ≡ self.old.depth) }
        ensures pass { OnOk result (self.new.pass ≡ self.old.pass) }
    {
        read_value(self.alloc, &mut self.scratch, &mut self.reader, self.depth)
    }

    /// Passes the value that is next. Of a number only the form is looked at.
    pub fn skip_value(&mut self) -> Result<(), Unread>
        ensures value { OnOk result (skip_value self.old.depth self.old.reader
            ≡ Some self.new.reader) }
        ensures depth { OnOk result (self.new.depth ≡ self.old.depth) }
        ensures pass { OnOk result (self.new.pass ≡ self.old.pass) }
    {
        self.reader
            .skip_value(self.alloc, &mut self.scratch, self.depth)
    }

    /// Passes the value that is next. Fails if `serde_json` reads none there.
    fn skip(&mut self) -> Result<(), Unread>
        ensures value { OnOk result ((d : Data) × HasValue self.old.depth self.old.reader d
            self.new.reader) }
        ensures depth { OnOk result (self.new.depth ≡ self.old.depth) }
        ensures pass { OnOk result (self.new.pass ≡ self.old.pass) }
    {
        let _value = read_value(self.alloc, &mut self.scratch, &mut self.reader, self.depth)?;
        Ok(())
    }

    /// Puts the value that is next under a name.
    fn keep(&mut self, name: &str, place: &mut Map<String, Value>) -> Result<(), Unread>
        ensures value { OnOk result ((d : Data) × HasValue self.old.depth self.old.reader d
            self.new.reader × (members_view place.new.entries
            ≡ put name.now d (members_view place.old.entries))) }
        ensures depth { OnOk result (self.new.depth ≡ self.old.depth) }
        ensures pass { OnOk result (self.new.pass ≡ self.old.pass) }
    {
        let value = read_value(self.alloc, &mut self.scratch, &mut self.reader, self.depth)?;
        let key = String::from_str(self.alloc, name)?;
        drop(place.insert(key, value)?);
        Ok(())
    }

    /// The member is taken; whether its value was read.
    #[inline(always)]
    fn took(&mut self, read: Result<(), Unread>)
        ensures name { self.new.pass.name ≡ None }
        ensures failed { self.new.pass.failed ≡ (self.old.pass.failed || is_err read) }
        ensures pass { (self.new.pass.row ≡ self.old.pass.row)
            × (self.new.pass.seen ≡ self.old.pass.seen) }
        ensures rest { (self.new.depth ≡ self.old.depth) × (self.new.reader ≡ self.old.reader) }
    {
        self.pass.name = None;
        self.pass.failed = self.pass.failed | read.is_err();
    }
}

impl<'a> ReadRows for Stream<'a> {
    ghost State = { Ahead };

    ghost state = { ahead_of };

    ghost Takes = { TakesNext };

    ghost Leaves = { LeavesNext };

    ghost as_source = { source_next };

    ghost as_sampler = { sampler_next };

    fn others(&mut self, place: &mut Map<String, Value>) {
        let Some(name) = self.pass.name else {
            return;
        };
        let read = self.keep(name, place);
        self.took(read);
    }

    #[inline(always)]
    fn required<T: Schema>(&mut self, name: &'static str, place: &mut T) {
        let row = self.pass.row;
        if row >= MOST_REQUIRED {
            self.pass.failed = true;
            return;
        }
        if self.is_next(name) {
            let read = self.read(place);
            self.took(read);
            self.pass.seen[row] = true;
        }
        self.pass.row = row + 1;
    }

    #[inline(always)]
    fn optional<T: Schema>(&mut self, name: &'static str, place: &mut Option<T>) {
        if self.is_next(name) {
            let read = self.read_optional(place);
            self.took(read);
        }
    }

    #[inline(always)]
    fn sometimes<T: Schema>(&mut self, name: &'static str, place: &mut Option<T>) {
        if self.is_next(name) {
            let read = self.read_some(place);
            self.took(read);
        }
    }

    #[inline(always)]
    fn or_default<T: Schema>(&mut self, name: &'static str, place: &mut T) {
        if self.is_next(name) {
            let read = self.read(place);
            self.took(read);
        }
    }
}

/// Reads the members of an object whose brace was taken into a place that holds their defaults.
pub(crate) fn read_object<'a, T: Object>(place: &mut T, from: &mut Stream<'a>) -> Result<(), Unread>
    requires rows { Starts T.rows (T.members place.old) }
    requires others { T.unknown place.old ≡ no_members }
    ensures read { OnOk result (ReadsAt (object_kind T.rule T.rows T.keeps)
        (object (T.members place.new) (T.unknown place.new)) from.old.depth
        (begin_object ∷ from.old.reader) from.new.reader) }
    ensures depth { OnOk result (from.new.depth ≡ from.old.depth) }
    ensures pass { OnOk result (from.new.pass ≡ from.old.pass) }
{
    if from.depth == 0 {
        return Err(Unread);
    }
    let outer = from.pass;
    from.depth -= 1;
    from.pass.failed = false;
    from.pass.seen = [false; MOST_REQUIRED];
    'members: while let Some(name) = from.reader.next_key()? {
        from.pass.name = Some(name);
        from.pass.row = 0;
        place.read_rows(from);
        if from.pass.failed {
            return Err(Unread);
        }
        if from.pass.name.is_none() {
            continue;
        }
        from.skip()?;
    }
    if !all_seen(&from.pass.seen, T::count_required()) {
        return Err(Unread);
    }
    from.depth += 1;
    from.pass = outer;
    Ok(())
}

/// Whether each row that needs its member had it.
fn all_seen(seen: &[bool], rows: usize) -> bool
    ensures { IsTrue result → (r : ℕ) → r < rows → get_or seen.now r false ≡ true }
{
    let mut r = 0;
    while r < rows {
        if r >= seen.len() || !seen[r] {
            return false;
        }
        r += 1;
    }
    true
}
