//! Where a value is refused: an object's members read row by row, and the place of the first row
//! that is refused.

ghost use Rattle.std.specs.Prelude.{◌≡◌, List, Option, Result, IfErr};
ghost use Rattle.serde_json.specs.Data.{Members, object as json_object};
ghost use Rattle.gltf_base.specs.Steps.{Step as AnyStep, step_of, field};
ghost use Rattle.gltf_schema.specs.Tree.{object, tree_or_absent};
ghost use Rattle.gltf_schema.specs.Kind.{Object as object_kind};
ghost use Rattle.gltf_schema.specs.RowReading.{FromStart, TakesOut};
ghost use Rattle.gltf_schema.specs.RowPlacing.{owned_step, place_of, error_place, IsWithin, IsInside, IsWhole, ReadsOrPlaces, PlacesValue, PlacesMissing, members_or_place, PlacesMember, PlacesLeft};
ghost use Rattle.gltf_schema.specs.KindsPlacedAlike.{source_placed, sampler_placed};

use crate::reading::ReadRows;
use crate::schema::{Object, Schema};
use crate::source::Source;
use gltf_base::{Error, Step};
use serde_json::{Map, Value};
use std::alloc::{AllocError, AllocFailed, Global};
use std::mem;

/// A step to a place, as [`Step`], with a name of its own: what a read fails with borrows nothing.
#[derive(Debug, Drop)]
pub enum OwnedStep {
    /// To a member of an object, by its JSON name.
    Field(String),
    /// To an item of a list, by its number.
    Index(usize),
}

impl OwnedStep {
    /// Returns the step, which borrows the name.
    pub fn as_step(&self) -> Step<'_>
        ensures { step_of result ≡ owned_step self.now }
    {
        match self {
            OwnedStep::Field(name) => Step::Field(name.as_str()),
            OwnedStep::Index(number) => Step::Index(*number),
        }
    }
}

/// Why a value was refused.
#[derive(Debug, Drop)]
pub enum Refusal {
    /// The table refuses what these steps lead to: a value, or a required member that is missing.
    At(Vec<OwnedStep>),
    /// Out of memory.
    Memory(AllocError),
}

impl Refusal {
    /// The refusal of the value itself.
    pub(crate) fn here(alloc: Global, error: Error) -> Refusal
        ensures { place_of result ≡ error_place error }
    {
        match error {
            Error::Memory(refused) => Refusal::Memory(refused),
            _ => Refusal::At(Vec::new(alloc)),
        }
    }

    /// The refusal as it is seen from one step further up: `Memory` if a growth is refused.
    pub(crate) fn within(self, step: OwnedStep) -> Refusal
        ensures { IsWithin (owned_step step) (place_of self) (place_of result) }
    {
        match self {
            Refusal::At(mut steps) => match steps.insert(0, step) {
                Ok(()) => Refusal::At(steps),
                Err(_refused) => Refusal::Memory(AllocError),
            },
            Refusal::Memory(refused) => Refusal::Memory(refused),
        }
    }

    /// The refusal as it is seen from the object whose member has this name.
    fn within_field(self, alloc: Global, name: &str) -> Refusal
        ensures { IsWithin (field name.now) (place_of self) (place_of result) }
    {
        match String::from_str(alloc, name) {
            Ok(name) => self.within(OwnedStep::Field(name)),
            Err(refused) => Refusal::Memory(refused),
        }
    }
}

/// What was decoded, or the refusal of the value itself: for a kind that has no places inside its
/// values.
pub fn whole_or_refused<T: Drop>(alloc: Global, decoded: Result<T, Error>) -> Result<T, Refusal>
    ensures { IsWhole decoded result }
{
    match decoded {
        Ok(value) => Ok(value),
        Err(e) => Err(Refusal::here(alloc, e)),
    }
}

impl From<AllocError> for Refusal {
    ghost use Rattle.gltf_schema.specs.declared.placing.Refusal.TheVariants.{Memory};

    ghost from_gives = { λ refused r. r ≡ Memory refused };

    fn from(refused: AllocError) -> Refusal {
        Refusal::Memory(refused)
    }
}

impl<T: Drop> From<AllocFailed<T>> for Refusal {
    ghost use Rattle.std.specs.Prelude.{alloc_error};
    ghost use Rattle.gltf_schema.specs.declared.placing.Refusal.TheVariants.{Memory};

    ghost from_gives = { λ _ r. r ≡ Memory alloc_error };

    fn from(_refused: AllocFailed<T>) -> Refusal {
        Refusal::Memory(AllocError)
    }
}

/// The members of an object that are not read yet, or the place of the first row that was refused.
#[derive(Drop)]
pub struct Placing<S: Source> {
    alloc: Global,
    state: Result<S::Fields, Refusal>,
}

/// Reads an object's members. Fails with the place of the first row that is refused.
pub(crate) fn place_members<S: Source, T: Object>(
    alloc: Global,
    found: S::Fields,
) -> Result<T, Refusal>
    ensures by_table { ReadsOrPlaces (λ x. object (T.members x) (T.unknown x)) result
        (object_kind T.rule T.rows T.keeps) (json_object (S.members found)) }
    ensures inside { IfErr result (λ r. IsInside (place_of r)) }
{
    let mut object = T::start(alloc);
    let mut placing = Placing::<S> {
        alloc,
        state: Ok(found),
    };
    object.read_rows(&mut placing);
    let _left = placing.state?;
    Ok(object)
}

impl<S: Source> Placing<S> {
    /// The member of this name, if there is one and no row was refused before.
    fn take(&mut self, name: &str) -> Option<S>
        ensures { TakesOut S.given (members_or_place S.members self.old.state) name.now result
            (members_or_place S.members self.new.state) }
    {
        match &mut self.state {
            Ok(members) => S::take(members, name),
            Err(_) => None,
        }
    }

    /// Puts what the table reads of the value of the member of this name into its place; if it
    /// refuses the value, it refuses the row, and the place of the refusal is under the name.
    fn decode<T: Schema>(&mut self, name: &str, value: S, place: &mut T)
        ensures { PlacesValue (T.tree place.new) name.now T.kind (S.given value)
            (members_or_place S.members self.old.state)
            (members_or_place S.members self.new.state) }
    {
        match T::decode_or_place(self.alloc, value) {
            Ok(x) => *place = x,
            Err(refusal) => self.state = Err(refusal.within_field(self.alloc, name)),
        }
    }

    /// The same, for a member that may be absent.
    fn decode_some<T: Schema>(&mut self, name: &str, value: S, place: &mut Option<T>)
        ensures { PlacesValue (tree_or_absent T.tree place.new) name.now T.kind (S.given value)
            (members_or_place S.members self.old.state)
            (members_or_place S.members self.new.state) }
    {
        match T::decode_or_place(self.alloc, value) {
            Ok(x) => *place = Some(x),
            Err(refusal) => self.state = Err(refusal.within_field(self.alloc, name)),
        }
    }

    /// Refuses the row of this name, whose member is missing, unless one was refused before.
    fn refuse(&mut self, name: &str)
        ensures { PlacesMissing (members_or_place S.members self.old.state) name.now
            (members_or_place S.members self.new.state) }
    {
        if self.state.is_ok() {
            let missing = Refusal::here(self.alloc, Error::Schema);
            self.state = Err(missing.within_field(self.alloc, name));
        }
    }
}

impl<S: Source> ReadRows for Placing<S> {
    ghost State = { Result Members (Option (List AnyStep)) };

    ghost state = { λ p. members_or_place S.members p.state };

    ghost Takes = { FromStart PlacesMember };

    ghost Leaves = { PlacesLeft };

    ghost as_source = { source_placed };

    ghost as_sampler = { sampler_placed };

    fn others(&mut self, place: &mut Map<String, Value>) {
        let empty = S::no_fields(self.alloc);
        match mem::replace(&mut self.state, Ok(empty)) {
            Ok(members) => match S::into_others(members, self.alloc) {
                Ok(others) => *place = others,
                Err(refused) => self.state = Err(Refusal::Memory(refused)),
            },
            Err(refusal) => self.state = Err(refusal),
        }
    }

    fn required<T: Schema>(&mut self, name: &'static str, place: &mut T) {
        match self.take(name) {
            Some(value) => self.decode(name, value, place),
            None => self.refuse(name),
        }
    }

    fn optional<T: Schema>(&mut self, name: &'static str, place: &mut Option<T>) {
        let Some(value) = self.take(name) else {
            return;
        };
        if value.is_null() {
            *place = None;
        } else {
            self.decode_some(name, value, place);
        }
    }

    fn sometimes<T: Schema>(&mut self, name: &'static str, place: &mut Option<T>) {
        if let Some(value) = self.take(name) {
            self.decode_some(name, value, place);
        }
    }

    fn or_default<T: Schema>(&mut self, name: &'static str, place: &mut T) {
        if let Some(value) = self.take(name) {
            self.decode(name, value, place);
        }
    }
}
