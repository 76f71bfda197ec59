//! Extension objects of which no member is known.

ghost use Rattle.std.specs.Prelude.{◌≡◌, Bool, true, false, refl};
ghost use Rattle.std.proofs.Common.{lit≤};
ghost use Rattle.std.specs.Option.{option_map_or};
ghost use Rattle.serde_json.specs.Data.{Members, no_members};
ghost use Rattle.serde_json.specs.View.{members_view};
ghost use Rattle.gltf_schema.specs.Tree.{end};
ghost use Rattle.gltf_schema.specs.Kind.{no_rows};
ghost use Rattle.gltf_schema.specs.Read.{left};
ghost use Rattle.gltf_schema.specs.RowReading.{ReadsMembers};

use crate::reading::ReadRows;
use crate::schema::Object;
use crate::writing::WriteRows;
use serde_json::{Map, Value};
use std::alloc::Global;

/// An extension object without known extensions, which keeps or drops unknown ones.
pub trait Unlisted: Drop {
    ghost is_keeping: { Bool };

    ghost kept: { Self → Members };

    /// The extension object of these members.
    fn from_others(others: Map<String, Value>) -> Self
        ensures { kept result ≡ left is_keeping (members_view others.entries) };

    /// Reads the members, if it keeps them.
    fn read_others<R: ReadRows>(&mut self, from: &mut R)
        ensures { ReadsMembers R.Takes R.Leaves no_rows is_keeping end end (kept self.old)
            (kept self.new) (R.state from.old) (R.state from.new) };

    /// The members that it keeps, or `None` where it drops them all.
    fn others(&self) -> Option<&Map<String, Value>>
        ensures { option_map_or (λ m. members_view m.now.entries) result no_members
            ≡ kept self.now };
}

impl<T: Unlisted> Object for T {
    ghost rows = { no_rows };

    ghost keeps = { T.is_keeping };

    ghost members = { λ _. end };

    ghost unknown = { T.kept };

    ghost kind_is_sound = { refl };

    ghost height = { 0 };

    ghost height_bounds_kind = { (refl, lit≤ tt) };

    fn start(alloc: Global) -> T {
        T::from_others(Map::new(alloc))
    }

    fn count_required() -> usize {
        0
    }

    fn read_rows<R: ReadRows>(&mut self, from: &mut R) {
        self.read_others(from);
    }

    fn write_members<W: WriteRows>(&self, to: &mut W) {
        if let Some(others) = self.others() {
            to.others(others);
        }
    }
}

/// An extension object without known extensions, which keeps unknown ones.
#[derive(Clone, Debug, Drop)]
pub struct KeptExtensions {
    /// Unknown extensions, kept as they are.
    pub others: Map<String, Value>,
}

impl Unlisted for KeptExtensions {
    ghost is_keeping = { true };

    ghost kept = { λ e. members_view e.others.entries };

    fn from_others(others: Map<String, Value>) -> KeptExtensions {
        KeptExtensions { others }
    }

    fn read_others<R: ReadRows>(&mut self, from: &mut R) {
        from.others(&mut self.others);
    }

    fn others(&self) -> Option<&Map<String, Value>> {
        Some(&self.others)
    }
}

impl KeptExtensions {
    /// Returns an empty extension object.
    pub fn new(alloc: Global) -> KeptExtensions
        ensures { members_view result.others.entries ≡ no_members }
    {
        KeptExtensions {
            others: Map::new(alloc),
        }
    }
}

/// An extension object without known extensions, which drops unknown ones.
#[derive(Clone, Debug, Drop)]
pub struct DroppedExtensions {}

impl Unlisted for DroppedExtensions {
    ghost is_keeping = { false };

    ghost kept = { λ _. no_members };

    fn from_others(_others: Map<String, Value>) -> DroppedExtensions {
        DroppedExtensions {}
    }

    fn read_others<R: ReadRows>(&mut self, _from: &mut R) {}

    fn others(&self) -> Option<&Map<String, Value>> {
        None
    }
}

impl DroppedExtensions {
    /// Returns an empty extension object.
    pub fn new() -> DroppedExtensions {
        DroppedExtensions {}
    }
}
