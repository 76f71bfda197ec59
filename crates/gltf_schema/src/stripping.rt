//! Values that are stripped in their places of what applications add to them.

ghost use Rattle.std.specs.Prelude.{◌≡◌};
ghost use Rattle.gltf_schema.specs.Fields.{list_tree};
ghost use Rattle.gltf_schema.specs.Kind.{ListOf, Object as object_kind, optional as is_optional};
ghost use Rattle.gltf_schema.specs.RowStripping.{StripsMember, StripsOthers};
ghost use Rattle.gltf_schema.specs.RowStripping.{source_stripped, sampler_stripped};
ghost use Rattle.gltf_schema.specs.Stripped.{member_left, stripped, strips_name};
ghost use Rattle.gltf_schema.specs.Tree.{object, tree_or_absent};

use crate::reading::ReadRows;
use crate::schema::{Object, Schema};
use crate::value::is_same;
use serde_json::{Map, Value};

/// What [`Schema::strip`] takes out of a value.
#[derive(Clone, Copy, Debug, Drop)]
pub enum Strip {
    /// The `extras` of each object.
    Extras,
    /// The unknown members that objects keep, as those of unknown extensions.
    Unknown,
}

impl Strip {
    /// Whether members of this name are stripped.
    fn strips_name(self, name: &str) -> bool
        ensures { result ≡ strips_name self name.now }
    {
        match self {
            Strip::Extras => is_same(name, "extras"),
            Strip::Unknown => false,
        }
    }
}

/// Strips the rows of an object in their places, as if it read them.
#[derive(Drop)]
pub(crate) struct Stripping {
    pub(crate) what: Strip,
}

impl Stripping {
    /// A member that may be absent.
    fn strip_some<T: Schema>(&mut self, name: &str, place: &mut Option<T>)
        ensures what { self.new.what ≡ self.old.what }
        ensures member { tree_or_absent T.tree place.new
            ≡ member_left self.old.what name.now is_optional
            (stripped self.old.what T.kind (tree_or_absent T.tree place.old)) }
    {
        if self.what.strips_name(name) {
            *place = None;
        } else if let Some(member) = place {
            member.strip(self.what);
        }
    }
}

impl ReadRows for Stripping {
    ghost use Rattle.gltf_schema.specs.declared.stripping.Strip.{Strip};

    ghost State = { Strip };

    ghost state = { λ s. s.what };

    ghost Takes = { StripsMember };

    ghost Leaves = { StripsOthers };

    ghost as_source = { source_stripped };

    ghost as_sampler = { sampler_stripped };

    fn others(&mut self, place: &mut Map<String, Value>) {
        match self.what {
            Strip::Extras => {}
            Strip::Unknown => place.clear(),
        }
    }

    fn required<T: Schema>(&mut self, _name: &'static str, place: &mut T) {
        place.strip(self.what);
    }

    fn optional<T: Schema>(&mut self, name: &'static str, place: &mut Option<T>) {
        self.strip_some(name, place);
    }

    fn sometimes<T: Schema>(&mut self, name: &'static str, place: &mut Option<T>) {
        self.strip_some(name, place);
    }

    fn or_default<T: Schema>(&mut self, _name: &'static str, place: &mut T) {
        place.strip(self.what);
    }
}

/// Strips each item in its place.
pub(crate) fn strip_items<T: Schema>(items: &mut [T], what: Strip)
    ensures { list_tree T.tree items.new
        ≡ stripped what (ListOf T.kind) (list_tree T.tree items.old) }
{
    for item in items.iter_mut() {
        item.strip(what);
    }
}

/// Strips an object in its place.
pub(crate) fn strip_object<T: Object>(place: &mut T, what: Strip)
    ensures { object (T.members place.new) (T.unknown place.new)
        ≡ stripped what (object_kind T.rule T.rows T.keeps)
        (object (T.members place.old) (T.unknown place.old)) }
{
    let mut stripping = Stripping { what };
    place.read_rows(&mut stripping);
}
