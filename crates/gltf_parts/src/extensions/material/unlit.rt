//! Surfaces without light (`KHR_materials_unlit`).

ghost use Rattle.std.specs.Prelude.{false, refl};
ghost use Rattle.std.proofs.Common.{lit≤};
ghost use Rattle.serde_json.specs.Data.{no_members};
ghost use Rattle.gltf_schema.specs.Kind.{no_rows};
ghost use Rattle.gltf_schema.specs.Tree.{end};

use gltf_schema::{Object, ReadRows, WriteRows};
use std::alloc::Global;

/// A material that isn't affected by light (`KHR_materials_unlit`).
#[derive(Clone, Debug, Drop)]
pub struct Unlit {}

impl Object for Unlit {
    ghost rows = { no_rows };

    ghost keeps = { false };

    ghost members = { λ _. end };

    ghost unknown = { λ _. no_members };

    ghost kind_is_sound = { refl };

    ghost height = { 0 };

    ghost height_bounds_kind = { (refl, lit≤ tt) };

    fn start(_alloc: Global) -> Unlit {
        Unlit {}
    }

    fn count_required() -> usize {
        0
    }

    fn read_rows<R: ReadRows>(&mut self, _from: &mut R) {}

    fn write_members<W: WriteRows>(&self, _to: &mut W) {}
}

impl Unlit {
    /// Returns an object, which has no members.
    pub fn new() -> Unlit {
        Unlit {}
    }
}
