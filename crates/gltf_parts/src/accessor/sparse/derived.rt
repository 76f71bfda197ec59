//! Written by tools/derive.py from crates/gltf_parts/src/accessor/sparse.rt and
//! crates/gltf_parts/specs/Accessor.antt. Do not edit.

ghost use Rattle.gltf_parts.specs.Accessor.{sparse_indices_members, sparse_indices_rows, sparse_members, sparse_rows, sparse_values_members, sparse_values_rows};
ghost use Rattle.gltf_parts.specs.AccessorDerived.{sparse_height, sparse_indices_height, sparse_indices_sound, sparse_sound, sparse_values_height, sparse_values_sound};
ghost use Rattle.serde_json.specs.Data.{no_members};
ghost use Rattle.std.proofs.Common.{lit≤};
ghost use Rattle.std.specs.Prelude.{false};

use super::{Indices, Sparse, Values};
use gltf_base::Index;
use gltf_base::validation::{Checked, USize64};
use gltf_schema::{Object, ReadRows, WriteRows};
use std::alloc::Global;

impl Object for Indices {
    ghost rows = { sparse_indices_rows };

    ghost keeps = { false };

    ghost members = { sparse_indices_members };

    ghost unknown = { λ _. no_members };

    ghost kind_is_sound = { sparse_indices_sound };

    ghost height = { 1 };

    ghost height_bounds_kind = { (sparse_indices_height.1, lit≤ tt) };

    #[tactic(auto, unfolding(crate::specs::Accessor::sparse_indices_rows, crate::specs::Accessor::sparse_indices_members))]
    fn start(_alloc: Global) -> Indices {
        Indices {
            buffer_view: Index::new(0),
            byte_offset: USize64(0),
            component_type: Checked::Invalid,
            extensions: None,
            extras: None,
        }
    }

    #[tactic(auto, unfolding(crate::specs::Accessor::sparse_indices_rows))]
    fn count_required() -> usize {
        2
    }

    fn read_rows<R: ReadRows>(&mut self, from: &mut R) {
        from.required("bufferView", &mut self.buffer_view);
        from.or_default("byteOffset", &mut self.byte_offset);
        from.required("componentType", &mut self.component_type);
        from.optional("extensions", &mut self.extensions);
        from.optional("extras", &mut self.extras);
    }

    fn write_members<W: WriteRows>(&self, to: &mut W) {
        to.always("bufferView", &self.buffer_view);
        to.always("byteOffset", &self.byte_offset);
        to.always("componentType", &self.component_type);
        to.optional("extensions", &self.extensions);
        to.optional("extras", &self.extras);
    }
}

impl Object for Values {
    ghost rows = { sparse_values_rows };

    ghost keeps = { false };

    ghost members = { sparse_values_members };

    ghost unknown = { λ _. no_members };

    ghost kind_is_sound = { sparse_values_sound };

    ghost height = { 1 };

    ghost height_bounds_kind = { (sparse_values_height.1, lit≤ tt) };

    #[tactic(auto, unfolding(crate::specs::Accessor::sparse_values_rows, crate::specs::Accessor::sparse_values_members))]
    fn start(_alloc: Global) -> Values {
        Values {
            buffer_view: Index::new(0),
            byte_offset: USize64(0),
            extensions: None,
            extras: None,
        }
    }

    #[tactic(auto, unfolding(crate::specs::Accessor::sparse_values_rows))]
    fn count_required() -> usize {
        1
    }

    fn read_rows<R: ReadRows>(&mut self, from: &mut R) {
        from.required("bufferView", &mut self.buffer_view);
        from.or_default("byteOffset", &mut self.byte_offset);
        from.optional("extensions", &mut self.extensions);
        from.optional("extras", &mut self.extras);
    }

    fn write_members<W: WriteRows>(&self, to: &mut W) {
        to.always("bufferView", &self.buffer_view);
        to.always("byteOffset", &self.byte_offset);
        to.optional("extensions", &self.extensions);
        to.optional("extras", &self.extras);
    }
}

impl Object for Sparse {
    ghost rows = { sparse_rows };

    ghost keeps = { false };

    ghost members = { sparse_members };

    ghost unknown = { λ _. no_members };

    ghost kind_is_sound = { sparse_sound };

    ghost height = { 2 };

    ghost height_bounds_kind = { (sparse_height.1, lit≤ tt) };

    #[tactic(auto, unfolding(crate::specs::Accessor::sparse_rows, crate::specs::Accessor::sparse_members))]
    fn start(alloc: Global) -> Sparse {
        Sparse {
            count: USize64(0),
            indices: Indices::start(alloc),
            values: Values::start(alloc),
            extensions: None,
            extras: None,
        }
    }

    #[tactic(auto, unfolding(crate::specs::Accessor::sparse_rows))]
    fn count_required() -> usize {
        3
    }

    fn read_rows<R: ReadRows>(&mut self, from: &mut R) {
        from.required("count", &mut self.count);
        from.required("indices", &mut self.indices);
        from.required("values", &mut self.values);
        from.optional("extensions", &mut self.extensions);
        from.optional("extras", &mut self.extras);
    }

    fn write_members<W: WriteRows>(&self, to: &mut W) {
        to.always("count", &self.count);
        to.optional("extensions", &self.extensions);
        to.optional("extras", &self.extras);
        to.always("indices", &self.indices);
        to.always("values", &self.values);
    }
}
