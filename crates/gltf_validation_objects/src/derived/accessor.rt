//! Written by tools/derive.py from crates/gltf_parts/specs/Accessor.antt,
//! crates/gltf_parts/src/accessor/sparse.rt and crates/gltf_parts/src/accessor.rt. Do not edit.
#![tactic(auto, using(crate::proofs::Past::past), unfolding(gltf_parts::specs::Accessor::sparse_indices_rows, gltf_parts::specs::Accessor::sparse_indices_members, gltf_parts::specs::Accessor::sparse_values_rows, gltf_parts::specs::Accessor::sparse_values_members, gltf_parts::specs::Accessor::sparse_rows, gltf_parts::specs::Accessor::sparse_members, gltf_parts::specs::Accessor::accessor_rows, gltf_parts::specs::Accessor::accessor_members))]

ghost use Rattle.gltf_parts.specs.Accessor.{accessor_kind, accessor_members, sparse_indices_kind, sparse_indices_members, sparse_kind, sparse_members, sparse_values_kind, sparse_values_members};
ghost use Rattle.gltf_schema.specs.Fields.{closed_object};

use crate::event::EventBuilder;
use crate::events::Events;
use crate::list_item::ListItem;
use crate::quiet::{Quiet, is_object_quiet};
use crate::value_ref::ValueRef;
use crate::visitable::Visitable;
use gltf_parts::accessor::Accessor;
use gltf_parts::accessor::sparse::{Indices, Sparse, Values};
use gltf_validation_rules::{Context, HasContext, data_fault};

impl Visitable for Indices {
    ghost kind = { sparse_indices_kind };

    ghost tree = { λ v. closed_object (sparse_indices_members v) };

    fn value_ref<'a>(&'a self, _context: &Context<'_>) -> ValueRef<'a> {
        ValueRef::SparseIndices(self)
    }
}

impl<'a, E: EventBuilder<'a>> Events<'a, E> for Indices {
    fn event<C: HasContext>(&'a self, number: usize, context: &C) -> E {
        match number {
            0 => E::member("bufferView", &self.buffer_view, context),
            1 => E::member("componentType", &self.component_type, context),
            _ => E::end(),
        }
    }
}

impl Quiet for Indices {
    fn is_quiet<C: HasContext>(&self, context: &C) -> bool {
        is_object_quiet(self, context)
    }
}

impl Visitable for Values {
    ghost kind = { sparse_values_kind };

    ghost tree = { λ v. closed_object (sparse_values_members v) };

    fn value_ref<'a>(&'a self, _context: &Context<'_>) -> ValueRef<'a> {
        ValueRef::SparseValues(self)
    }
}

impl<'a, E: EventBuilder<'a>> Events<'a, E> for Values {
    fn event<C: HasContext>(&'a self, number: usize, context: &C) -> E {
        match number {
            0 => E::member("bufferView", &self.buffer_view, context),
            _ => E::end(),
        }
    }
}

impl Quiet for Values {
    fn is_quiet<C: HasContext>(&self, context: &C) -> bool {
        is_object_quiet(self, context)
    }
}

impl Visitable for Sparse {
    ghost kind = { sparse_kind };

    ghost tree = { λ v. closed_object (sparse_members v) };

    fn value_ref<'a>(&'a self, _context: &Context<'_>) -> ValueRef<'a> {
        ValueRef::Sparse(self)
    }
}

impl<'a, E: EventBuilder<'a>> Events<'a, E> for Sparse {
    fn event<C: HasContext>(&'a self, number: usize, context: &C) -> E {
        match number {
            0 => E::member("indices", &self.indices, context),
            1 => E::member("values", &self.values, context),
            _ => E::end(),
        }
    }
}

impl Quiet for Sparse {
    fn is_quiet<C: HasContext>(&self, context: &C) -> bool {
        is_object_quiet(self, context)
    }
}

impl Visitable for Accessor {
    ghost kind = { accessor_kind };

    ghost tree = { λ v. closed_object (accessor_members v) };

    fn value_ref<'a>(&'a self, _context: &Context<'_>) -> ValueRef<'a> {
        ValueRef::Accessor(self)
    }
}

impl<'a, E: EventBuilder<'a>> Events<'a, E> for Accessor {
    fn event<C: HasContext>(&'a self, number: usize, context: &C) -> E {
        match number {
            0 => E::member("bufferView", &self.buffer_view, context),
            1 => E::member("componentType", &self.component_type, context),
            2 => E::member("type", &self.type_, context),
            3 => E::member("sparse", &self.sparse, context),
            4 => E::fault_at("bufferView", data_fault(self)),
            _ => E::end(),
        }
    }
}

impl Quiet for Accessor {
    fn is_quiet<C: HasContext>(&self, context: &C) -> bool {
        is_object_quiet(self, context)
    }
}

impl ListItem for Accessor {
    fn list_ref<'a>(items: &'a Vec<Accessor>) -> ValueRef<'a> {
        ValueRef::Accessors(items)
    }
}
