//! Written by tools/derive.py from crates/gltf_parts/specs/Buffer.antt and
//! crates/gltf_parts/src/buffer.rt. Do not edit.
#![tactic(auto, using(crate::proofs::Past::past), unfolding(gltf_parts::specs::Buffer::view_rows, gltf_parts::specs::Buffer::view_members))]

ghost use Rattle.gltf_parts.specs.Buffer.{buffer_kind, buffer_members, buffer_rows, view_kind, view_members};
ghost use Rattle.gltf_schema.specs.Fields.{closed_object};
ghost use Rattle.std.specs.Prelude.{refl};

use crate::always_valid::AlwaysValid;
use crate::event::EventBuilder;
use crate::events::Events;
use crate::list_item::ListItem;
use crate::quiet::{Quiet, is_object_quiet};
use crate::value_ref::ValueRef;
use crate::visitable::Visitable;
use gltf_parts::buffer::{Buffer, View};
use gltf_validation_rules::{Context, HasContext};

impl AlwaysValid for Buffer {
    ghost kind = { buffer_kind };

    ghost tree = { λ v. closed_object (buffer_members v) };

    ghost quiet_checklist = { λ _ _. unfold buffer_rows buffer_members in refl };
}

impl Visitable for View {
    ghost kind = { view_kind };

    ghost tree = { λ v. closed_object (view_members v) };

    fn value_ref<'a>(&'a self, _context: &Context<'_>) -> ValueRef<'a> {
        ValueRef::View(self)
    }
}

impl<'a, E: EventBuilder<'a>> Events<'a, E> for View {
    fn event<C: HasContext>(&'a self, number: usize, context: &C) -> E {
        match number {
            0 => E::member("buffer", &self.buffer, context),
            1 => E::member("byteStride", &self.byte_stride, context),
            2 => E::member("target", &self.target, context),
            _ => E::end(),
        }
    }
}

impl Quiet for View {
    fn is_quiet<C: HasContext>(&self, context: &C) -> bool {
        is_object_quiet(self, context)
    }
}

impl ListItem for View {
    fn list_ref<'a>(items: &'a Vec<View>) -> ValueRef<'a> {
        ValueRef::Views(items)
    }
}
