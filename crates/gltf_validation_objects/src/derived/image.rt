//! Written by tools/derive.py from crates/gltf_parts/specs/Image.antt and
//! crates/gltf_parts/src/image.rt. Do not edit.
#![tactic(auto, using(crate::proofs::Past::past), unfolding(gltf_parts::specs::Image::image_rows, gltf_parts::specs::Image::image_members))]

ghost use Rattle.gltf_parts.specs.Image.{image_kind, image_members};
ghost use Rattle.gltf_schema.specs.Fields.{closed_object};

use crate::event::EventBuilder;
use crate::events::Events;
use crate::list_item::ListItem;
use crate::quiet::{Quiet, is_object_quiet};
use crate::value_ref::ValueRef;
use crate::visitable::Visitable;
use gltf_parts::image::Image;
use gltf_validation_rules::{Context, HasContext};

impl Visitable for Image {
    ghost kind = { image_kind };

    ghost tree = { λ v. closed_object (image_members v) };

    fn value_ref<'a>(&'a self, _context: &Context<'_>) -> ValueRef<'a> {
        ValueRef::Image(self)
    }
}

impl<'a, E: EventBuilder<'a>> Events<'a, E> for Image {
    fn event<C: HasContext>(&'a self, number: usize, context: &C) -> E {
        match number {
            0 => E::member("bufferView", &self.buffer_view, context),
            _ => E::end(),
        }
    }
}

impl Quiet for Image {
    fn is_quiet<C: HasContext>(&self, context: &C) -> bool {
        is_object_quiet(self, context)
    }
}

impl ListItem for Image {
    fn list_ref<'a>(items: &'a Vec<Image>) -> ValueRef<'a> {
        ValueRef::Images(items)
    }
}
