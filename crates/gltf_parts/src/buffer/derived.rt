//! Written by tools/derive.py from crates/gltf_parts/src/buffer.rt and
//! crates/gltf_parts/specs/Buffer.antt. Do not edit.

ghost use Rattle.gltf_parts.specs.Buffer.{buffer_members, buffer_rows, view_members, view_rows};
ghost use Rattle.gltf_parts.specs.BufferDerived.{buffer_height, buffer_sound, view_height, view_sound};
ghost use Rattle.serde_json.specs.Data.{no_members};
ghost use Rattle.std.proofs.Common.{lit≤};
ghost use Rattle.std.specs.Prelude.{false};

use super::{Buffer, View};
use gltf_base::Index;
use gltf_base::validation::USize64;
use gltf_schema::{Object, ReadRows, WriteRows};
use std::alloc::Global;

impl Object for Buffer {
    ghost rows = { buffer_rows };

    ghost keeps = { false };

    ghost members = { buffer_members };

    ghost unknown = { λ _. no_members };

    ghost kind_is_sound = { buffer_sound };

    ghost height = { 0 };

    ghost height_bounds_kind = { (buffer_height.1, lit≤ tt) };

    #[tactic(auto, unfolding(crate::specs::Buffer::buffer_rows, crate::specs::Buffer::buffer_members))]
    fn start(_alloc: Global) -> Buffer {
        Buffer {
            byte_length: USize64(0),
            name: None,
            uri: None,
            extensions: None,
            extras: None,
        }
    }

    #[tactic(auto, unfolding(crate::specs::Buffer::buffer_rows))]
    fn count_required() -> usize {
        0
    }

    fn read_rows<R: ReadRows>(&mut self, from: &mut R) {
        from.or_default("byteLength", &mut self.byte_length);
        from.optional("name", &mut self.name);
        from.optional("uri", &mut self.uri);
        from.optional("extensions", &mut self.extensions);
        from.optional("extras", &mut self.extras);
    }

    fn write_members<W: WriteRows>(&self, to: &mut W) {
        to.always("byteLength", &self.byte_length);
        to.optional("extensions", &self.extensions);
        to.optional("extras", &self.extras);
        to.optional("name", &self.name);
        to.optional("uri", &self.uri);
    }
}

impl Object for View {
    ghost rows = { view_rows };

    ghost keeps = { false };

    ghost members = { view_members };

    ghost unknown = { λ _. no_members };

    ghost kind_is_sound = { view_sound };

    ghost height = { 1 };

    ghost height_bounds_kind = { (view_height.1, lit≤ tt) };

    #[tactic(auto, unfolding(crate::specs::Buffer::view_rows, crate::specs::Buffer::view_members))]
    fn start(_alloc: Global) -> View {
        View {
            buffer: Index::new(0),
            byte_length: USize64(0),
            byte_offset: None,
            byte_stride: None,
            name: None,
            target: None,
            extensions: None,
            extras: None,
        }
    }

    #[tactic(auto, unfolding(crate::specs::Buffer::view_rows))]
    fn count_required() -> usize {
        2
    }

    fn read_rows<R: ReadRows>(&mut self, from: &mut R) {
        from.required("buffer", &mut self.buffer);
        from.required("byteLength", &mut self.byte_length);
        from.optional("byteOffset", &mut self.byte_offset);
        from.optional("byteStride", &mut self.byte_stride);
        from.optional("name", &mut self.name);
        from.optional("target", &mut self.target);
        from.optional("extensions", &mut self.extensions);
        from.optional("extras", &mut self.extras);
    }

    fn write_members<W: WriteRows>(&self, to: &mut W) {
        to.always("buffer", &self.buffer);
        to.always("byteLength", &self.byte_length);
        to.optional("byteOffset", &self.byte_offset);
        to.optional("byteStride", &self.byte_stride);
        to.optional("extensions", &self.extensions);
        to.optional("extras", &self.extras);
        to.optional("name", &self.name);
        to.optional("target", &self.target);
    }
}
