//! The buffers that a document lists.

ghost use Rattle.std.specs.Prelude.{◌≡◌, option_map};
ghost use Rattle.std.specs.String.{string_bytes};
ghost use Rattle.gltf_buffers.specs.Sources.{buffer_of};
ghost use Rattle.gltf_load.specs.Buffers.{stored_buffer, buffers_listed};

use crate::document::Document;
use gltf_buffers::{BufferList, StoredBuffer};
use gltf_parts::buffer::Buffer;

impl BufferList for Document<'_> {
    ghost listed = { λ s. buffers_listed s.buffers.now };

    fn buffer_count(&self) -> usize {
        self.buffers.len()
    }

    fn buffer(&self, number: usize) -> StoredBuffer<'_> {
        stored_buffer(&self.buffers[number])
    }
}

/// What a buffer says.
fn stored_buffer(buffer: &Buffer) -> StoredBuffer<'_>
    ensures { buffer_of result ≡ stored_buffer buffer.now }
{
    StoredBuffer {
        byte_length: buffer.byte_length.0,
        uri: uri_of(buffer),
    }
}

/// Where its bytes are.
fn uri_of(buffer: &Buffer) -> Option<&str>
    ensures { option_map (λ u. u.now) result ≡ option_map string_bytes buffer.now.uri }
{
    match &buffer.uri {
        Some(uri) => Some(uri.as_str()),
        None => None,
    }
}
