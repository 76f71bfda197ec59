//! Buffers of documents.

ghost use Rattle.std.specs.Prelude.{map};
ghost use Rattle.gltf_buffers.specs.Sources.{buffer_of};

use gltf_buffers::{BufferList, StoredBuffer};

/// Buffers in a slice.
#[derive(Clone, Copy)]
pub struct Listed<'a>(pub &'a [StoredBuffer<'a>]);

impl BufferList for Listed<'_> {
    ghost listed = { λ s. map buffer_of s.0.now };

    fn buffer_count(&self) -> usize {
        self.0.len()
    }

    fn buffer(&self, number: usize) -> StoredBuffer<'_> {
        self.0[number]
    }
}
