//! Buffers and buffer views (glTF 2.0, sections 5.10 and 5.11).

ghost use Rattle.std.specs.Prelude.{◌≡◌, [], ◌∷◌, refl, codes};
ghost use Rattle.gltf_base.specs.Lists.{buffers, buffer_views};
ghost use Rattle.gltf_schema.specs.Kind.{Stride as stride_kind};
ghost use Rattle.gltf_schema.specs.Tree.{whole};
ghost use Rattle.gltf_schema.specs.WithDefaults.{with_defaults};
ghost use Rattle.gltf_schema.specs.Fields.{index_tree};
ghost use Rattle.gltf_parts.specs.Buffer.{buffer_rows, view_rows, buffer_members, view_members, stride_tree};

use crate::extensions;
use crate::extras::Extras;
pub use gltf_base::buffer::{
    ARRAY_BUFFER, ELEMENT_ARRAY_BUFFER, MAX_BYTE_STRIDE, MIN_BYTE_STRIDE, Target, VALID_TARGETS,
};
use gltf_base::validation::{Checked, USize64};
use gltf_base::{Index, Listed};
use gltf_schema::{
    Error, Refusal, Schema, Shape, Source, Stream, Strip, Tabled, Unread, whole_or_refused,
};
use serde_json::Value;
use std::alloc::{AllocError, Global};

mod derived;

/// The stride between elements of a buffer view, in bytes.
#[derive(Clone, Copy, Debug, Default, PartialEq, Eq, Hash)]
pub struct Stride(pub usize);

impl Tabled for Stride {
    ghost kind = { stride_kind };

    ghost tree = { stride_tree };
}

impl Schema for Stride {
    ghost is_never_absent = { λ _. refl };

    fn decode_from<S: Source>(_alloc: Global, source: S) -> Result<Stride, Error> {
        Ok(Stride(source.whole().ok_or(Error::Schema)? as usize))
    }

    fn from_token<'a>(from: &mut Stream<'a>) -> Result<Stride, Unread> {
        Ok(Stride(USize64::from_token(from)?.0 as usize))
    }

    fn decode_or_place<S: Source>(alloc: Global, source: S) -> Result<Stride, Refusal> {
        whole_or_refused(alloc, Self::decode_from(alloc, source))
    }

    fn encode(&self, _alloc: Global) -> Result<Value, Error> {
        Ok(Value::from(self.0))
    }

    fn strip(&mut self, _what: Strip) {}

    fn outline(alloc: Global, nodes: &mut Vec<Shape>) -> Result<usize, AllocError> {
        USize64::outline(alloc, nodes)
    }
}

/// Binary data, in a file or in its URI (glTF 2.0, section 5.10).
#[derive(Clone, Debug)]
pub struct Buffer {
    /// How many bytes the data has at least; a `.glb` file may hold up to three more.
    pub byte_length: USize64,
    pub name: Option<String>,
    /// The URI of the data; if absent, the data is in the `.glb` file of the document.
    pub uri: Option<String>,
    pub extensions: Option<extensions::buffer::Buffer>,
    pub extras: Extras,
}

// Written by tools/derive.py: begin
impl Drop for Buffer {
    #[inline(always)]
    fn drop(self) {
        let Buffer {
            byte_length: _,
            name: _,
            uri: _,
            extensions: _,
            extras: _,
        } = self;
    }
}
// Written by tools/derive.py: end

impl Buffer {
    /// Returns a buffer of `byte_length` bytes, every other member at its default.
    #[tactic(auto, unfolding(crate::specs::Buffer::buffer_rows, crate::specs::Buffer::buffer_members))]
    pub fn new(byte_length: u64) -> Buffer
        ensures { buffer_members result
            ≡ with_defaults buffer_rows ((codes "byteLength", whole byte_length) ∷ []) }
    {
        Buffer {
            byte_length: USize64(byte_length),
            name: None,
            uri: None,
            extensions: None,
            extras: None,
        }
    }
}

impl Listed for Buffer {
    ghost list = { buffers };
}

/// A view into a buffer (glTF 2.0, section 5.11).
// What takes longest to drop comes last (docs/DECISIONS.md, "Order of fields").
#[derive(Clone, Debug)]
pub struct View {
    /// The buffer.
    pub buffer: Index<Buffer>,
    /// The length of the buffer view, in bytes.
    pub byte_length: USize64,
    /// The offset into the buffer, in bytes.
    pub byte_offset: Option<USize64>,
    /// The stride between elements, in bytes; if absent, elements are tightly packed. An explicit 0
    /// is reported, as is any stride below 4 or above 252.
    pub byte_stride: Option<Stride>,
    /// The intended GPU buffer type.
    pub target: Option<Checked<Target>>,
    pub name: Option<String>,
    pub extensions: Option<extensions::buffer::View>,
    pub extras: Extras,
}

// Written by tools/derive.py: begin
impl Drop for View {
    #[inline(always)]
    fn drop(self) {
        let View {
            buffer: _,
            byte_length: _,
            byte_offset: _,
            byte_stride: _,
            target: _,
            name: _,
            extensions: _,
            extras: _,
        } = self;
    }
}
// Written by tools/derive.py: end

impl View {
    /// Returns a buffer view of `byte_length` bytes at the start of a buffer, every other member at
    /// its default.
    #[tactic(auto, unfolding(crate::specs::Buffer::view_rows, crate::specs::Buffer::view_members))]
    pub fn new(buffer: Index<Buffer>, byte_length: u64) -> View
        ensures { view_members result ≡ with_defaults view_rows (
            (codes "buffer", index_tree buffer)
            ∷ (codes "byteLength", whole byte_length)
            ∷ []) }
    {
        View {
            buffer,
            byte_length: USize64(byte_length),
            byte_offset: None,
            byte_stride: None,
            target: None,
            name: None,
            extensions: None,
            extras: None,
        }
    }
}

impl Listed for View {
    ghost list = { buffer_views };
}
