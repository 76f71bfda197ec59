//! Laws: functions that do nothing, each with a contract that is a fact about definitions.

ghost use Rattle.std.specs.Prelude.{◌≡◌, ◌+◌, ◌*◌, ◌≤◌, ◌<◌, ℕ, List, slice_get, Some};
ghost use Rattle.gltf_parts.specs.declared.accessor.Accessor.{Accessor};
ghost use Rattle.gltf_parts.specs.declared.buffer.View.{View};
ghost use Rattle.gltf_parts.specs.declared.buffer.Buffer.{Buffer};
ghost use Rattle.gltf_layout.specs.declared.span.Span.{Span};
ghost use Rattle.gltf_layout.specs.declared.place.Place.{Place};
ghost use Rattle.gltf_layout.specs.Places.{ArePlaces};
ghost use Rattle.gltf_load.specs.Spans.{AreNamed, LieIn};
ghost use Rattle.gltf_load.specs.Documents.{stored_in, LieWithin};

use gltf_layout::laws::{elements_lie_in_buffers, places_lie_in_buffers};

/// If the elements of an accessor lie in a buffer, each ends within the buffer that its view names.
pub fn elements_of_places_lie_in_buffers()
    ensures { (views : List View) (buffers : List Buffer) (a : Accessor) (v : View) (b : Buffer)
        (s : Span) (i : ℕ)
        → AreNamed views buffers a v b → LieIn views buffers a s → i < s.count
        → s.start + i * s.stride + s.size ≤ b.byte_length.0 }
{
    elements_lie_in_buffers();
}

/// In a layout of a document each element of an accessor ends within the `byteLength` of its
/// buffer, and so does each index and each value of a sparse accessor.
pub fn places_of_documents_lie_in_buffers()
    ensures { (buffers : List Buffer) (views : List View) (accessors : List Accessor)
        (places : List Place) (n : ℕ) (p : Place)
        → ArePlaces (stored_in buffers views accessors) places → slice_get places n ≡ Some p
        → LieWithin buffers p }
{
    places_lie_in_buffers();
}
