//! Laws: functions that do nothing, each with a contract that is a fact about definitions.

ghost use Rattle.std.specs.Prelude.{◌≡◌, ◌≤◌, ℕ, slice_get, Some};
ghost use Rattle.gltf_layout.specs.declared.place.Location.{Location};
ghost use Rattle.gltf_layout.specs.Stored.{Stored};
ghost use Rattle.gltf_layout.specs.Places.{AreWithin as LieInBuffer};
ghost use Rattle.gltf_accessors.specs.Elements.{AreWithin};

/// If elements lie in a buffer of a document, as `gltf_layout::laws::places_lie_in_buffers` says of
/// those of a place, `Elements::of` returns them from the bytes of that buffer, if these are not
/// fewer than the document says.
pub fn places_have_elements()
    ensures { (d : Stored) (at : Location) (buffer_length length : ℕ)
        → LieInBuffer d at.span.count at → slice_get d.buffers at.buffer ≡ Some buffer_length
        → buffer_length ≤ length → AreWithin length at.span }
{}
