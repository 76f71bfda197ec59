//! Laws: functions that do nothing, each with a contract that is a fact about definitions.

ghost use Rattle.std.specs.Prelude.{◌≡◌, ◌+◌, ◌*◌, ◌≤◌, ◌<◌, ◌^◌, ℕ, List, slice_get, Some};
ghost use Rattle.gltf_layout.specs.declared.span.AccessorLayout.{AccessorLayout};
ghost use Rattle.gltf_layout.specs.declared.view.ViewLayout.{ViewLayout};
ghost use Rattle.gltf_layout.specs.declared.storage.StoredAccessor.{StoredAccessor};
ghost use Rattle.gltf_layout.specs.declared.place.Location.{Location};
ghost use Rattle.gltf_layout.specs.declared.place.Place.{Place};
ghost use Rattle.gltf_layout.specs.Stored.{Stored};
ghost use Rattle.gltf_layout.specs.Places.{IsPlace, ArePlaces, AreWithin, IsWithinBuffers};
ghost use Rattle.gltf_layout.specs.Fits.{Fits, start_of, stride_of, size_of};

/// If an accessor fits, each of its elements ends within the buffer, and so below 2^64.
pub fn elements_lie_in_buffers()
    ensures within { (a : AccessorLayout) (v : ViewLayout) (buffer_length i : ℕ)
        → Fits a v buffer_length → i < a.count
        → start_of a v + i * stride_of a v + size_of a ≤ buffer_length }
    ensures below { (a : AccessorLayout) (v : ViewLayout) (buffer_length i : ℕ)
        → Fits a v buffer_length → buffer_length < 2 ^ 64 → i < a.count
        → start_of a v + i * stride_of a v + size_of a < 2 ^ 64 }
{}

/// Each element of an accessor that has a place ends within its buffer, and so does each index and
/// each value of a sparse one. If buffers have fewer than 2^64 bytes, no sum is 2^64 or more.
pub fn places_lie_in_buffers()
    ensures place { (d : Stored) (a : StoredAccessor) (p : Place) → IsPlace d a p
        → IsWithinBuffers d p }
    ensures layout { (d : Stored) (places : List Place) (n : ℕ) (p : Place)
        → ArePlaces d places → slice_get places n ≡ Some p → IsWithinBuffers d p }
    ensures below { (d : Stored) (count i : ℕ) (at : Location)
        → ((n length : ℕ) → slice_get d.buffers n ≡ Some length → length < 2 ^ 64)
        → AreWithin d count at → i < count
        → at.span.start + i * at.span.stride + at.span.size < 2 ^ 64 }
{
    elements_lie_in_buffers();
}
