//! Where the elements of every accessor of a document lie.

ghost use Rattle.std.specs.Prelude.{◌≡◌, ◌≤◌, ℕ, slice_get, option_map, IfOk, IfErr};
ghost use Rattle.gltf_layout.specs.Places.{HasLayout, ArePlaces};
ghost use Rattle.gltf_layout.specs.Faults.{IsLayoutError, IsOutOfMemory};
ghost use Rattle.gltf_layout.specs.Layouts.{layout_places, AreZerosWithin};

use crate::fault::{LayoutError, StorageFault};
use crate::faults::next_view_fault;
use crate::place::{Place, place_of};
use crate::storage::Storage;
use std::alloc::Global;

/// Where the elements of every accessor of a document lie. There is one only if every view is a
/// part of its buffer, and the elements of every accessor lie in their buffers (glTF 2.0, sections
/// 3.6.1, 3.6.2, 5.1 to 5.4 and 5.11).
#[derive(Debug, Drop)]
pub struct Layout {
    places: Vec<Place>,
}

impl Layout {
    /// Returns the layout of a document. Fails with the first fault, that of a view before that of
    /// an accessor, or if memory is refused. It takes time in proportion to the views and
    /// accessors, memory in proportion to the accessors, and does not recurse.
    pub fn of<D: Storage>(alloc: Global, document: &D) -> Result<Layout, LayoutError>
        // What every view and every accessor must meet is met.
        ensures layout { IfOk result (λ _. HasLayout (D.stored document.now)) }
        // A layout is found, unless memory is refused.
        ensures only { HasLayout (D.stored document.now) → IfErr result IsOutOfMemory }
        // What the error says is so, and no earlier fault is.
        ensures fault { IfErr result (IsLayoutError (D.stored document.now)) }
        // What `place` returns.
        ensures places { IfOk result (λ l. ArePlaces (D.stored document.now) (layout_places l)) }
    {
        if let Some((view, fault)) = next_view_fault(document, 0) {
            return Err(LayoutError::Fault(StorageFault::View { view, fault }));
        }
        let mut places = match Vec::with_capacity(alloc, document.accessor_count()) {
            Ok(places) => places,
            Err(error) => return Err(LayoutError::Memory(error)),
        };
        for accessor in 0..document.accessor_count() {
            match place_of(document, &document.accessor(accessor)) {
                Ok(place) => {
                    if let Err(error) = places.push(place) {
                        return Err(LayoutError::Memory(error.into()));
                    }
                }
                Err(fault) => {
                    return Err(LayoutError::Fault(StorageFault::Accessor { accessor, fault }));
                }
            }
        }
        Ok(Layout { places })
    }

    /// Where the elements of an accessor lie. `None` if there is no such accessor.
    pub fn place(&self, accessor: usize) -> Option<&Place>
        ensures { option_map (λ p. p.now) result ≡ slice_get (layout_places self.now) accessor }
    {
        self.places.get(accessor)
    }
    /// How many elements the accessor has that has most of those without a view, 0 if each has one.
    /// Such elements are zeros (section 5.1.1), and no byte stands for them, so a few bytes of a
    /// document may say 2^53 of them. A program that goes over elements compares this with a limit
    /// of its own first. It takes time in proportion to the accessors.
    pub fn most_zeros(&self) -> u64
        // No accessor without a view has more.
        ensures within { AreZerosWithin (layout_places self.now) result }
        // No lower number says so.
        ensures least { (most : ℕ) → AreZerosWithin (layout_places self.now) most
            → result ≤ most }
    {
        let mut most = 0;
        for number in 0..self.places.len() {
            let place = &self.places[number];
            if !place.is_stored() && place.count > most {
                most = place.count;
            }
        }
        most
    }
}
