//! Elements that deviate from those of a base (glTF 2.0, section 3.6.2.3).

ghost use Rattle.std.specs.Prelude.{◌≡◌, ◌≢◌, ◌<◌, ◌≤◌, ◌+◌, ℕ, IfOk, IfErr, IsOk, IfSome, MatchOption};
ghost use Rattle.gltf_accessors.specs.Indices.{index_at};
ghost use Rattle.gltf_accessors.specs.Components.{AreComponents};
ghost use Rattle.gltf_accessors.specs.Sparse.{AreRising, AreBelow, IsSparseFault};

use crate::component::Component;
use crate::components::Components;
use crate::fault::SparseFault;
use crate::indices::Indices;

/// The elements that deviate from those of a base, by their indices.
#[derive(Debug, Drop)]
pub struct Sparse<'a, T: Component, const N: usize> {
    pub(crate) indices: Indices<'a>,
    pub(crate) values: Components<'a, T, N>,
    pub(crate) count: u64,
    pub(crate) ghost same_count: { indices.elements.span.count ≡ values.elements.span.count },
    pub(crate) ghost rising: { AreRising indices.kind indices.elements.bytes.now
        indices.elements.span indices.elements.span.count },
    pub(crate) ghost below: { AreBelow indices.kind indices.elements.bytes.now
        indices.elements.span count indices.elements.span.count },
}

impl<'a, T: Component, const N: usize> Sparse<'a, T, N> {
    /// Returns the elements that deviate from those of a base, of which there are `count`. Fails if
    /// there are not as many indices as values, then with the first index that is not above the one
    /// before, then with the first that is not below `count`. It takes time in proportion to the
    /// indices, and no memory.
    pub fn of(
        indices: Indices<'a>,
        values: Components<'a, T, N>,
        count: u64,
    ) -> Result<Sparse<'a, T, N>, SparseFault>
        ensures indices { IfOk result (λ s. s.indices ≡ indices.entry) }
        ensures values { IfOk result (λ s. s.values ≡ values.entry) }
        ensures count { IfOk result (λ s. s.count ≡ count) }
        // What the fault says is so, and no fault in front of it is.
        ensures fault { IfErr result (IsSparseFault indices.entry.kind
            indices.entry.elements.bytes.now indices.entry.elements.span
            values.entry.elements.span.count count) }
        // As many indices as values, which rise and are below the count, are returned.
        ensures only { indices.entry.elements.span.count ≡ values.entry.elements.span.count
            → AreRising indices.entry.kind indices.entry.elements.bytes.now
            indices.entry.elements.span indices.entry.elements.span.count
            → AreBelow indices.entry.kind indices.entry.elements.bytes.now
            indices.entry.elements.span count indices.entry.elements.span.count
            → IsOk result }
    {
        if indices.len() != values.len() {
            return Err(SparseFault::Count);
        }
        if let Err(fault) = check_rising(&indices) {
            return Err(fault);
        }
        if let Err(fault) = check_below(&indices, count) {
            return Err(fault);
        }
        Ok(Sparse {
            indices,
            values,
            count,
        })
    }

    /// The place of an index. `None` if the element doesn't deviate. It halves the places that are
    /// left with each step.
    pub fn find(&self, index: u64) -> Option<u64>
        ensures { MatchOption result
            ((j : ℕ) → j < self.now.indices.elements.span.count
            → index_at self.now.indices.kind self.now.indices.elements.bytes.now
            self.now.indices.elements.span j ≢ index)
            (λ j. (j < self.now.indices.elements.span.count)
            × (index_at self.now.indices.kind self.now.indices.elements.bytes.now
            self.now.indices.elements.span j ≡ index)) }
    {
        let mut low = 0;
        let mut high = self.indices.len();
        'halves: while low < high {
            let middle = low + (high - low) / 2;
            let found = self.indices.get(middle) as u64;
            if found == index {
                return Some(middle);
            }
            if found < index {
                low = middle + 1;
            } else {
                high = middle;
            }
        }
        None
    }

    /// The components of an element that deviates. `None` if it doesn't.
    pub fn get(&self, index: u64) -> Option<[T; N]>
        ensures found { MatchOption result
            ((j : ℕ) → j < self.now.indices.elements.span.count
            → index_at self.now.indices.kind self.now.indices.elements.bytes.now
            self.now.indices.elements.span j ≢ index)
            (λ xs. (j : ℕ) × (j < self.now.indices.elements.span.count)
            × (index_at self.now.indices.kind self.now.indices.elements.bytes.now
            self.now.indices.elements.span j ≡ index)) }
        // They are the value at the place of its index.
        ensures value { IfSome result (λ xs. (j : ℕ)
            → j < self.now.indices.elements.span.count
            → index_at self.now.indices.kind self.now.indices.elements.bytes.now
            self.now.indices.elements.span j ≡ index
            → AreComponents T.number_of T.SIZE N self.now.values.elements.bytes.now
            self.now.values.elements.span j xs) }
    {
        let Some(place) = self.find(index) else {
            return None;
        };
        Some(self.values.get(place))
    }
}

/// Checks that each index is above the one before.
fn check_rising(indices: &Indices<'_>) -> Result<(), SparseFault>
    ensures rising { IfOk result (λ _. AreRising indices.now.kind indices.now.elements.bytes.now
        indices.now.elements.span indices.now.elements.span.count) }
    ensures only { AreRising indices.now.kind indices.now.elements.bytes.now
        indices.now.elements.span indices.now.elements.span.count → IsOk result }
    ensures fault { IfErr result (λ f. (count : ℕ) → IsSparseFault indices.now.kind
        indices.now.elements.bytes.now indices.now.elements.span
        indices.now.elements.span.count count f) }
{
    for place in 1..indices.len() {
        let before = indices.get(place - 1);
        let index = indices.get(place);
        if index <= before {
            return Err(SparseFault::NotRising {
                place: place - 1,
                index,
            });
        }
    }
    Ok(())
}

/// Checks that each index is below a count. The indices rise.
fn check_below(indices: &Indices<'_>, count: u64) -> Result<(), SparseFault>
    requires { AreRising indices.now.kind indices.now.elements.bytes.now
        indices.now.elements.span indices.now.elements.span.count }
    ensures below { IfOk result (λ _. AreBelow indices.now.kind indices.now.elements.bytes.now
        indices.now.elements.span count indices.now.elements.span.count) }
    ensures only { AreBelow indices.now.kind indices.now.elements.bytes.now
        indices.now.elements.span count indices.now.elements.span.count → IsOk result }
    ensures fault { IfErr result (IsSparseFault indices.now.kind
        indices.now.elements.bytes.now indices.now.elements.span
        indices.now.elements.span.count count) }
{
    for place in 0..indices.len() {
        let index = indices.get(place);
        if index as u64 >= count {
            return Err(SparseFault::BehindEnd { place, index });
        }
    }
    Ok(())
}
