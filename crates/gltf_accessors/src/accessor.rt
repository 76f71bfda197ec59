//! Accessors whose elements are those of a view or zeros, of which some may deviate.

ghost use Rattle.std.specs.Prelude.{◌≡◌, ◌≢◌, ◌<◌, ◌↔◌, ℕ, ⊤, Some, slice_get, length, unwrap_or, option_map, IfOk, IfErr, IsOk, IsSome, IsTrue, IfSome, MatchOption};
ghost use Rattle.gltf_accessors.specs.Indices.{index_at};
ghost use Rattle.gltf_accessors.specs.Components.{AreComponents};
ghost use Rattle.gltf_accessors.specs.AccessorFaults.{IsAccessorFault};

use crate::component::Component;
use crate::components::Components;
use crate::fault::AccessorFault;
use crate::sparse::Sparse;

/// The elements of an accessor (glTF 2.0, section 5.1).
#[derive(Debug, Drop)]
pub struct Accessor<'a, T: Component, const N: usize> {
    pub(crate) count: u64,
    pub(crate) base: Option<Components<'a, T, N>>,
    pub(crate) sparse: Option<Sparse<'a, T, N>>,
    pub(crate) ghost base_count: { unwrap_or (option_map (λ b. b.elements.span.count) base) count
        ≡ count },
    pub(crate) ghost sparse_count: { unwrap_or (option_map (λ s. s.count) sparse) count
        ≡ count },
}

impl<'a, T: Component, const N: usize> Accessor<'a, T, N> {
    /// Returns an accessor of so many elements. They are those of its view, or zeros if it has none
    /// (section 5.1.1), but for those that deviate. Fails if the view has not as many elements,
    /// then if the deviating ones are those of another count.
    pub fn of(
        count: u64,
        base: Option<Components<'a, T, N>>,
        sparse: Option<Sparse<'a, T, N>>,
    ) -> Result<Accessor<'a, T, N>, AccessorFault>
        ensures count { IfOk result (λ a. a.count ≡ count) }
        ensures base { IfOk result (λ a. a.base ≡ base.entry) }
        ensures sparse { IfOk result (λ a. a.sparse ≡ sparse.entry) }
        // Parts of the same count are returned, and no others.
        ensures only { IsOk result
            ↔ (unwrap_or (option_map (λ b. b.elements.span.count) base.entry) count ≡ count)
            × (unwrap_or (option_map (λ s. s.count) sparse.entry) count ≡ count) }
        // What the fault says is so, and no fault in front of it is.
        ensures fault { IfErr result (IsAccessorFault count
            (unwrap_or (option_map (λ b. b.elements.span.count) base.entry) count)
            (unwrap_or (option_map (λ s. s.count) sparse.entry) count)) }
    {
        if base_count(&base, count) != count {
            return Err(AccessorFault::Count);
        }
        if sparse_count(&sparse, count) != count {
            return Err(AccessorFault::SparseCount);
        }
        Ok(Accessor {
            count,
            base,
            sparse,
        })
    }

    /// Returns whether the accessor has a view. Without one its elements are zeros, but for those
    /// that deviate, and nothing bounds how many there are (section 5.1.1).
    pub fn is_stored(&self) -> bool
        ensures { IsTrue result ↔ IsSome self.now.base }
    {
        self.base.is_some()
    }

    /// How many elements there are.
    #[inline(always)]
    pub fn len(&self) -> u64
        ensures { result ≡ self.now.count }
    {
        self.count
    }

    /// The components of an element.
    #[inline(always)]
    pub fn get(&self, index: u64) -> [T; N]
        requires { index < self.now.count }
        // An element that deviates is the value at the place of its index.
        ensures sparse { IfSome self.now.sparse (λ s. (j : ℕ)
            → j < s.indices.elements.span.count
            → index_at s.indices.kind s.indices.elements.bytes.now s.indices.elements.span j
            ≡ index
            → AreComponents T.number_of T.SIZE N s.values.elements.bytes.now
            s.values.elements.span j result) }
        // Every other one is that of the view, or zeros.
        ensures base { MatchOption self.now.sparse ⊤ (λ s. (j : ℕ)
            → j < s.indices.elements.span.count
            → index_at s.indices.kind s.indices.elements.bytes.now
            s.indices.elements.span j ≢ index)
            → MatchOption self.now.base
            ((length result ≡ N) × ((k : ℕ) → k < N → slice_get result k ≡ Some T.zero))
            (λ b. AreComponents T.number_of T.SIZE N b.elements.bytes.now b.elements.span
            index result) }
    {
        if let Some(sparse) = &self.sparse {
            if let Some(numbers) = sparse.get(index) {
                return numbers;
            }
        }
        match &self.base {
            Some(base) => base.get(index),
            None => zeros(),
        }
    }
}

/// How many elements a view has, or `count` if there is none.
fn base_count<T: Component, const N: usize>(base: &Option<Components<'_, T, N>>, count: u64) -> u64
    ensures { result ≡ unwrap_or (option_map (λ b. b.elements.span.count) base.now) count }
{
    match base {
        Some(base) => base.len(),
        None => count,
    }
}

/// From how many elements some deviate, or `count` if none do.
fn sparse_count<T: Component, const N: usize>(sparse: &Option<Sparse<'_, T, N>>, count: u64) -> u64
    ensures { result ≡ unwrap_or (option_map (λ s. s.count) sparse.now) count }
{
    match sparse {
        Some(sparse) => sparse.count,
        None => count,
    }
}

/// An element of zeros.
#[inline(always)]
fn zeros<T: Component, const N: usize>() -> [T; N]
    ensures len { length result ≡ N }
    ensures each { (k : ℕ) → k < N → slice_get result k ≡ Some T.zero }
{
    [T::zero(); N]
}
