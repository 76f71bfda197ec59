//! The components of elements as numbers.

ghost use Rattle.std.specs.Prelude.{◌≡◌, ◌*◌, ◌<◌, ◌≤◌, ◌+◌, ℕ, true, false, length, take, drop, IfOk, IfErr, IsOk, MatchOption};
ghost use Rattle.gltf_accessors.specs.Components.{component_at, AreComponents, MayBe, IsComponentsFault};

use crate::component::Component;
use crate::elements::Elements;
use crate::fault::ComponentsFault;
use std::marker::PhantomData;

/// Elements of N components of a type, each of which may be present. The components of an element
/// follow each other with nothing between. A matrix whose columns are padded (section 3.6.2.4) has
/// another size, and is not read by this crate.
#[derive(Debug, Drop)]
pub struct Components<'a, T: Component, const N: usize> {
    pub(crate) elements: Elements<'a>,
    pub(crate) of: PhantomData<T>,
    pub(crate) ghost size: { elements.span.size ≡ N * T.SIZE },
    pub(crate) ghost may_be: { MayBe T.may_be T.SIZE N elements.bytes.now elements.span },
}

/// Elements of N floats, none of which is NaN or infinite.
pub type Floats<'a, const N: usize> = Components<'a, f32, N>;

/// Elements of N integers.
pub type Integers<'a, T, const N: usize> = Components<'a, T, N>;

impl<'a, T: Component, const N: usize> Components<'a, T, N> {
    /// Returns elements as those of N components. Fails if an element has another size, or with the
    /// first component that may not be present: a float that is NaN or infinite.
    pub fn of(elements: Elements<'a>) -> Result<Components<'a, T, N>, ComponentsFault>
        ensures elements { IfOk result (λ c. c.elements ≡ elements.entry) }
        // What the fault says is so.
        ensures fault { IfErr result (IsComponentsFault T.may_be T.SIZE N
            elements.entry.bytes.now elements.entry.span) }
        // Elements of this size whose components may all be present are returned.
        ensures only { elements.entry.span.size ≡ N * T.SIZE
            → MayBe T.may_be T.SIZE N elements.entry.bytes.now elements.entry.span
            → IsOk result }
    {
        match N.checked_mul(T::SIZE) {
            Some(size) if size as u64 == elements.size() => {}
            _ => return Err(ComponentsFault::Size),
        }
        for element in 0..elements.len() {
            if let Some(component) = first_invalid::<T, N>(&elements, element) {
                return Err(ComponentsFault::NotFinite { element, component });
            }
        }
        Ok(Components {
            elements,
            of: PhantomData,
        })
    }

    /// How many elements there are.
    #[inline(always)]
    pub fn len(&self) -> u64
        ensures { result ≡ self.now.elements.span.count }
    {
        self.elements.len()
    }

    /// The components of an element.
    #[inline(always)]
    pub fn get(&self, index: u64) -> [T; N]
        requires { index < self.now.elements.span.count }
        ensures { AreComponents T.number_of T.SIZE N self.now.elements.bytes.now
            self.now.elements.span index result }
    {
        let mut numbers = [T::zero(); N];
        let start = self.elements.start(index);
        for k in 0..N {
            numbers[k] = T::read(self.elements.bytes, start + k * T::SIZE);
        }
        numbers
    }
}

/// The first component of an element that may not be present.
#[inline(always)]
fn first_invalid<T: Component, const N: usize>(elements: &Elements<'_>, index: u64) -> Option<usize>
    requires index { index < elements.now.span.count }
    requires size { elements.now.span.size ≡ N * T.SIZE }
    ensures { MatchOption result
        ((k : ℕ) → k < N
        → T.may_be (component_at T.SIZE elements.now.bytes.now elements.now.span index k) ≡ true)
        (λ k. (k < N)
        × (T.may_be (component_at T.SIZE elements.now.bytes.now elements.now.span index k) ≡ false)
        × ((m : ℕ) → m < k → T.may_be (component_at T.SIZE elements.now.bytes.now
        elements.now.span index m) ≡ true)) }
{
    let start = elements.start(index);
    for k in 0..N {
        if !T::may_be_at(elements.bytes, start + k * T::SIZE) {
            return Some(k);
        }
    }
    None
}
