//! The bytes of elements.

ghost use Rattle.std.specs.Prelude.{◌≡◌, ◌+◌, ◌*◌, ◌<◌, ◌≤◌, ◌↔◌, length, IsTrue, IfOk, IsOk};
ghost use Rattle.gltf_accessors.specs.Elements.{AreWithin, element_at};

use crate::fault::ElementsFault;
use gltf_layout::Span;

/// The elements of an accessor in the bytes of its buffer.
#[derive(Clone, Copy, Debug)]
pub struct Elements<'a> {
    pub(crate) bytes: &'a [u8],
    pub(crate) span: Span,
    pub(crate) ghost within: { AreWithin (length bytes.now) span },
}

impl<'a> Elements<'a> {
    /// Returns the elements that lie at a place in the bytes of a buffer. Fails if one ends behind
    /// the bytes. No number can wrap.
    pub fn of(bytes: &'a [u8], span: &Span) -> Result<Elements<'a>, ElementsFault>
        ensures elements { IfOk result (λ e. (e.bytes.now ≡ bytes.now) × (e.span ≡ span.now)) }
        // Elements that lie in the bytes are returned, and no others.
        ensures only { IsOk result ↔ AreWithin (length bytes.now) span.now }
    {
        if !lie_within(span, bytes.len() as u64) {
            return Err(ElementsFault::BehindBuffer);
        }
        Ok(Elements { bytes, span: *span })
    }

    /// How many elements there are.
    #[inline(always)]
    pub fn len(&self) -> u64
        ensures { result ≡ self.now.span.count }
    {
        self.span.count
    }

    /// How many bytes an element has.
    #[inline(always)]
    pub fn size(&self) -> u64
        ensures { result ≡ self.now.span.size }
    {
        self.span.size
    }

    /// Where an element begins.
    #[inline(always)]
    pub(crate) fn start(&self, index: u64) -> usize
        requires { index < self.now.span.count }
        ensures start { result ≡ self.now.span.start + index * self.now.span.stride }
        ensures within { result + self.now.span.size ≤ length self.now.bytes.now }
    {
        (self.span.start + index * self.span.stride) as usize
    }

    /// The bytes of an element.
    #[inline(always)]
    pub fn get(&self, index: u64) -> &'a [u8]
        requires { index < self.now.span.count }
        ensures { result.now ≡ element_at self.now.bytes.now self.now.span index }
    {
        let start = self.start(index);
        let bytes = self.bytes;
        &bytes[start..start + self.span.size as usize]
    }
}

/// Whether each element of a span ends within so many bytes.
fn lie_within(span: &Span, length: u64) -> bool
    ensures { IsTrue result ↔ AreWithin length span.now }
{
    if span.count == 0 {
        return true;
    }
    ends_within(span, span.count - 1, length)
}

/// Whether an element ends within so many bytes.
fn ends_within(span: &Span, index: u64, length: u64) -> bool
    ensures { IsTrue result
        ↔ (span.now.start + span.now.stride * index + span.now.size ≤ length) }
{
    match span.stride.checked_mul(index) {
        None => false,
        Some(skipped) => match skipped.checked_add(span.start) {
            None => false,
            Some(start) => start <= length && span.size <= length - start,
        },
    }
}
