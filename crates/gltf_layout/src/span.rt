//! Where the elements of an accessor lie.

ghost use Rattle.std.specs.Prelude.{◌≡◌, ◌+◌, ◌*◌, ◌≤◌, ◌↔◌, IsTrue, Ok, IfOk, IfErr};
ghost use Rattle.gltf_layout.specs.Fits.{Fits, span_of, IsFirstMisfit};

use crate::misfit::Misfit;
use crate::size::element_size;
use crate::view::ViewLayout;
use gltf_base::accessor::{AccessorType, ComponentType};

/// The layout of an accessor's elements (glTF 2.0, section 5.1). The indices and the values of a
/// sparse accessor (sections 5.3 and 5.4) are described in the same way.
#[derive(Clone, Copy, Debug, PartialEq, Eq)]
pub struct AccessorLayout {
    /// Where element 0 begins in the view, in bytes: `byteOffset`, or 0.
    pub byte_offset: u64,
    /// The data type of the components.
    pub component_type: ComponentType,
    /// Whether elements are scalars, vectors or matrices.
    pub type_: AccessorType,
    /// The number of elements.
    pub count: u64,
}

/// Where the elements of an accessor lie in its buffer.
#[derive(Clone, Copy, Debug, PartialEq, Eq)]
pub struct Span {
    /// Where element 0 begins in the buffer, in bytes.
    pub start: u64,
    /// The stride between elements, in bytes.
    pub stride: u64,
    /// The size of an element, in bytes.
    pub size: u64,
    /// The number of elements.
    pub count: u64,
}

impl Span {
    /// Returns where the elements of an accessor lie in a buffer of so many bytes. Fails with the
    /// first misfit, in the order of `Misfit`. No number can wrap.
    pub fn of(
        accessor: &AccessorLayout,
        view: &ViewLayout,
        buffer_length: u64,
    ) -> Result<Span, Misfit>
        // What is found fits.
        ensures fits { IfOk result (λ _. Fits accessor.now view.now buffer_length) }
        // Where the elements lie.
        ensures span { IfOk result (λ span. span ≡ span_of accessor.now view.now) }
        // An accessor that fits is found.
        ensures only { Fits accessor.now view.now buffer_length
            → result ≡ Ok (span_of accessor.now view.now) }
        // Which misfit it is.
        ensures misfit { IfErr result (IsFirstMisfit accessor.now view.now buffer_length) }
    {
        let size = element_size(accessor.type_, accessor.component_type);
        let stride = view.byte_stride.unwrap_or(size);
        if !view.fits(buffer_length) {
            return Err(Misfit::ViewTooLong);
        }
        if stride < size {
            return Err(Misfit::StrideTooSmall);
        }
        if accessor.count == 0 {
            return Err(Misfit::NoElements);
        }
        if !ends_within(
            accessor.byte_offset,
            stride,
            accessor.count - 1,
            size,
            view.byte_length,
        ) {
            return Err(Misfit::AccessorTooLong);
        }
        let start = view.byte_offset + accessor.byte_offset;
        let component = accessor.component_type.size() as u64;
        if accessor.byte_offset % component != 0 {
            return Err(Misfit::OffsetUnaligned);
        }
        if start % component != 0 {
            return Err(Misfit::StartUnaligned);
        }
        if stride % component != 0 {
            return Err(Misfit::StrideUnaligned);
        }
        Ok(Span {
            start,
            stride,
            size,
            count: accessor.count,
        })
    }
}

/// Whether element `last` ends within a view of so many bytes.
fn ends_within(offset: u64, stride: u64, last: u64, size: u64, length: u64) -> bool
    ensures { IsTrue result ↔ (offset + stride * last + size ≤ length) }
{
    match stride.checked_mul(last) {
        None => false,
        Some(skipped) => match skipped.checked_add(offset) {
            None => false,
            Some(start) => start <= length && size <= length - start,
        },
    }
}
