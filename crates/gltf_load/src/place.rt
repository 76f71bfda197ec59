//! Where the elements of an accessor lie.

ghost use Rattle.std.specs.Prelude.{◌≡◌, Some, None, Ok, IfOk, IfErr, IfSome, option_map};
ghost use Rattle.gltf_layout.specs.declared.span.Span.{Span};
ghost use Rattle.gltf_load.specs.Spans.{IsPlace, LieIn, IsLayoutFault, IsAccessorLayout, IsChoiceFault, HasValidChoices, offset_or_0, view_layout};
ghost use Rattle.gltf_layout.specs.declared.span.AccessorLayout.{AccessorLayout};
ghost use Rattle.gltf_layout.specs.Fits.{size_of};

use crate::fault::LayoutFault;
use gltf_base::validation::{Checked, USize64};
use gltf_layout::{AccessorLayout, Span, ViewLayout, element_size};
use gltf_parts::accessor::Accessor;
use gltf_parts::buffer::{Buffer, Stride, View};

/// Returns where the elements of an accessor lie in its buffer, `None` if it names no view. Fails
/// with the first fault, in the order of `LayoutFault`.
pub fn span_of(
    views: &[View],
    buffers: &[Buffer],
    accessor: &Accessor,
) -> Result<Option<Span>, LayoutFault>
    // The elements lie in the buffer.
    ensures place { IfOk result (IsPlace views.now buffers.now accessor.now) }
    // An accessor that names no view has no place.
    ensures zeros { accessor.now.buffer_view ≡ None → result ≡ Ok None }
    // Elements that lie in the buffer are found.
    ensures only { (s : Span) → LieIn views.now buffers.now accessor.now s
        → result ≡ Ok (Some s) }
    // What the fault says is true, and no earlier one is.
    ensures fault { IfErr result (IsLayoutFault views.now buffers.now accessor.now) }
{
    let index = match accessor.buffer_view {
        None => return Ok(None),
        Some(index) => index,
    };
    let layout = match accessor_layout(accessor) {
        Ok(layout) => layout,
        Err(fault) => return Err(fault),
    };
    let view = match views.get(index.value()) {
        Some(view) => view,
        None => return Err(LayoutFault::NoSuchView {
            view: index.number(),
        }),
    };
    let buffer = match buffers.get(view.buffer.value()) {
        Some(buffer) => buffer,
        None => return Err(LayoutFault::NoSuchBuffer {
            buffer: view.buffer.number(),
        }),
    };
    match Span::of(&layout, &view_layout(view), buffer.byte_length.0) {
        Ok(span) => Ok(Some(span)),
        Err(misfit) => Err(LayoutFault::Misfit(misfit)),
    }
}

/// Returns the size of an element of an accessor in bytes, with the padding of matrix columns (glTF
/// 2.0, section 3.6.2.4). `None` if its component type or its type is invalid.
pub fn element_size_of(accessor: &Accessor) -> Option<u64>
    ensures size { IfSome result (λ size. (l : AccessorLayout) × IsAccessorLayout accessor.now l
        × (size ≡ size_of l)) }
    ensures none { result ≡ None → HasValidChoices accessor.now → ⊥ }
{
    match accessor_layout(accessor) {
        Ok(layout) => Some(element_size(layout.type_, layout.component_type)),
        Err(_) => None,
    }
}

/// What an accessor says of its elements.
fn accessor_layout(accessor: &Accessor) -> Result<AccessorLayout, LayoutFault>
    ensures layout { IfOk result (IsAccessorLayout accessor.now) }
    ensures fault { IfErr result (IsChoiceFault accessor.now) }
{
    let component_type = match accessor.component_type {
        Checked::Valid(component_type) => component_type.0,
        Checked::Invalid => return Err(LayoutFault::InvalidComponentType),
    };
    let type_ = match accessor.type_ {
        Checked::Valid(type_) => type_,
        Checked::Invalid => return Err(LayoutFault::InvalidType),
    };
    Ok(AccessorLayout {
        byte_offset: offset_or_0(accessor.byte_offset),
        component_type,
        type_,
        count: accessor.count.0,
    })
}

/// What a view says of bytes.
pub fn view_layout(view: &View) -> ViewLayout
    ensures { result ≡ view_layout view.now }
{
    ViewLayout {
        byte_offset: offset_or_0(view.byte_offset),
        byte_length: view.byte_length.0,
        byte_stride: stride(view.byte_stride),
    }
}

/// The number that an offset is.
pub fn offset_or_0(offset: Option<USize64>) -> u64
    ensures { result ≡ offset_or_0 offset }
{
    offset.map_or(0, |offset| offset.0)
}

/// The number that a stride is.
fn stride(stride: Option<Stride>) -> Option<u64>
    ensures { result ≡ option_map (λ s. s.0) stride }
{
    stride.map(|stride| stride.0 as u64)
}
