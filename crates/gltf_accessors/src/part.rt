//! The parts of an accessor: elements of its view, and indices and values of those that deviate.

ghost use Rattle.std.specs.Prelude.{◌≡◌, IfOk, IfErr};
ghost use Rattle.gltf_buffers.specs.Buffered.{bytes_at};
ghost use Rattle.gltf_accessors.specs.Indices.{IsIndexType};
ghost use Rattle.gltf_accessors.specs.Parts.{IsPart, IsComponentsFault, IsIndicesFault};

use crate::fault::PartFault;
use crate::{Component, Components, Elements, Indices};
use gltf_base::accessor::ComponentType;
use gltf_buffers::Buffers;
use gltf_layout::Location;

/// The elements of N components at a place.
pub fn components_at<'a, T: Component, const N: usize>(
    location: &Location,
    buffers: &'a Buffers<'_>,
) -> Result<Components<'a, T, N>, PartFault>
    ensures part { IfOk result (λ c. IsPart (bytes_at buffers.now) location.now
        c.elements.bytes.now c.elements.span) }
    ensures fault { IfErr result (IsComponentsFault T.may_be T.SIZE N (bytes_at buffers.now)
        location.now) }
{
    let buffer = location.buffer;
    let bytes = match buffers.bytes(buffer as usize) {
        Some(bytes) => bytes,
        None => return Err(PartFault::NoSuchBuffer { buffer }),
    };
    let elements = match Elements::of(bytes, &location.span) {
        Ok(elements) => elements,
        Err(fault) => return Err(PartFault::Elements(fault)),
    };
    match Components::of(elements) {
        Ok(components) => Ok(components),
        Err(fault) => Err(PartFault::Components(fault)),
    }
}

/// The indices at a place.
pub fn indices_at<'a>(
    location: &Location,
    index_type: ComponentType,
    buffers: &'a Buffers<'_>,
) -> Result<Indices<'a>, PartFault>
    ensures part { IfOk result (λ x. IsPart (bytes_at buffers.now) location.now
        x.elements.bytes.now x.elements.span) }
    ensures kind { IfOk result (λ x. IsIndexType index_type x.kind) }
    ensures fault { IfErr result (IsIndicesFault index_type (bytes_at buffers.now)
        location.now) }
{
    let buffer = location.buffer;
    let bytes = match buffers.bytes(buffer as usize) {
        Some(bytes) => bytes,
        None => return Err(PartFault::NoSuchBuffer { buffer }),
    };
    let elements = match Elements::of(bytes, &location.span) {
        Ok(elements) => elements,
        Err(fault) => return Err(PartFault::Elements(fault)),
    };
    match Indices::of(elements, index_type) {
        Ok(indices) => Ok(indices),
        Err(fault) => Err(PartFault::Indices(fault)),
    }
}
