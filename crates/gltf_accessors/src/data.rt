//! The data of an accessor.

ghost use Rattle.std.specs.Prelude.{◌≡◌, IfOk, IfErr};
ghost use Rattle.gltf_buffers.specs.Buffered.{bytes_at};
ghost use Rattle.gltf_accessors.specs.Data.{format_of, IsBase, IsBaseFault, IsSparseAt, IsSparseAtFault, IsSparseOf, IsSparseOfFault, IsAccessorAt, IsDataFault};

use crate::fault::{AccessorDataFault, DeviatingFault, PartFault};
use crate::format::Format;
use crate::part::{components_at, indices_at};
use crate::{Accessor, Component, Components, Sparse};
use gltf_buffers::Buffers;
use gltf_layout::{Location, Place, SparsePlace};

/// An accessor, and the buffers in which its elements lie (glTF 2.0, section 5.1).
#[derive(Clone, Copy, Debug)]
pub struct AccessorData<'a> {
    /// What its elements are, and where they lie.
    pub place: &'a Place,
    /// Whether integers are normalized.
    pub normalized: bool,
    /// The bytes of each buffer.
    pub buffers: &'a Buffers<'a>,
}

impl<'a> AccessorData<'a> {
    /// Returns what its elements are.
    pub fn format(&self) -> Format
        ensures { result ≡ format_of self.now.place.now self.now.normalized }
    {
        Format {
            type_: self.place.type_,
            component_type: self.place.component_type,
            normalized: self.normalized,
        }
    }
}

/// The elements of an accessor, as those of N components.
pub fn accessor_at<'a, T: Component, const N: usize>(
    stored: &AccessorData<'a>,
) -> Result<Accessor<'a, T, N>, AccessorDataFault>
    ensures accessor { IfOk result (IsAccessorAt (bytes_at stored.now.buffers.now)
        stored.now.place.now) }
    ensures fault { IfErr result (IsDataFault T.may_be T.SIZE N (bytes_at stored.now.buffers.now)
        stored.now.place.now) }
{
    let place = stored.place;
    let base = match base_at(&place.elements, stored.buffers) {
        Ok(base) => base,
        Err(fault) => return Err(AccessorDataFault::Elements(fault)),
    };
    let sparse = match sparse_at(&place.sparse, place.count, stored.buffers) {
        Ok(sparse) => sparse,
        Err(fault) => return Err(AccessorDataFault::Deviating(fault)),
    };
    match Accessor::of(place.count, base, sparse) {
        Ok(accessor) => Ok(accessor),
        Err(_) => Err(AccessorDataFault::Count),
    }
}

/// The elements of a view, if there is one.
fn base_at<'a, T: Component, const N: usize>(
    elements: &Option<Location>,
    buffers: &'a Buffers<'_>,
) -> Result<Option<Components<'a, T, N>>, PartFault>
    ensures base { IfOk result (IsBase (bytes_at buffers.now) elements.now) }
    ensures fault { IfErr result (IsBaseFault T.may_be T.SIZE N (bytes_at buffers.now)
        elements.now) }
{
    match elements {
        None => Ok(None),
        Some(location) => match components_at(location, buffers) {
            Ok(components) => Ok(Some(components)),
            Err(fault) => Err(fault),
        },
    }
}

/// The elements that deviate, if there are any.
fn sparse_at<'a, T: Component, const N: usize>(
    sparse: &Option<SparsePlace>,
    count: u64,
    buffers: &'a Buffers<'_>,
) -> Result<Option<Sparse<'a, T, N>>, DeviatingFault>
    ensures sparse { IfOk result (IsSparseOf (bytes_at buffers.now) sparse.now count) }
    ensures fault { IfErr result (IsSparseOfFault T.may_be T.SIZE N (bytes_at buffers.now)
        sparse.now count) }
{
    match sparse {
        None => Ok(None),
        Some(place) => match deviating_at(place, count, buffers) {
            Ok(sparse) => Ok(Some(sparse)),
            Err(fault) => Err(fault),
        },
    }
}

/// The elements that deviate from so many.
fn deviating_at<'a, T: Component, const N: usize>(
    place: &SparsePlace,
    count: u64,
    buffers: &'a Buffers<'_>,
) -> Result<Sparse<'a, T, N>, DeviatingFault>
    ensures sparse { IfOk result (IsSparseAt (bytes_at buffers.now) place.now count) }
    ensures fault { IfErr result (IsSparseAtFault T.may_be T.SIZE N (bytes_at buffers.now)
        place.now count) }
{
    let indices = match indices_at(&place.indices, place.index_type, buffers) {
        Ok(indices) => indices,
        Err(fault) => return Err(DeviatingFault::Indices(fault)),
    };
    let values = match components_at(&place.values, buffers) {
        Ok(values) => values,
        Err(fault) => return Err(DeviatingFault::Values(fault)),
    };
    match Sparse::of(indices, values, count) {
        Ok(sparse) => Ok(sparse),
        Err(fault) => Err(DeviatingFault::Sparse(fault)),
    }
}
