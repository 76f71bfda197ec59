//! Where the elements of an accessor of a document lie.

ghost use Rattle.std.specs.Prelude.{◌≡◌, ◌↔◌, IsTrue, IsSome, IfOk, IfErr};
ghost use Rattle.gltf_layout.specs.Places.{LieIn, LieTightly, LieInNamed, IsStrided, IsSparsePlace, IsPlaceOfSparse, IsPlace, index_layout, value_layout};
ghost use Rattle.gltf_layout.specs.Faults.{IsPlaceFault, IsTightFault, IsNamedFault, IsSparseFault, IsFaultOfSparse, IsAccessorFault};

use crate::fault::{AccessorFault, PlaceFault, SparseFault};
use crate::span::{AccessorLayout, Span};
use crate::storage::{Storage, StoredAccessor, StoredSparse};
use gltf_base::accessor::{AccessorType, ComponentType};

/// Where elements lie.
#[derive(Clone, Copy, Debug, PartialEq, Eq)]
pub struct Location {
    /// The number of the buffer.
    pub buffer: u32,
    /// Where in the buffer.
    pub span: Span,
}

/// Where the deviating elements of a sparse accessor lie (glTF 2.0, section 5.2).
#[derive(Clone, Copy, Debug, PartialEq, Eq)]
pub struct SparsePlace {
    /// How many elements deviate: as many indices there are, and values.
    pub count: u64,
    /// What an index is: an unsigned integer.
    pub index_type: ComponentType,
    /// Where the indices of these elements lie. Each of them is a number.
    pub indices: Location,
    /// Where the elements themselves lie.
    pub values: Location,
}

/// Where the elements of an accessor lie (glTF 2.0, section 5.1).
#[derive(Clone, Copy, Debug, PartialEq, Eq)]
pub struct Place {
    /// What the components of an element are.
    pub component_type: ComponentType,
    /// How many components an element has: a number, a vector or a matrix.
    pub type_: AccessorType,
    /// How many elements there are.
    pub count: u64,
    /// Where they lie. `None` if they are zeros.
    pub elements: Option<Location>,
    /// Where the elements lie that deviate from these.
    pub sparse: Option<SparsePlace>,
}

impl Place {
    /// Returns whether the accessor has a view. Without one its elements are zeros, but for those
    /// that deviate, and nothing bounds how many there are (section 5.1.1).
    pub fn is_stored(&self) -> bool
        ensures { IsTrue result ↔ IsSome self.now.elements }
    {
        self.elements.is_some()
    }
}

/// Where the elements of an accessor lie. Fails with what is wrong first.
pub fn place_of<D: Storage>(document: &D, accessor: &StoredAccessor) -> Result<Place, AccessorFault>
    ensures place { IfOk result (IsPlace (D.stored document.now) accessor.now) }
    ensures fault { IfErr result (IsAccessorFault (D.stored document.now) accessor.now) }
{
    let component_type = match accessor.component_type {
        Some(component_type) => component_type,
        None => return Err(AccessorFault::InvalidComponentType),
    };
    let type_ = match accessor.type_ {
        Some(type_) => type_,
        None => return Err(AccessorFault::InvalidType),
    };
    if accessor.count == 0 {
        return Err(AccessorFault::NoElements);
    }
    let layout = AccessorLayout {
        byte_offset: accessor.byte_offset,
        component_type,
        type_,
        count: accessor.count,
    };
    let elements = match named(document, accessor.view, &layout) {
        Ok(elements) => elements,
        Err(fault) => return Err(AccessorFault::Elements(fault)),
    };
    let sparse = match sparse_or_none(document, &accessor.sparse, &layout) {
        Ok(sparse) => sparse,
        Err(fault) => return Err(AccessorFault::Sparse(fault)),
    };
    Ok(Place {
        component_type,
        type_,
        count: accessor.count,
        elements,
        sparse,
    })
}

/// Where elements lie in a view, if there is one.
fn named<D: Storage>(
    document: &D,
    view: Option<u32>,
    layout: &AccessorLayout,
) -> Result<Option<Location>, PlaceFault>
    ensures place { IfOk result (LieInNamed (D.stored document.now) view layout.now) }
    ensures fault { IfErr result (IsNamedFault (D.stored document.now) view layout.now) }
{
    match view {
        None => Ok(None),
        Some(view) => match located(document, view, layout) {
            Ok(location) => Ok(Some(location)),
            Err(fault) => Err(fault),
        },
    }
}

/// Where deviating elements lie, if there are any.
fn sparse_or_none<D: Storage>(
    document: &D,
    sparse: &Option<StoredSparse>,
    layout: &AccessorLayout,
) -> Result<Option<SparsePlace>, SparseFault>
    ensures place { IfOk result (IsPlaceOfSparse (D.stored document.now) sparse.now layout.now) }
    ensures fault { IfErr result (IsFaultOfSparse (D.stored document.now) sparse.now layout.now) }
{
    match sparse {
        None => Ok(None),
        Some(sparse) => match sparse_place(document, sparse, layout) {
            Ok(place) => Ok(Some(place)),
            Err(fault) => Err(fault),
        },
    }
}

/// Where deviating elements lie.
fn sparse_place<D: Storage>(
    document: &D,
    sparse: &StoredSparse,
    layout: &AccessorLayout,
) -> Result<SparsePlace, SparseFault>
    ensures place { IfOk result (IsSparsePlace (D.stored document.now) sparse.now layout.now) }
    ensures fault { IfErr result (IsSparseFault (D.stored document.now) sparse.now layout.now) }
{
    if layout.count < sparse.count {
        return Err(SparseFault::TooMany);
    }
    let index_type = match sparse.index_type {
        Some(ComponentType::U8) => ComponentType::U8,
        Some(ComponentType::U16) => ComponentType::U16,
        Some(ComponentType::U32) => ComponentType::U32,
        _ => return Err(SparseFault::InvalidIndexType),
    };
    let indices = match tight(
        document,
        sparse.indices.view,
        &index_layout(sparse, index_type),
    ) {
        Ok(indices) => indices,
        Err(fault) => return Err(SparseFault::Indices(fault)),
    };
    let values = match tight(document, sparse.values.view, &value_layout(sparse, layout)) {
        Ok(values) => values,
        Err(fault) => return Err(SparseFault::Values(fault)),
    };
    Ok(SparsePlace {
        count: sparse.count,
        index_type,
        indices,
        values,
    })
}

/// What the indices of deviating elements are: numbers.
fn index_layout(sparse: &StoredSparse, index_type: ComponentType) -> AccessorLayout
    ensures { result ≡ index_layout sparse.now index_type }
{
    AccessorLayout {
        byte_offset: sparse.indices.byte_offset,
        component_type: index_type,
        type_: AccessorType::Scalar,
        count: sparse.count,
    }
}

/// What the deviating elements are: of the accessor's own type.
fn value_layout(sparse: &StoredSparse, layout: &AccessorLayout) -> AccessorLayout
    ensures { result ≡ value_layout sparse.now layout.now }
{
    AccessorLayout {
        byte_offset: sparse.values.byte_offset,
        count: sparse.count,
        ..*layout
    }
}

/// Where elements lie in a view without a stride.
fn tight<D: Storage>(
    document: &D,
    view: u32,
    layout: &AccessorLayout,
) -> Result<Location, PlaceFault>
    ensures place { IfOk result (LieTightly (D.stored document.now) view layout.now) }
    ensures fault { IfErr result (IsTightFault (D.stored document.now) view layout.now) }
{
    if is_strided(document, view) {
        return Err(PlaceFault::Strided);
    }
    located(document, view, layout)
}

/// Whether there is such a view and it has a stride.
fn is_strided<D: Storage>(document: &D, view: u32) -> bool
    ensures { IsTrue result ↔ IsStrided (D.stored document.now) view }
{
    match document.view(view as usize) {
        Some(view) => view.layout.byte_stride.is_some(),
        None => false,
    }
}

/// Where elements lie in a view.
fn located<D: Storage>(
    document: &D,
    view: u32,
    layout: &AccessorLayout,
) -> Result<Location, PlaceFault>
    ensures place { IfOk result (LieIn (D.stored document.now) view layout.now) }
    ensures fault { IfErr result (IsPlaceFault (D.stored document.now) view layout.now) }
{
    let entry = match document.view(view as usize) {
        Some(entry) => entry,
        None => return Err(PlaceFault::NoSuchView { view }),
    };
    let length = match document.buffer_length(entry.buffer) {
        Some(length) => length,
        None => return Err(PlaceFault::NoSuchBuffer {
            buffer: entry.buffer,
        }),
    };
    match Span::of(layout, &entry.layout, length) {
        Ok(span) => Ok(Location {
            buffer: entry.buffer,
            span,
        }),
        Err(misfit) => Err(PlaceFault::Misfit(misfit)),
    }
}
