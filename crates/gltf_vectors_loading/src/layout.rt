//! Layouts and faults that are worked by hand.

ghost use Rattle.std.specs.Prelude.{ℕ};
ghost use Rattle.gltf_layout.specs.Stored.{Stored};

use gltf_base::accessor::{AccessorType, ComponentType};
use gltf_layout::{
    AccessorFault, Layout, LayoutError, LayoutFaults, Location, Misfit, Place, PlaceFault, Span,
    SparseFault, SparsePart, SparsePlace, Storage, StorageFault, StoredAccessor, StoredSparse,
    StoredView, ViewFault, ViewLayout,
};
use gltf_vectors::holds;
use std::alloc::Global;
use std::test::Fail;

/// Buffers, views and accessors.
#[derive(Clone, Copy)]
struct Lists<'a> {
    buffers: &'a [u64],
    views: &'a [StoredView],
    accessors: &'a [StoredAccessor],
}

impl Storage for Lists<'_> {
    ghost stored = { λ s. record {
      buffers = s.buffers.now;
      views = s.views.now;
      accessors = s.accessors.now;
    } };

    fn buffer_length(&self, number: u32) -> Option<u64> {
        self.buffers.get(number as usize).copied()
    }

    fn view_count(&self) -> usize {
        self.views.len()
    }

    fn view(&self, number: usize) -> Option<StoredView> {
        self.views.get(number).copied()
    }

    fn accessor_count(&self) -> usize {
        self.accessors.len()
    }

    fn accessor(&self, number: usize) -> StoredAccessor {
        self.accessors[number]
    }
}

const BUFFERS: [u64; 2] = [100, u64::MAX];

/// The document of these views and accessors.
fn document<'a>(views: &'a [StoredView], accessors: &'a [StoredAccessor]) -> Lists<'a> {
    Lists {
        buffers: &BUFFERS,
        views,
        accessors,
    }
}

/// The views of most tests.
fn views() -> [StoredView; 5] {
    [
        view(0, 4, 60, Some(16)),
        view(0, 64, 4, None),
        view(0, 72, 24, None),
        view(1, 0, u64::MAX, Some(4294967295)),
        view(1, 0, u64::MAX, None),
    ]
}

/// So many bytes of a buffer.
fn view(buffer: u32, byte_offset: u64, byte_length: u64, byte_stride: Option<u64>) -> StoredView {
    StoredView {
        buffer,
        layout: ViewLayout {
            byte_offset,
            byte_length,
            byte_stride,
        },
    }
}

/// Vectors of three floats in a view.
fn vectors(view: u32, byte_offset: u64, count: u64) -> StoredAccessor {
    StoredAccessor {
        view: Some(view),
        byte_offset,
        component_type: Some(ComponentType::F32),
        type_: Some(AccessorType::Vec3),
        count,
        sparse: None,
    }
}

/// Zeros, of which two deviate.
fn deviating(sparse: StoredSparse) -> StoredAccessor {
    StoredAccessor {
        view: None,
        sparse: Some(sparse),
        ..vectors(0, 0, 5)
    }
}

/// Two indices of 16 bits, and two vectors.
const TWO: StoredSparse = StoredSparse {
    count: 2,
    indices: SparsePart {
        view: 1,
        byte_offset: 0,
    },
    index_type: Some(ComponentType::U16),
    values: SparsePart {
        view: 2,
        byte_offset: 0,
    },
};

/// Where elements lie.
fn located(buffer: u32, start: u64, stride: u64, size: u64, count: u64) -> Location {
    Location {
        buffer,
        span: Span {
            start,
            stride,
            size,
            count,
        },
    }
}

/// Where vectors of three floats lie.
fn place(count: u64, elements: Option<Location>, sparse: Option<SparsePlace>) -> Place {
    Place {
        component_type: ComponentType::F32,
        type_: AccessorType::Vec3,
        count,
        elements,
        sparse,
    }
}

/// Where the two indices and vectors lie.
fn two_located() -> SparsePlace {
    SparsePlace {
        count: 2,
        index_type: ComponentType::U16,
        indices: located(0, 64, 2, 2, 2),
        values: located(0, 72, 12, 12, 2),
    }
}

/// Whether the places are those of three vectors, and of five zeros of which two deviate.
fn are_both_places(layout: &Layout) -> bool {
    let vectors = place(3, Some(located(0, 8, 16, 12, 3)), None);
    let zeros = place(5, None, Some(two_located()));
    layout.place(0) == Some(&vectors)
        && layout.place(1) == Some(&zeros)
        && layout.place(2).is_none()
}

/// Whether a document whose accessors are vectors and zeros has a layout of their places.
fn are_places_found(alloc: Global) -> bool {
    let views = views();
    let accessors = [vectors(0, 4, 3), deviating(TWO)];
    match Layout::of(alloc, &document(&views, &accessors)) {
        Ok(layout) => are_both_places(&layout),
        Err(_) => false,
    }
}

#[test]
fn a_layout_has_each_place(rt: HostRuntime) -> Result<(), Fail> {
    holds(are_places_found(rt.alloc()), "both places")
}

/// A fault of deviating elements.
fn sparse(fault: SparseFault) -> AccessorFault {
    AccessorFault::Sparse(fault)
}

/// Whether a fault is the next one.
fn is_next<S: Storage>(faults: &mut LayoutFaults<S>, fault: StorageFault) -> bool {
    faults.next_fault() == Some(fault)
}

/// Whether an accessor has this fault, and no other.
fn is_only_fault(accessor: StoredAccessor, fault: AccessorFault) -> bool {
    let views = views();
    let accessors = [accessor];
    let mut faults = LayoutFaults::of(document(&views, &accessors));
    is_next(&mut faults, StorageFault::Accessor { accessor: 0, fault })
        && faults.next_fault().is_none()
}

/// Elements that end behind their view.
const TOO_LONG: PlaceFault = PlaceFault::Misfit(Misfit::AccessorTooLong);

/// Whether so many vectors end behind their view.
fn are_too_long(view: u32, byte_offset: u64, count: u64) -> bool {
    is_only_fault(
        vectors(view, byte_offset, count),
        AccessorFault::Elements(TOO_LONG),
    )
}

/// Whether vectors have faults if a view or its element 0 is no place for them.
fn are_places_checked() -> bool {
    let unaligned = PlaceFault::Misfit(Misfit::OffsetUnaligned);
    let missing = PlaceFault::NoSuchView { view: 9 };
    is_only_fault(vectors(0, 2, 3), AccessorFault::Elements(unaligned))
        && is_only_fault(vectors(0, 0, 0), AccessorFault::NoElements)
        && is_only_fault(vectors(9, 0, 1), AccessorFault::Elements(missing))
}

/// Whether vectors are too long where the sum of their bytes would wrap, with a stride and without.
fn are_sums_checked() -> bool {
    are_too_long(3, 0, 4294967299)
        && are_too_long(3, u64::MAX, u64::MAX)
        && are_too_long(4, u64::MAX, 1)
        && are_too_long(4, 0, u64::MAX)
}

#[test]
fn each_accessor_has_its_fault() -> Result<(), Fail> {
    holds(are_places_checked(), "no place of vectors")?;
    holds(are_too_long(0, 4, 4), "a vector more")?;
    holds(are_sums_checked(), "sums that would wrap")
}

/// Whether deviating elements have this fault, and no other.
fn is_sparse_fault(stored: StoredSparse, fault: SparseFault) -> bool {
    is_only_fault(deviating(stored), sparse(fault))
}

/// Whether so many deviating elements have this fault.
fn is_fault_of_count(count: u64, fault: SparseFault) -> bool {
    is_sparse_fault(StoredSparse { count, ..TWO }, fault)
}

/// Whether deviating elements have a fault if their indices have a sign.
fn is_index_type_checked() -> bool {
    is_sparse_fault(
        StoredSparse {
            index_type: Some(ComponentType::I16),
            ..TWO
        },
        SparseFault::InvalidIndexType,
    )
}

/// Whether deviating elements have a fault if this is where their values are.
fn is_fault_of_values(view: u32, byte_offset: u64, fault: PlaceFault) -> bool {
    let values = SparsePart { view, byte_offset };
    is_sparse_fault(StoredSparse { values, ..TWO }, SparseFault::Values(fault))
}

#[test]
fn each_sparse_accessor_has_its_fault() -> Result<(), Fail> {
    holds(
        is_fault_of_count(6, SparseFault::TooMany)
            && is_fault_of_count(3, SparseFault::Indices(TOO_LONG)),
        "too many elements deviate",
    )?;
    holds(is_index_type_checked(), "indices with a sign")?;
    holds(
        is_fault_of_values(0, 0, PlaceFault::Strided)
            && is_fault_of_values(2, 4294967295, TOO_LONG),
        "no place of values",
    )
}

/// Views of which only the second one has no fault.
fn faulty_views() -> [StoredView; 4] {
    [
        view(0, 1, 100, None),
        view(1, u64::MAX, 0, None),
        view(2, 0, 0, None),
        view(1, 1, u64::MAX, None),
    ]
}

/// Accessors that each have a fault in these views.
fn faulty_accessors() -> [StoredAccessor; 3] {
    [vectors(1, 0, 1), deviating(TWO), vectors(2, 0, 1)]
}

/// Whether the next faults are those of the views.
fn are_views_next<S: Storage>(faults: &mut LayoutFaults<S>) -> bool {
    is_view_next(faults, 0, ViewFault::TooLong)
        && is_view_next(faults, 2, ViewFault::NoSuchBuffer { buffer: 2 })
        && is_view_next(faults, 3, ViewFault::TooLong)
}

/// Whether the next fault is this one of a view.
fn is_view_next<S: Storage>(faults: &mut LayoutFaults<S>, view: usize, fault: ViewFault) -> bool {
    is_next(faults, StorageFault::View { view, fault })
}

/// Whether the next faults are those of the accessors.
fn are_accessors_next<S: Storage>(faults: &mut LayoutFaults<S>) -> bool {
    let strange = PlaceFault::NoSuchBuffer { buffer: 2 };
    is_accessor_next(faults, 0, AccessorFault::Elements(TOO_LONG))
        && is_accessor_next(faults, 1, sparse(SparseFault::Indices(TOO_LONG)))
        && is_accessor_next(faults, 2, AccessorFault::Elements(strange))
}

/// Whether the next fault is this one of an accessor.
fn is_accessor_next<S: Storage>(
    faults: &mut LayoutFaults<S>,
    accessor: usize,
    fault: AccessorFault,
) -> bool {
    is_next(faults, StorageFault::Accessor { accessor, fault })
}

/// Whether the faults of views come before those of accessors, and each once.
fn are_in_order(document: Lists<'_>) -> bool {
    let mut faults = LayoutFaults::of(document);
    are_views_next(&mut faults)
        && are_accessors_next(&mut faults)
        && faults.next_fault().is_none()
        && faults.next_fault().is_none()
}

/// Whether the layout of a document fails with the fault of its first view.
fn is_first_view_reported<S: Storage>(alloc: Global, document: &S) -> bool {
    matches!(
        Layout::of(alloc, document),
        Err(LayoutError::Fault(StorageFault::View { view: 0, .. }))
    )
}

#[test]
fn faults_come_in_order(rt: HostRuntime) -> Result<(), Fail> {
    let (views, accessors) = (faulty_views(), faulty_accessors());
    let faulty = document(&views, &accessors);
    holds(are_in_order(faulty), "all faults")?;
    holds(
        is_first_view_reported(rt.alloc(), &faulty),
        "the first fault",
    )
}
