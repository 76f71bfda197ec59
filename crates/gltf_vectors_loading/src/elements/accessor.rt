//! Accessors and faults that are worked by hand.

use super::{components, indices, span};
use gltf_accessors::{Accessor, AccessorFault, Components, Sparse, SparseFault};
use gltf_base::accessor::ComponentType;
use gltf_vectors::holds;
use std::test::Fail;

/// The first ones of some bytes, each of which is an element.
fn numbers(bytes: &[u8], count: u64) -> Option<Components<'_, u8, 1>> {
    match components(bytes, span(0, 1, 1, count)) {
        Some(Ok(found)) => Some(found),
        _ => None,
    }
}

/// Two indices of 16 bits, and two values, of five elements. If they are not, why.
fn deviating(bytes: &[u8; 6]) -> Option<Result<Sparse<'_, u8, 1>, SparseFault>> {
    let Some(Ok(places)) = indices(bytes, span(0, 2, 2, 2), ComponentType::U16) else {
        return None;
    };
    match components(bytes, span(4, 1, 1, 2)) {
        Some(Ok(values)) => Some(Sparse::of(places, values, 5)),
        _ => None,
    }
}

/// The bytes of indices 1 and 4, and of values 90 and 91.
const TWO: [u8; 6] = [1, 0, 4, 0, 90, 91];

/// The bytes of a view.
const BASE: [u8; 5] = [10, 11, 12, 13, 14];

/// An accessor of which two elements deviate from those of a view or zeros. If there is none, why.
fn replaced<'a>(
    count: u64,
    base: Option<Components<'a, u8, 1>>,
) -> Option<Result<Accessor<'a, u8, 1>, AccessorFault>> {
    match deviating(&TWO) {
        Some(Ok(sparse)) => Some(Accessor::of(count, base, Some(sparse))),
        _ => None,
    }
}

/// Whether an accessor has these elements.
fn are_elements(accessor: &Accessor<'_, u8, 1>, expected: [u8; 5]) -> bool {
    for index in 0..accessor.len() {
        let [number] = accessor.get(index);
        if expected.get(index as usize) != Some(&number) {
            return false;
        }
    }
    accessor.len() == 5
}

/// Whether the elements are these if two deviate.
fn are_replaced(base: Option<Components<'_, u8, 1>>, expected: [u8; 5]) -> bool {
    match replaced(5, base) {
        Some(Ok(accessor)) => are_elements(&accessor, expected),
        _ => false,
    }
}

#[test]
fn sparse_elements_replace_those_of_the_base() -> Result<(), Fail> {
    holds(
        are_replaced(numbers(&BASE, 5), [10, 90, 12, 13, 91]),
        "those of a view",
    )?;
    holds(are_replaced(None, [0, 90, 0, 0, 91]), "zeros")
}

/// Whether a view of four elements is refused for five.
fn is_short_view_refused() -> bool {
    match numbers(&BASE, 4) {
        Some(short) => matches!(
            Accessor::of(5, Some(short), None),
            Err(AccessorFault::Count)
        ),
        None => false,
    }
}

/// Whether six elements are refused of which two of five deviate.
fn is_sparse_count_checked() -> bool {
    matches!(replaced(6, None), Some(Err(AccessorFault::SparseCount)))
}

#[test]
fn counts_are_those_of_the_accessor() -> Result<(), Fail> {
    holds(is_short_view_refused(), "a short view")?;
    holds(is_sparse_count_checked(), "deviating elements of fewer")
}

/// Whether this is wrong with deviating elements.
fn is_fault(bytes: [u8; 6], expected: SparseFault) -> bool {
    match deviating(&bytes) {
        Some(Err(fault)) => fault == expected,
        _ => false,
    }
}

/// Whether two indices and three values are refused.
fn are_counts_compared() -> bool {
    let bytes = [0, 1, 2];
    let Some(Ok(places)) = indices(&bytes, span(0, 1, 1, 2), ComponentType::U8) else {
        return false;
    };
    match numbers(&bytes, 3) {
        Some(values) => matches!(Sparse::of(places, values, 5), Err(SparseFault::Count)),
        None => false,
    }
}

/// Whether the first index is refused, which is followed by none above it.
fn is_not_rising(bytes: [u8; 6]) -> bool {
    is_fault(bytes, SparseFault::NotRising { place: 0, index: 1 })
}

/// Whether an index at a place is refused as one behind the end.
fn is_behind_end(bytes: [u8; 6], place: u64) -> bool {
    is_fault(bytes, SparseFault::BehindEnd { place, index: 5 })
}

#[test]
fn sparse_indices_rise_below_the_count() -> Result<(), Fail> {
    holds(
        is_not_rising([1, 0, 1, 0, 9, 9]) && is_not_rising([0, 1, 1, 0, 9, 9]),
        "indices that don't rise",
    )?;
    holds(
        is_behind_end([1, 0, 5, 0, 9, 9], 1) && is_behind_end([5, 0, 6, 0, 9, 9], 0),
        "indices behind the end",
    )?;
    holds(are_counts_compared(), "more values than indices")
}
