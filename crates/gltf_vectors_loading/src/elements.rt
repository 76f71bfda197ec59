//! Elements, numbers and faults that are worked by hand.

ghost use Rattle.std.specs.Prelude.{◌≤◌};

mod accessor;

use gltf_accessors::{
    Component, Components, ComponentsFault, Elements, ElementsIter, IndexType, Indices,
    IndicesFault, Normalized, VertexFault, indices_are_vertices,
};
use gltf_base::accessor::ComponentType;
use gltf_layout::Span;
use gltf_vectors::holds;
use std::test::Fail;

/// A place in a buffer.
fn span(start: u64, stride: u64, size: u64, count: u64) -> Span {
    Span {
        start,
        stride,
        size,
        count,
    }
}

/// The elements of a place as those of N components, or why they are not.
fn components<T: Component, const N: usize>(
    bytes: &[u8],
    place: Span,
) -> Option<Result<Components<'_, T, N>, ComponentsFault>> {
    match Elements::of(bytes, &place) {
        Ok(elements) => Some(Components::of(elements)),
        Err(_) => None,
    }
}

/// The elements of a place as indices, or why they are not.
fn indices(
    bytes: &[u8],
    place: Span,
    component_type: ComponentType,
) -> Option<Result<Indices<'_>, IndicesFault>> {
    match Elements::of(bytes, &place) {
        Ok(elements) => Some(Indices::of(elements, component_type)),
        Err(_) => None,
    }
}

/// What the bytes of elements are taken from.
const BYTES: [u8; 10] = [0, 1, 2, 3, 4, 5, 6, 7, 8, 9];

/// Whether the elements of a place lie in the ten bytes.
fn lie(start: u64, stride: u64, size: u64, count: u64) -> bool {
    Elements::of(&BYTES, &span(start, stride, size, count)).is_ok()
}

/// Whether elements are bytes 1 to 3 and 5 to 7.
fn are_both_elements(elements: &Elements<'_>) -> bool {
    elements.len() == 2
        && elements.get(0) == [1, 2, 3].as_slice()
        && elements.get(1) == [5, 6, 7].as_slice()
}

/// Whether an element is the next one.
fn is_next(iter: &mut ElementsIter<'_>, element: &[u8]) -> bool {
    iter.next() == Some(element)
}

/// Whether bytes 1 to 3 and 5 to 7 are iterated over.
fn is_iter_of_both(elements: &Elements<'_>) -> bool {
    let mut iter = elements.iter();
    is_next(&mut iter, &[1, 2, 3]) && is_next(&mut iter, &[5, 6, 7]) && iter.next().is_none()
}

#[test]
fn elements_lie_in_the_buffer() -> Result<(), Fail> {
    holds(
        lie(1, 4, 3, 2) && lie(3, 4, 3, 2) && !lie(4, 4, 3, 2),
        "elements up to the end",
    )?;
    holds(lie(10, 4, 0, 1) && lie(99, 4, 3, 0), "no bytes")?;
    holds(
        !lie(0, u64::MAX, 1, 3) && !lie(u64::MAX, 1, 1, 1),
        "sums that would wrap",
    )
}

#[test]
fn elements_are_bytes_of_the_buffer() -> Result<(), Fail> {
    let elements = Elements::of(&BYTES, &span(1, 4, 3, 2))?;
    holds(are_both_elements(&elements), "both elements")?;
    holds(is_iter_of_both(&elements), "both elements in turn")
}

/// Whether there are two elements, of these components.
fn are_numbers<T: Component + PartialEq, const N: usize>(
    bytes: &[u8],
    place: Span,
    first: [T; N],
    second: [T; N],
) -> bool {
    match components::<T, N>(bytes, place) {
        Some(Ok(found)) => found.len() == 2 && found.get(0) == first && found.get(1) == second,
        _ => false,
    }
}

/// 1.0 and -2.5, then four bytes of no element, then the least and the greatest positive float.
const FLOATS: [u8; 20] = [
    0, 0, 128, 63, 0, 0, 32, 192, 9, 9, 9, 9, 1, 0, 0, 0, 255, 255, 127, 127,
];

/// Whether this is why two elements are not those of N floats.
fn is_fault<const N: usize>(bytes: &[u8], expected: ComponentsFault) -> bool {
    match components::<f32, N>(bytes, span(0, 12, 8, 2)) {
        Some(Err(fault)) => fault == expected,
        _ => false,
    }
}

#[test]
fn floats_have_their_bytes() -> Result<(), Fail> {
    holds(
        are_numbers(
            &FLOATS,
            span(0, 12, 8, 2),
            [1.0f32, -2.5],
            [1.0e-45, 3.4028235e38],
        ),
        "floats",
    )?;
    holds(
        is_fault::<3>(&FLOATS, ComponentsFault::Size),
        "three floats have more bytes",
    )
}

/// Whether a component is the first one at fault, if these bytes are at its place.
fn is_no_float(pattern: [u8; 4], start: usize, element: u64, component: usize) -> bool
    requires { start ≤ 16 }
{
    let [a, b, c, d] = pattern;
    let mut bytes = FLOATS;
    bytes[start] = a;
    bytes[start + 1] = b;
    bytes[start + 2] = c;
    bytes[start + 3] = d;
    is_fault::<2>(&bytes, ComponentsFault::NotFinite { element, component })
}

/// Whether bytes are no float at the place of any component.
fn is_nowhere_a_float(pattern: [u8; 4]) -> bool {
    is_no_float(pattern, 0, 0, 0)
        && is_no_float(pattern, 4, 0, 1)
        && is_no_float(pattern, 12, 1, 0)
        && is_no_float(pattern, 16, 1, 1)
}

#[test]
fn floats_are_finite() -> Result<(), Fail> {
    holds(
        is_nowhere_a_float([0, 0, 192, 127]) && is_nowhere_a_float([1, 0, 128, 255]),
        "NaNs",
    )?;
    holds(
        is_nowhere_a_float([0, 0, 128, 127]) && is_nowhere_a_float([0, 0, 128, 255]),
        "both infinities",
    )
}

/// What the bytes of integers are.
const INTEGERS: [u8; 8] = [255, 127, 0, 128, 1, 2, 3, 4];

/// Whether the integers have two elements, of these components.
fn are_integers<T: Component + PartialEq, const N: usize>(first: [T; N], second: [T; N]) -> bool {
    are_numbers(&INTEGERS, span(0, 4, 4, 2), first, second)
}

#[test]
fn unsigned_integers_have_their_bytes() -> Result<(), Fail> {
    holds(
        are_integers([255u8, 127, 0, 128], [1, 2, 3, 4]),
        "integers of 8 bits",
    )?;
    holds(
        are_integers([32767u16, 32768], [513, 1027]),
        "integers of 16 bits",
    )?;
    holds(
        are_integers([2147516415u32], [67305985]),
        "integers of 32 bits",
    )
}

#[test]
fn signed_integers_have_their_bytes() -> Result<(), Fail> {
    holds(
        are_integers([-1i8, 127, 0, -128], [1, 2, 3, 4]),
        "integers of 8 bits",
    )?;
    holds(
        are_integers([32767i16, -32768], [513, 1027]),
        "integers of 16 bits",
    )
}

/// Whether unsigned integers are fractions of the greatest one.
fn are_unsigned_fractions() -> bool {
    0u8.to_float() == 0.0
        && 51u8.to_float() == 0.2
        && 255u8.to_float() == 1.0
        && 0u16.to_float() == 0.0
        && 13107u16.to_float() == 0.2
        && 65535u16.to_float() == 1.0
}

/// Whether signed integers are fractions of the greatest one, and the least one is -1.
fn are_signed_fractions() -> bool {
    are_ends_of_fractions(-128i8, -127, 0, 127)
        && are_ends_of_fractions(-32768i16, -32767, 0, 32767)
}

/// Whether integers are -1, -1, 0 and 1.
fn are_ends_of_fractions<T: Normalized>(least: T, second: T, zero: T, greatest: T) -> bool {
    least.to_float() == -1.0
        && second.to_float() == -1.0
        && zero.to_float() == 0.0
        && greatest.to_float() == 1.0
}

/// Whether there is one element of three bytes, and its fractions are 0, 0.2 and 1.
fn is_color_of_fractions() -> bool {
    match components::<u8, 3>(&[0, 51, 255], span(0, 3, 3, 1)) {
        Some(Ok(colors)) => colors.len() == 1 && colors.normalized(0) == [0.0, 0.2, 1.0],
        _ => false,
    }
}

#[test]
fn normalized_integers_are_fractions() -> Result<(), Fail> {
    holds(are_unsigned_fractions(), "unsigned integers")?;
    holds(are_signed_fractions(), "signed integers")?;
    holds(is_color_of_fractions(), "components of an element")
}

/// What the bytes of two indices are.
const WIDE: [u8; 8] = [1, 0, 0, 0, 254, 255, 255, 255];

/// Whether the wide bytes are two indices of a type and size: 1 and the other one.
fn are_indices(component_type: ComponentType, size: u64, other: u32) -> bool {
    match indices(&WIDE, span(0, 4, size, 2), component_type) {
        Some(Ok(found)) => found.len() == 2 && found.get(0) == 1 && found.get(1) == other,
        _ => false,
    }
}

/// Whether this is why the wide bytes are no two indices of a type.
fn is_indices_fault(component_type: ComponentType, expected: IndicesFault) -> bool {
    match indices(&WIDE, span(0, 4, 4, 2), component_type) {
        Some(Err(fault)) => fault == expected,
        _ => false,
    }
}

#[test]
fn indices_are_widened() -> Result<(), Fail> {
    holds(are_indices(ComponentType::U8, 1, 254), "indices of 8 bits")?;
    holds(
        are_indices(ComponentType::U16, 2, 65534),
        "indices of 16 bits",
    )?;
    holds(
        are_indices(ComponentType::U32, 4, 4294967294),
        "indices of 32 bits",
    )
}

#[test]
fn indices_are_unsigned_integers() -> Result<(), Fail> {
    holds(
        is_indices_fault(ComponentType::F32, IndicesFault::NoIndexType)
            && is_indices_fault(ComponentType::I8, IndicesFault::NoIndexType),
        "types of no index",
    )?;
    holds(
        is_indices_fault(ComponentType::U16, IndicesFault::Size),
        "another size",
    )?;
    holds(IndexType::U16.restart() == 65535, "a restart")
}

/// Checks that the indices 0, 3 and 255 of 8 bits name vertices.
fn check_vertices(vertices: u64, restarts: bool) -> Option<Result<(), VertexFault>> {
    match indices(&[0, 3, 255], span(0, 1, 1, 3), ComponentType::U8) {
        Some(Ok(found)) => Some(indices_are_vertices(&found, vertices, restarts)),
        _ => None,
    }
}

/// Whether each index names one of so many vertices.
fn are_vertices(vertices: u64, restarts: bool) -> bool {
    check_vertices(vertices, restarts) == Some(Ok(()))
}

/// Whether this is the first index that names none of so many vertices.
fn is_no_vertex(vertices: u64, restarts: bool, place: u64, index: u32) -> bool {
    check_vertices(vertices, restarts) == Some(Err(VertexFault { place, index }))
}

#[test]
fn indices_name_vertices() -> Result<(), Fail> {
    holds(
        are_vertices(256, false) && is_no_vertex(255, false, 2, 255),
        "the greatest index",
    )?;
    holds(
        are_vertices(255, true) && are_vertices(4, true) && is_no_vertex(4, false, 2, 255),
        "a restart",
    )?;
    holds(
        is_no_vertex(3, true, 1, 3) && is_no_vertex(0, true, 0, 0),
        "indices before a restart",
    )
}
