//! The elements of accessors.

ghost use Rattle.std.specs.Prelude.{◌*◌, ◌<◌, ◌^◌};
ghost use Rattle.std.specs.Mem.{type_size};

use super::number::Number;
use anyhow::{Context, Result};
use gltf_base::accessor::{AccessorType, ComponentType};
use gltf_load::{
    Accessor, Buffers, Component, Components, Elements, Indices, Location, Place, Sparse,
    SparsePlace, element_size,
};
use std::fmt::Write;

/// Prints an accessor and each of its elements, or what is wrong with it.
pub fn print_accessor(
    rt: &HostRuntime,
    buffers: &Buffers<'_>,
    place: &Place,
    number: usize,
    normalized: bool,
) -> Result<()> {
    let lines = match place.component_type {
        ComponentType::I8 => lines_as::<i8>(rt, buffers, place, normalized),
        ComponentType::U8 => lines_as::<u8>(rt, buffers, place, normalized),
        ComponentType::I16 => lines_as::<i16>(rt, buffers, place, normalized),
        ComponentType::U16 => lines_as::<u16>(rt, buffers, place, normalized),
        ComponentType::U32 => lines_as::<u32>(rt, buffers, place, normalized),
        ComponentType::F32 => lines_as::<f32>(rt, buffers, place, normalized),
    };
    let lines = match lines {
        Ok(lines) => lines,
        Err(error) => {
            println!(rt; "accessor {number}: {error}")?;
            return Ok(());
        }
    };
    println!(rt;
        "accessor {number}: {} {:?} of {:?}{}",
        place.count,
        place.type_,
        place.component_type,
        if normalized { ", normalized" } else { "" }
    )?;
    print!(rt; "{lines}")?;
    Ok(())
}

/// The elements with components of a type, each on a line.
fn lines_as<T: Number>(
    rt: &HostRuntime,
    buffers: &Buffers<'_>,
    place: &Place,
    normalized: bool,
) -> Result<String>
    // 16 components have a size in memory.
    requires { 16 * type_size T.row < 2 ^ 63 }
{
    if is_padded(place) {
        return lines_of_bytes(rt, buffers, place);
    }
    match place.type_ {
        AccessorType::Scalar => lines_of::<T, 1>(rt, buffers, place, normalized),
        AccessorType::Vec2 => lines_of::<T, 2>(rt, buffers, place, normalized),
        AccessorType::Vec3 => lines_of::<T, 3>(rt, buffers, place, normalized),
        AccessorType::Vec4 | AccessorType::Mat2 => lines_of::<T, 4>(rt, buffers, place, normalized),
        AccessorType::Mat3 => lines_of::<T, 9>(rt, buffers, place, normalized),
        AccessorType::Mat4 => lines_of::<T, 16>(rt, buffers, place, normalized),
    }
}

/// Whether there are bytes between the columns of a matrix.
fn is_padded(place: &Place) -> bool {
    let components = place.type_.multiplicity();
    let packed = components.saturating_mul(place.component_type.size());
    element_size(place.type_, place.component_type) != packed as u64
}

/// Elements of N components, each on a line.
fn lines_of<T: Number, const N: usize>(
    rt: &HostRuntime,
    buffers: &Buffers<'_>,
    place: &Place,
    normalized: bool,
) -> Result<String>
    requires { N * type_size T.row < 2 ^ 63 }
{
    let accessor = accessor_of::<T, N>(buffers, place)?;
    let mut lines = String::new(rt.alloc());
    for index in 0..accessor.len() {
        push_line(&mut lines, accessor.get(index), normalized)?;
    }
    Ok(lines)
}

/// Appends the components of an element as a line.
fn push_line<T: Number, const N: usize>(
    lines: &mut String,
    numbers: [T; N],
    normalized: bool,
) -> Result<()> {
    for k in 0..N {
        lines.push_str(if k == 0 { "" } else { " " })?;
        numbers[k].write_to(lines, normalized)?;
    }
    lines.push_str("\n")?;
    Ok(())
}

/// The bytes of elements, each element on a line.
fn lines_of_bytes(rt: &HostRuntime, buffers: &Buffers<'_>, place: &Place) -> Result<String> {
    let at = place.elements.as_ref().context("no view")?;
    let mut lines = String::new(rt.alloc());
    for element in elements_at(buffers, at)?.iter() {
        lines.push_str("bytes")?;
        for byte in element {
            write!(lines, " {byte}")?;
        }
        lines.push_str("\n")?;
    }
    Ok(lines)
}

/// The elements of an accessor: those of its view, or zeros, but for those that deviate.
fn accessor_of<'a, T: Component, const N: usize>(
    buffers: &'a Buffers<'_>,
    place: &Place,
) -> Result<Accessor<'a, T, N>> {
    let base = match &place.elements {
        Some(at) => Some(components_at(buffers, at)?),
        None => None,
    };
    let sparse = match &place.sparse {
        Some(sparse) => Some(sparse_of(buffers, sparse, place.count)?),
        None => None,
    };
    Ok(Accessor::of(place.count, base, sparse)?)
}

/// The elements that deviate.
fn sparse_of<'a, T: Component, const N: usize>(
    buffers: &'a Buffers<'_>,
    place: &SparsePlace,
    count: u64,
) -> Result<Sparse<'a, T, N>> {
    let indices = Indices::of(elements_at(buffers, &place.indices)?, place.index_type)?;
    Ok(Sparse::of(indices, components_at(buffers, &place.values)?, count)?)
}

/// The elements at a place, as numbers.
fn components_at<'a, T: Component, const N: usize>(
    buffers: &'a Buffers<'_>,
    at: &Location,
) -> Result<Components<'a, T, N>> {
    Ok(Components::of(elements_at(buffers, at)?)?)
}

/// The elements at a place.
fn elements_at<'a>(buffers: &'a Buffers<'_>, at: &Location) -> Result<Elements<'a>> {
    let bytes = buffers.bytes(at.buffer as usize).context("no such buffer")?;
    Ok(Elements::of(bytes, &at.span)?)
}
