//! Accessors that are read from buffers, with elements that are worked by hand.

ghost use Rattle.std.specs.Prelude.{⊤, None};

use crate::listed::Listed;
use gltf_accessors::{
    AccessFault, AccessorData, AccessorDataFault, Colors, ComponentsFault, DeviatingFault,
    ElementsFault, Format, FormatFault, IndexType, PartFault, PrimitiveIndices, SparseFault, Usage,
    VertexFault,
};
use gltf_base::accessor::{AccessorType, ComponentType};
use gltf_base::animation::Property;
use gltf_buffers::{Buffers, Resolve, StoredBuffer};
use gltf_layout::{Location, Place, Span, SparsePlace};
use gltf_vectors::holds;
use std::alloc::{AllocError, Global};
use std::test::Fail;

/// A buffer without a URI, of so many bytes.
fn chunk(byte_length: u64) -> [StoredBuffer<'static>; 1] {
    [StoredBuffer {
        byte_length,
        uri: None,
    }]
}

/// No files.
#[derive(Drop)]
struct NoFiles;

impl Resolve for NoFiles {
    type Error = AllocError;

    ghost gives = { λ _ _ _. ⊤ };

    ghost most = { λ _. None };

    fn bytes(&mut self, _alloc: Global, _uri: &str) -> Result<Vec<u8>, AllocError> {
        Err(AllocError)
    }
}

/// Where elements lie in a buffer, packed tightly.
fn span(start: u64, size: u64, count: u64) -> Span {
    Span {
        start,
        stride: size,
        size,
        count,
    }
}

/// Elements that lie in buffer 0, packed tightly.
fn place(type_: AccessorType, component_type: ComponentType, size: u64, count: u64) -> Place {
    let span = span(0, size, count);
    Place {
        component_type,
        type_,
        count,
        elements: Some(Location { buffer: 0, span }),
        sparse: None,
    }
}

/// The one buffer without a URI.
fn buffered(alloc: Global, bytes: &[u8]) -> Result<Buffers<'_>, Fail> {
    let list = chunk(bytes.len() as u64);
    Ok(Buffers::of(alloc, &Listed(&list), Some(bytes), &mut NoFiles)?)
}

/// Elements that lie in a buffer, as numbers or as fractions.
fn data<'a>(buffers: &'a Buffers<'a>, place: &'a Place, normalized: bool) -> AccessorData<'a> {
    AccessorData {
        place,
        normalized,
        buffers,
    }
}

/// A format that a usage does not allow.
fn format_fault(usage: Usage, place: &Place, normalized: bool) -> Option<AccessFault> {
    let found = Format {
        type_: place.type_,
        component_type: place.component_type,
        normalized,
    };
    Some(AccessFault::Format(FormatFault { usage, found }))
}

/// Whether the only vertex has this position.
fn is_position(buffers: &Buffers<'_>, place: &Place, position: [f32; 3]) -> bool {
    match data(buffers, place, false).positions() {
        Ok(positions) => positions.len() == 1 && positions.get(0) == position,
        Err(_) => false,
    }
}

/// Why elements are no tangents.
fn tangents_fault(buffers: &Buffers<'_>, place: &Place) -> Option<AccessFault> {
    data(buffers, place, false).tangents().err()
}

/// Why normalized elements are no normals.
fn normals_fault(buffers: &Buffers<'_>, place: &Place) -> Option<AccessFault> {
    data(buffers, place, true).normals().err()
}

/// Why elements are no input.
fn inputs_fault(buffers: &Buffers<'_>, place: &Place) -> Option<AccessFault> {
    data(buffers, place, false).inputs().err()
}

/// Whether a vector of three floats is a position, but no tangent, and no normal if it is
/// normalized.
fn is_vector_of_floats(buffers: &Buffers<'_>) -> bool {
    let vector = place(AccessorType::Vec3, ComponentType::F32, 12, 1);
    is_position(buffers, &vector, [1.0, -2.0, 0.5])
        && tangents_fault(buffers, &vector) == format_fault(Usage::Tangents, &vector, false)
        && normals_fault(buffers, &vector) == format_fault(Usage::Normals, &vector, true)
}

/// Whether the last of four numbers is infinite.
fn is_last_infinite(buffers: &Buffers<'_>) -> bool {
    let numbers = place(AccessorType::Scalar, ComponentType::F32, 4, 4);
    let infinite = ComponentsFault::NotFinite {
        element: 3,
        component: 0,
    };
    let fault = AccessorDataFault::Elements(PartFault::Components(infinite));
    inputs_fault(buffers, &numbers) == Some(AccessFault::Data(fault))
}

#[test]
fn floats_are_read(rt: HostRuntime) -> Result<(), Fail> {
    // 1, -2 and 0.5, then an infinity.
    let bytes = [
        0, 0, 0x80, 0x3F, 0, 0, 0, 0xC0, 0, 0, 0, 0x3F, 0, 0, 0x80, 0x7F,
    ];
    let buffers = buffered(rt.alloc(), &bytes)?;
    holds(is_vector_of_floats(&buffers), "a vector")?;
    holds(is_last_infinite(&buffers), "an infinity")
}

/// Whether a vertex has these texture coordinates.
fn is_tex_coord(buffers: &Buffers<'_>, place: &Place, index: u64, coord: [f32; 2]) -> bool {
    match data(buffers, place, true).tex_coords() {
        Ok(coords) => index < coords.len() && coords.get(index) == coord,
        Err(_) => false,
    }
}

/// Why elements are no texture coordinates.
fn tex_coords_fault(buffers: &Buffers<'_>, place: &Place) -> Option<AccessFault> {
    data(buffers, place, false).tex_coords().err()
}

/// Whether two pairs of bytes are texture coordinates if they are normalized.
fn are_tex_coords(buffers: &Buffers<'_>) -> bool {
    let pairs = place(AccessorType::Vec2, ComponentType::U8, 2, 2);
    is_tex_coord(buffers, &pairs, 0, [0.0, 0.2])
        && is_tex_coord(buffers, &pairs, 1, [1.0, 0.4])
        && tex_coords_fault(buffers, &pairs) == format_fault(Usage::TexCoords, &pairs, false)
}

/// Whether the first color is this one, and alpha is not stored.
fn is_first_opaque(colors: &Colors<'_>, color: [f32; 4]) -> bool {
    match colors {
        Colors::Rgb(_) => colors.len() > 0 && colors.get(0) == color,
        Colors::Rgba(_) => false,
    }
}

/// Whether three bytes are a color.
fn is_color(buffers: &Buffers<'_>) -> bool {
    let triple = place(AccessorType::Vec3, ComponentType::U8, 3, 1);
    match data(buffers, &triple, true).colors() {
        Ok(colors) => is_first_opaque(&colors, [0.0, 0.2, 1.0, 1.0]),
        Err(_) => false,
    }
}

/// Why normalized elements are no values of a property.
fn outputs_fault(buffers: &Buffers<'_>, place: &Place, property: Property) -> Option<AccessFault> {
    data(buffers, place, true).outputs(property).err()
}

/// Why elements are no joints.
fn joints_fault(buffers: &Buffers<'_>, place: &Place, normalized: bool) -> Option<AccessFault> {
    data(buffers, place, normalized).joints().err()
}

/// Whether four normalized bytes are a rotation, but no scale and no joints.
fn is_rotation_alone(buffers: &Buffers<'_>) -> bool {
    let four = place(AccessorType::Vec4, ComponentType::U8, 4, 1);
    outputs_fault(buffers, &four, Property::Rotation).is_none()
        && outputs_fault(buffers, &four, Property::Scale)
            == format_fault(Usage::Scales, &four, true)
        && joints_fault(buffers, &four, true) == format_fault(Usage::Joints, &four, true)
}

#[test]
fn normalized_integers_are_converted(rt: HostRuntime) -> Result<(), Fail> {
    let bytes = [0u8, 51, 255, 102];
    let buffers = buffered(rt.alloc(), &bytes)?;
    holds(are_tex_coords(&buffers), "texture coordinates")?;
    holds(is_color(&buffers), "a color")?;
    holds(is_rotation_alone(&buffers), "a rotation")
}

/// Whether four bytes are the joints of the first vertex.
fn are_joints(buffers: &Buffers<'_>) -> bool {
    let four = place(AccessorType::Vec4, ComponentType::U8, 4, 1);
    match data(buffers, &four, false).joints() {
        Ok(joints) => joints.len() > 0 && joints.get(0) == [1, 2, 3, 255],
        Err(_) => false,
    }
}

/// Four bytes, each of which is an element.
fn four_numbers() -> Place {
    place(AccessorType::Scalar, ComponentType::U8, 1, 4)
}

/// Whether indices are of 8 bits, and name four vertices if the last one, 255, may restart a
/// primitive.
fn are_of_four_vertices(indices: &PrimitiveIndices<'_>) -> bool {
    let fault = VertexFault {
        place: 3,
        index: 255,
    };
    indices.index_type() == IndexType::U8
        && indices.check_vertices(4, true).is_ok()
        && indices.check_vertices(4, false) == Err(fault)
}

/// Whether four bytes are indices.
fn are_indices(buffers: &Buffers<'_>) -> bool {
    match data(buffers, &four_numbers(), false).indices() {
        Ok(indices) => are_of_four_vertices(&indices),
        Err(_) => false,
    }
}

/// Why elements are no indices.
fn indices_fault(buffers: &Buffers<'_>, place: &Place, normalized: bool) -> Option<AccessFault> {
    data(buffers, place, normalized).indices().err()
}

/// Whether normalized bytes are no indices.
fn are_indices_no_fractions(buffers: &Buffers<'_>) -> bool {
    let numbers = four_numbers();
    indices_fault(buffers, &numbers, true) == format_fault(Usage::Indices, &numbers, true)
}

#[test]
fn joints_and_indices_are_widened(rt: HostRuntime) -> Result<(), Fail> {
    let bytes = [1u8, 2, 3, 255];
    let buffers = buffered(rt.alloc(), &bytes)?;
    holds(are_joints(&buffers), "joints")?;
    holds(are_indices(&buffers), "indices")?;
    holds(are_indices_no_fractions(&buffers), "normalized indices")
}

/// Numbers of which one deviates: its index is byte 0, the number is in bytes 2 and 3.
fn sparse(count: u64, buffer: u32) -> Place {
    let deviating = SparsePlace {
        count: 1,
        index_type: ComponentType::U8,
        indices: Location {
            buffer,
            span: span(0, 1, 1),
        },
        values: Location {
            buffer: 0,
            span: span(2, 2, 1),
        },
    };
    Place {
        component_type: ComponentType::U16,
        type_: AccessorType::Scalar,
        count,
        elements: None,
        sparse: Some(deviating),
    }
}

/// Whether the indices of a primitive are 0, 0, 0x1234 and 0.
fn is_third_deviating(indices: &PrimitiveIndices<'_>) -> bool {
    indices.len() == 4
        && indices.get(0) == 0
        && indices.get(1) == 0
        && indices.get(2) == 0x1234
        && indices.get(3) == 0
}

/// Whether one of four zeros deviates.
fn are_zeros_replaced(buffers: &Buffers<'_>) -> bool {
    match data(buffers, &sparse(4, 0), false).indices() {
        Ok(indices) => is_third_deviating(&indices),
        Err(_) => false,
    }
}

/// Whether this is wrong with elements as indices.
fn is_fault(buffers: &Buffers<'_>, place: &Place, fault: AccessorDataFault) -> bool {
    indices_fault(buffers, place, false) == Some(AccessFault::Data(fault))
}

/// Whether the indices of deviating elements may be in no other buffer.
fn are_sparse_buffers_checked(buffers: &Buffers<'_>) -> bool {
    let fault = DeviatingFault::Indices(PartFault::NoSuchBuffer { buffer: 1 });
    is_fault(buffers, &sparse(4, 1), AccessorDataFault::Deviating(fault))
}

/// Whether no element behind the end may deviate.
fn are_sparse_indices_checked(buffers: &Buffers<'_>) -> bool {
    let fault = DeviatingFault::Sparse(SparseFault::BehindEnd { place: 0, index: 2 });
    is_fault(buffers, &sparse(2, 0), AccessorDataFault::Deviating(fault))
}

#[test]
fn zeros_deviate(rt: HostRuntime) -> Result<(), Fail> {
    let bytes = [2u8, 0, 0x34, 0x12];
    let buffers = buffered(rt.alloc(), &bytes)?;
    holds(are_zeros_replaced(&buffers), "zeros")?;
    holds(are_sparse_buffers_checked(&buffers), "no buffer of indices")?;
    holds(
        are_sparse_indices_checked(&buffers),
        "an index behind the end",
    )
}

/// Whether two numbers of 32 bits end behind four bytes.
fn are_two_behind_end(buffers: &Buffers<'_>) -> bool {
    let two = place(AccessorType::Scalar, ComponentType::U32, 4, 2);
    let fault = PartFault::Elements(ElementsFault::BehindBuffer);
    is_fault(buffers, &two, AccessorDataFault::Elements(fault))
}

/// Whether one number is not three.
fn are_counts_compared(buffers: &Buffers<'_>) -> bool {
    let fewer = Place {
        count: 3,
        ..place(AccessorType::Scalar, ComponentType::U32, 4, 1)
    };
    is_fault(buffers, &fewer, AccessorDataFault::Count)
}

#[test]
fn places_of_another_document_are_faults(rt: HostRuntime) -> Result<(), Fail> {
    let bytes = [0u8; 4];
    let buffers = buffered(rt.alloc(), &bytes)?;
    holds(are_two_behind_end(&buffers), "elements behind the end")?;
    holds(are_counts_compared(&buffers), "fewer elements")
}

const TYPES: [AccessorType; 7] = [
    AccessorType::Scalar,
    AccessorType::Vec2,
    AccessorType::Vec3,
    AccessorType::Vec4,
    AccessorType::Mat2,
    AccessorType::Mat3,
    AccessorType::Mat4,
];

const COMPONENT_TYPES: [ComponentType; 6] = [
    ComponentType::I8,
    ComponentType::U8,
    ComponentType::I16,
    ComponentType::U16,
    ComponentType::U32,
    ComponentType::F32,
];

/// How many of the two formats of a type and a component type a usage allows.
fn allowed_of(usage: Usage, type_: AccessorType, component_type: ComponentType) -> u32 {
    let number = usage.allows(Format::number(type_, component_type));
    let fraction = usage.allows(Format::fraction(type_, component_type));
    u32::from(number) + u32::from(fraction)
}

/// How many of the 84 formats a usage allows.
fn allowed(usage: Usage) -> u32 {
    let mut allowed: u32 = 0;
    for type_ in TYPES {
        for component_type in COMPONENT_TYPES {
            allowed = allowed.saturating_add(allowed_of(usage, type_, component_type));
        }
    }
    allowed
}

/// Whether vertices may have so many formats.
fn are_vertices_allowed() -> bool {
    allowed(Usage::Positions) == 1
        && allowed(Usage::Normals) == 1
        && allowed(Usage::Tangents) == 1
        && allowed(Usage::TexCoords) == 3
        && allowed(Usage::Colors) == 6
        && allowed(Usage::Joints) == 2
        && allowed(Usage::Weights) == 3
        && allowed(Usage::Displacements) == 1
}

/// Whether animations may have so many formats.
fn are_animations_allowed() -> bool {
    allowed(Usage::Inputs) == 1
        && allowed(Usage::Translations) == 1
        && allowed(Usage::Rotations) == 5
        && allowed(Usage::Scales) == 1
        && allowed(Usage::MorphWeights) == 5
}

#[test]
fn formats_are_those_of_the_specification() -> Result<(), Fail> {
    holds(are_vertices_allowed(), "vertices")?;
    holds(allowed(Usage::Indices) == 3, "indices")?;
    holds(
        allowed(Usage::InverseBindMatrices) == 1,
        "inverse bind matrices",
    )?;
    holds(are_animations_allowed(), "animations")
}
