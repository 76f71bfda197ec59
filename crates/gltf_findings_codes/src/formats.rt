//! Formats of accessors that other objects name.

ghost use Rattle.std.specs.Prelude.{◌≡◌, Option, option_copied};
ghost use Rattle.gltf_findings_codes.specs.Formats.{accessor_of, is_strided, is_accessor_strided, allows, excludes, excludes_named, is_scalar, is_vec3, is_vec4, is_mat4, is_float, is_index, is_float_or_normalized, has_bounds, is_vec2, is_color, is_float_or_unsigned, is_joint, is_quantized, offset_number};

use gltf_base::Index;
use gltf_base::accessor::{AccessorType, ComponentType};
use gltf_base::validation::{Checked, USize64};
use gltf_parts::accessor::Accessor;
use gltf_parts::buffer::View;

/// The accessor that an index names.
pub fn accessor_of(accessors: &[Accessor], index: Option<Index<Accessor>>) -> Option<&Accessor>
    ensures { option_copied result ≡ accessor_of accessors.now index }
{
    // derived
    match index {
        Some(index) => accessors.get(index.value()),
        None => None,
    }
}

/// Whether an index names a view that defines a stride.
pub fn is_strided(views: &[View], view: Option<Index<View>>) -> bool
    ensures { result ≡ is_strided views.now view }
{
    // derived
    match view {
        Some(view) => match views.get(view.value()) {
            Some(view) => view.byte_stride.is_some(),
            None => false,
        },
        None => false,
    }
}

/// Whether an index names an accessor whose view defines a stride.
pub fn is_accessor_strided(
    views: &[View],
    accessors: &[Accessor],
    index: Option<Index<Accessor>>,
) -> bool
    ensures { result ≡ is_accessor_strided views.now accessors.now index }
{
    // derived
    match accessor_of(accessors, index) {
        Some(accessor) => is_strided(views, accessor.buffer_view),
        None => false,
    }
}

/// What the elements of an accessor may be.
#[derive(Clone, Copy)]
pub enum AllowedFormat {
    /// Matrices of floats: inverse bind matrices.
    Matrices,
    /// Floats: the times of an animation.
    Times,
    /// Unsigned integers: vertex indices.
    Indices,
    /// Vectors of three floats: translations and scales.
    Vectors,
    /// Quaternions of floats or of normalized integers.
    Rotations,
    /// Floats or normalized integers: the weights of morph targets.
    Weights,
    /// Vectors of four floats: tangents.
    Tangents,
    /// Vectors of two floats or normalized unsigned integers: texture coordinates.
    TexCoords,
    /// Vectors of three or four floats or normalized unsigned integers: colors.
    Colors,
    /// Vectors of four unsigned integers: joints.
    Joints,
    /// Vectors of four floats or normalized unsigned integers: the weights of joints.
    JointWeights,
    /// Positions, normals and displacements by `KHR_mesh_quantization`.
    QuantizedVectors,
    /// Tangents by `KHR_mesh_quantization`.
    QuantizedTangents,
    /// Texture coordinates by `KHR_mesh_quantization`.
    QuantizedTexCoords,
}

impl AllowedFormat {
    /// Whether elements may be so.
    pub fn allows(&self, type_: AccessorType, component: ComponentType, normalized: bool) -> bool
        ensures { result ≡ allows self.now type_ component normalized }
    {
        // derived
        match self {
            AllowedFormat::Matrices => is_mat4(type_) && is_float(component) && !normalized,
            AllowedFormat::Times => is_scalar(type_) && is_float(component) && !normalized,
            AllowedFormat::Indices => is_scalar(type_) && is_index(component) && !normalized,
            AllowedFormat::Vectors => is_vec3(type_) && is_float(component) && !normalized,
            AllowedFormat::Rotations => {
                is_vec4(type_) && is_float_or_normalized(component, normalized)
            }
            AllowedFormat::Weights => {
                is_scalar(type_) && is_float_or_normalized(component, normalized)
            }
            AllowedFormat::Tangents => is_vec4(type_) && is_float(component) && !normalized,
            AllowedFormat::TexCoords => {
                is_vec2(type_) && is_float_or_unsigned(component, normalized)
            }
            AllowedFormat::Colors => is_color(type_) && is_float_or_unsigned(component, normalized),
            AllowedFormat::Joints => is_vec4(type_) && is_joint(component) && !normalized,
            AllowedFormat::JointWeights => {
                is_vec4(type_) && is_float_or_unsigned(component, normalized)
            }
            AllowedFormat::QuantizedVectors => is_vec3(type_) && is_quantized(component),
            AllowedFormat::QuantizedTangents => is_vec4(type_) && is_quantized(component),
            AllowedFormat::QuantizedTexCoords => is_vec2(type_) && is_quantized(component),
        }
    }

    /// Whether an accessor has valid types, and elements that may not be so.
    pub fn excludes(&self, accessor: &Accessor) -> bool
        ensures { result ≡ excludes self.now accessor.now }
    {
        // derived
        match (accessor.type_, accessor.component_type) {
            (Checked::Valid(type_), Checked::Valid(component_type)) => {
                !self.allows(type_, component_type.0, accessor.normalized)
            }
            _ => false,
        }
    }

    /// The same for the accessor that an index names.
    pub fn excludes_named(&self, accessors: &[Accessor], index: Option<Index<Accessor>>) -> bool
        ensures { result ≡ excludes_named self.now accessors.now index }
    {
        // derived
        match accessor_of(accessors, index) {
            Some(accessor) => self.excludes(accessor),
            None => false,
        }
    }
}

/// Whether elements are scalars.
fn is_scalar(type_: AccessorType) -> bool
    ensures { result ≡ is_scalar type_ }
{
    // derived
    match type_ {
        AccessorType::Scalar => true,
        _ => false,
    }
}

/// Whether elements are vectors of two components.
fn is_vec2(type_: AccessorType) -> bool
    ensures { result ≡ is_vec2 type_ }
{
    // derived
    match type_ {
        AccessorType::Vec2 => true,
        _ => false,
    }
}

/// Whether elements are colors, with an alpha or without.
fn is_color(type_: AccessorType) -> bool
    ensures { result ≡ is_color type_ }
{
    // derived
    match type_ {
        AccessorType::Vec3 | AccessorType::Vec4 => true,
        _ => false,
    }
}

/// Whether elements are vectors of three components.
fn is_vec3(type_: AccessorType) -> bool
    ensures { result ≡ is_vec3 type_ }
{
    // derived
    match type_ {
        AccessorType::Vec3 => true,
        _ => false,
    }
}

/// Whether elements are vectors of four components.
fn is_vec4(type_: AccessorType) -> bool
    ensures { result ≡ is_vec4 type_ }
{
    // derived
    match type_ {
        AccessorType::Vec4 => true,
        _ => false,
    }
}

/// Whether elements are matrices of four columns.
fn is_mat4(type_: AccessorType) -> bool
    ensures { result ≡ is_mat4 type_ }
{
    // derived
    match type_ {
        AccessorType::Mat4 => true,
        _ => false,
    }
}

/// Whether components are floats.
fn is_float(component: ComponentType) -> bool
    ensures { result ≡ is_float component }
{
    // derived
    match component {
        ComponentType::F32 => true,
        _ => false,
    }
}

/// Whether components are unsigned integers.
fn is_index(component: ComponentType) -> bool
    ensures { result ≡ is_index component }
{
    // derived
    match component {
        ComponentType::U8 | ComponentType::U16 | ComponentType::U32 => true,
        _ => false,
    }
}

/// Whether components are floats, or normalized integers of 8 or 16 bits.
fn is_float_or_normalized(component: ComponentType, normalized: bool) -> bool
    ensures { result ≡ is_float_or_normalized component normalized }
{
    // derived
    match component {
        ComponentType::F32 => !normalized,
        ComponentType::U32 => false,
        _ => normalized,
    }
}

/// Whether components are floats, or normalized unsigned integers of 8 or 16 bits.
fn is_float_or_unsigned(component: ComponentType, normalized: bool) -> bool
    ensures { result ≡ is_float_or_unsigned component normalized }
{
    // derived
    match component {
        ComponentType::F32 => !normalized,
        ComponentType::U8 | ComponentType::U16 => normalized,
        _ => false,
    }
}

/// Whether components are unsigned integers of 8 or 16 bits.
fn is_joint(component: ComponentType) -> bool
    ensures { result ≡ is_joint component }
{
    // derived
    match component {
        ComponentType::U8 | ComponentType::U16 => true,
        _ => false,
    }
}

/// Whether components are floats, or integers of 8 or 16 bits.
fn is_quantized(component: ComponentType) -> bool
    ensures { result ≡ is_quantized component }
{
    // derived
    match component {
        ComponentType::U32 => false,
        _ => true,
    }
}

/// Whether an accessor has both bounds.
pub fn has_bounds(accessor: &Accessor) -> bool
    ensures { result ≡ has_bounds accessor.now }
{
    // derived
    accessor.min.is_some() && accessor.max.is_some()
}

/// The number that an offset is.
pub fn offset_number(offset: Option<USize64>) -> u64
    ensures { result ≡ offset_number offset }
{
    // derived
    match offset {
        Some(offset) => offset.0,
        None => 0,
    }
}
