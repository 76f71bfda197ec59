//! The formats that accessors may have for what they are used for.

ghost use Rattle.std.specs.Prelude.{◌≡◌, ◌↔◌, true, false, IsTrue};
ghost use Rattle.gltf_accessors.specs.Formats.{Allows, IsFloatOrUnsigned, IsFloatOrInteger, number, fraction, usage_of};

use gltf_base::accessor::{AccessorType, ComponentType};
use gltf_base::animation::Property;
use std::fmt::{self, Display, Formatter, Write};
use thiserror::Error;

/// What the elements of an accessor are (glTF 2.0, sections 5.1.3, 5.1.4 and 5.1.6).
#[derive(Clone, Copy, Debug, PartialEq, Eq)]
pub struct Format {
    /// Whether elements are scalars, vectors or matrices.
    pub type_: AccessorType,
    /// The data type of the components.
    pub component_type: ComponentType,
    /// Whether integers are normalized: they stand for floats from -1 or 0 to 1.
    pub normalized: bool,
}

impl Format {
    /// Returns elements whose components are the numbers as which they are stored.
    pub fn number(type_: AccessorType, component_type: ComponentType) -> Format
        ensures { result ≡ number type_ component_type }
    {
        Format {
            type_,
            component_type,
            normalized: false,
        }
    }

    /// Returns elements whose components are normalized integers.
    pub fn fraction(type_: AccessorType, component_type: ComponentType) -> Format
        ensures { result ≡ fraction type_ component_type }
    {
        Format {
            type_,
            component_type,
            normalized: true,
        }
    }
}

impl Display for Format {
    fn fmt<W: Write>(&self, f: &mut Formatter<W>) -> fmt::Result {
        f.write_str(if self.normalized { "normalized " } else { "" })?;
        f.write_str(component_name(self.component_type))?;
        f.write_str(" ")?;
        f.write_str(type_name(self.type_))
    }
}

/// What an accessor is used for.
#[derive(Clone, Copy, Debug, PartialEq, Eq)]
pub enum Usage {
    /// The positions of vertices (section 3.7.2.1).
    Positions = 1,
    /// The normals of vertices.
    Normals,
    /// The tangents of vertices.
    Tangents,
    /// Texture coordinates.
    TexCoords,
    /// The colors of vertices.
    Colors,
    /// The joints that move vertices.
    Joints,
    /// How much each of these joints does.
    Weights,
    /// What a morph target adds to positions, normals or tangents (section 3.7.2.2).
    Displacements,
    /// The indices of a primitive (sections 3.7.2.1 and 5.24.2).
    Indices,
    /// The inverse bind matrices of a skin (sections 3.7.3.1 and 5.28.1).
    InverseBindMatrices,
    /// The times of keyframes (sections 3.11 and 5.8.1).
    Inputs,
    /// Translations at keyframes (sections 3.11 and 5.8.3).
    Translations,
    /// Rotations at keyframes.
    Rotations,
    /// Scales at keyframes.
    Scales,
    /// Weights of morph targets at keyframes.
    MorphWeights,
}

impl Usage {
    /// Returns that of the values at keyframes that animate a property.
    pub fn of(property: Property) -> Usage
        ensures { result ≡ usage_of property }
    {
        match property {
            Property::Translation => Usage::Translations,
            Property::Rotation => Usage::Rotations,
            Property::Scale => Usage::Scales,
            Property::MorphTargetWeights => Usage::MorphWeights,
        }
    }

    /// Returns whether an accessor may have a format.
    pub fn allows(self, format: Format) -> bool
        ensures { IsTrue result ↔ Allows self format }
    {
        match self {
            Usage::Positions
            | Usage::Normals
            | Usage::Displacements
            | Usage::Translations
            | Usage::Scales => format == Format::number(AccessorType::Vec3, ComponentType::F32),
            Usage::Tangents => format == Format::number(AccessorType::Vec4, ComponentType::F32),
            Usage::TexCoords => is_float_or_unsigned(AccessorType::Vec2, format),
            Usage::Colors => {
                is_float_or_unsigned(AccessorType::Vec3, format)
                    || is_float_or_unsigned(AccessorType::Vec4, format)
            }
            Usage::Joints => {
                format == Format::number(AccessorType::Vec4, ComponentType::U8)
                    || format == Format::number(AccessorType::Vec4, ComponentType::U16)
            }
            Usage::Weights => is_float_or_unsigned(AccessorType::Vec4, format),
            Usage::Indices => {
                format == Format::number(AccessorType::Scalar, ComponentType::U8)
                    || format == Format::number(AccessorType::Scalar, ComponentType::U16)
                    || format == Format::number(AccessorType::Scalar, ComponentType::U32)
            }
            Usage::InverseBindMatrices => {
                format == Format::number(AccessorType::Mat4, ComponentType::F32)
            }
            Usage::Inputs => format == Format::number(AccessorType::Scalar, ComponentType::F32),
            Usage::Rotations => is_float_or_integer(AccessorType::Vec4, format),
            Usage::MorphWeights => is_float_or_integer(AccessorType::Scalar, format),
        }
    }
}

/// Whether components are floats or normalized unsigned integers of 8 or 16 bits.
fn is_float_or_unsigned(type_: AccessorType, format: Format) -> bool
    ensures { IsTrue result ↔ IsFloatOrUnsigned type_ format }
{
    format == Format::number(type_, ComponentType::F32)
        || format == Format::fraction(type_, ComponentType::U8)
        || format == Format::fraction(type_, ComponentType::U16)
}

/// Whether components are floats or normalized integers of 8 or 16 bits.
fn is_float_or_integer(type_: AccessorType, format: Format) -> bool
    ensures { IsTrue result ↔ IsFloatOrInteger type_ format }
{
    is_float_or_unsigned(type_, format)
        || format == Format::fraction(type_, ComponentType::I8)
        || format == Format::fraction(type_, ComponentType::I16)
}

/// A format that the specification doesn't allow an accessor for what it is used for.
#[derive(Clone, Copy, Debug, PartialEq, Eq, Error)]
#[error("{usage} can't be {found}")]
pub struct FormatFault {
    /// What the accessor is used for.
    pub usage: Usage,
    /// The format that it has.
    pub found: Format,
}

impl Display for Usage {
    fn fmt<W: Write>(&self, f: &mut Formatter<W>) -> fmt::Result {
        f.write_str(match self {
            Usage::Positions => "positions",
            Usage::Normals => "normals",
            Usage::Tangents => "tangents",
            Usage::TexCoords => "texture coordinates",
            Usage::Colors => "colors",
            Usage::Joints => "joints",
            Usage::Weights => "weights",
            Usage::Displacements => "displacements of a morph target",
            Usage::Indices => "indices",
            Usage::InverseBindMatrices => "inverse bind matrices",
            Usage::Inputs => "times of keyframes",
            Usage::Translations => "translations",
            Usage::Rotations => "rotations",
            Usage::Scales => "scales",
            Usage::MorphWeights => "weights of morph targets",
        })
    }
}

/// The name that the specification has for a component type.
fn component_name(component_type: ComponentType) -> &'static str {
    match component_type {
        ComponentType::I8 => "signed byte",
        ComponentType::U8 => "unsigned byte",
        ComponentType::I16 => "signed short",
        ComponentType::U16 => "unsigned short",
        ComponentType::U32 => "unsigned int",
        ComponentType::F32 => "float",
    }
}

/// The name that documents have for a type.
fn type_name(type_: AccessorType) -> &'static str {
    match type_ {
        AccessorType::Scalar => "SCALAR",
        AccessorType::Vec2 => "VEC2",
        AccessorType::Vec3 => "VEC3",
        AccessorType::Vec4 => "VEC4",
        AccessorType::Mat2 => "MAT2",
        AccessorType::Mat3 => "MAT3",
        AccessorType::Mat4 => "MAT4",
    }
}
