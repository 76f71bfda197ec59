//! Choices: the items of each, and how each is spelled.

use crate::{holds, shows};
use gltf_base::accessor::{AccessorType, ComponentType, GenericComponentType, IndexComponentType};
use gltf_base::animation::{Interpolation, Property};
use gltf_base::buffer::Target;
use gltf_base::camera::CameraType;
use gltf_base::choice::Choice;
use gltf_base::extensions::scene::khr_lights_punctual::LightType;
use gltf_base::material::AlphaMode;
use gltf_base::mesh::Mode;
use gltf_base::texture::{MagFilter, MinFilter, WrappingMode};
use gltf_base::validation::Checked;
use std::alloc::{AllocError, Global};
use std::fmt::{Debug, Write};
use std::test::Fail;

/// The items of a choice, each behind its spelling, below its form.
fn listed<T: Choice + Debug>(alloc: Global) -> Result<String, AllocError> {
    let mut text = format!(in alloc; "{:?}", T::form())?;
    for item in T::listed() {
        write!(text, " {:?} {item:?}", item.spelling())?;
    }
    Ok(text)
}

#[test]
fn choices_by_numbers_are_those_of_the_format(rt: HostRuntime) -> Result<(), Fail> {
    let alloc = rt.alloc();
    shows(
        listed::<GenericComponentType>(alloc),
        "Number Number(5120) GenericComponentType(I8) Number(5121) GenericComponentType(U8) Number(5122) GenericComponentType(I16) Number(5123) GenericComponentType(U16) Number(5125) GenericComponentType(U32) Number(5126) GenericComponentType(F32)",
    )?;
    shows(
        listed::<IndexComponentType>(alloc),
        "Number Number(5121) IndexComponentType(U8) Number(5123) IndexComponentType(U16) Number(5125) IndexComponentType(U32)",
    )?;
    shows(
        listed::<Target>(alloc),
        "Number Number(34962) ArrayBuffer Number(34963) ElementArrayBuffer",
    )?;
    shows(
        listed::<Mode>(alloc),
        "Number Number(0) Points Number(1) Lines Number(2) LineLoop Number(3) LineStrip Number(4) Triangles Number(5) TriangleStrip Number(6) TriangleFan",
    )?;
    shows(
        listed::<MagFilter>(alloc),
        "Number Number(9728) Nearest Number(9729) Linear",
    )?;
    shows(
        listed::<MinFilter>(alloc),
        "Number Number(9728) Nearest Number(9729) Linear Number(9984) NearestMipmapNearest Number(9985) LinearMipmapNearest Number(9986) NearestMipmapLinear Number(9987) LinearMipmapLinear",
    )?;
    shows(
        listed::<WrappingMode>(alloc),
        "Number Number(33071) ClampToEdge Number(33648) MirroredRepeat Number(10497) Repeat",
    )?;
    Ok(())
}

#[test]
fn choices_by_names_are_those_of_the_format(rt: HostRuntime) -> Result<(), Fail> {
    let alloc = rt.alloc();
    shows(
        listed::<AccessorType>(alloc),
        "Name Name(\"SCALAR\") Scalar Name(\"VEC2\") Vec2 Name(\"VEC3\") Vec3 Name(\"VEC4\") Vec4 Name(\"MAT2\") Mat2 Name(\"MAT3\") Mat3 Name(\"MAT4\") Mat4",
    )?;
    shows(
        listed::<Interpolation>(alloc),
        "Name Name(\"LINEAR\") Linear Name(\"STEP\") Step Name(\"CUBICSPLINE\") CubicSpline",
    )?;
    shows(
        listed::<Property>(alloc),
        "Name Name(\"translation\") Translation Name(\"rotation\") Rotation Name(\"scale\") Scale Name(\"weights\") MorphTargetWeights",
    )?;
    shows(
        listed::<CameraType>(alloc),
        "Name Name(\"perspective\") Perspective Name(\"orthographic\") Orthographic",
    )?;
    shows(
        listed::<LightType>(alloc),
        "Name Name(\"directional\") Directional Name(\"point\") Point Name(\"spot\") Spot",
    )?;
    shows(
        listed::<AlphaMode>(alloc),
        "Name Name(\"OPAQUE\") Opaque Name(\"MASK\") Mask Name(\"BLEND\") Blend",
    )?;
    Ok(())
}

/// The sizes of components, in the order of their numbers.
fn sizes() -> [usize; 6] {
    [
        ComponentType::I8.size(),
        ComponentType::U8.size(),
        ComponentType::I16.size(),
        ComponentType::U16.size(),
        ComponentType::U32.size(),
        ComponentType::F32.size(),
    ]
}

/// How many components the types of accessors have.
fn multiplicities() -> [usize; 7] {
    [
        AccessorType::Scalar.multiplicity(),
        AccessorType::Vec2.multiplicity(),
        AccessorType::Vec3.multiplicity(),
        AccessorType::Vec4.multiplicity(),
        AccessorType::Mat2.multiplicity(),
        AccessorType::Mat3.multiplicity(),
        AccessorType::Mat4.multiplicity(),
    ]
}

#[test]
fn components_have_sizes() -> Result<(), Fail> {
    holds(sizes() == [1, 1, 2, 2, 4, 4], "sizes of components")?;
    holds(
        multiplicities() == [1, 2, 3, 4, 4, 9, 16],
        "components of types",
    )
}

/// What choices hold that have a default, and how numbers of no item are read.
fn defaults(alloc: Global) -> Result<String, AllocError> {
    let (interpolation, alpha) = (Interpolation::default(), AlphaMode::default());
    let (mode, wrapping) = (Mode::default(), WrappingMode::default());
    let past = (
        GenericComponentType::from_gl_enum(4294972416),
        Mode::from_gl_enum(4294967296),
    );
    format!(in alloc; "{interpolation:?} {alpha:?} {mode:?} {wrapping:?} {past:?}")
}

#[test]
fn choices_have_defaults(rt: HostRuntime) -> Result<(), Fail> {
    shows(
        defaults(rt.alloc()),
        "Linear Opaque Triangles Repeat (Invalid, Invalid)",
    )?;
    Ok(())
}

/// A choice by numbers, one by names, and a number of no item, as they are printed.
fn checked_shown(alloc: Global) -> Result<String, AllocError> {
    let (target, alpha) = (Checked::Valid(Target::ArrayBuffer), AlphaMode::Mask);
    let past = Mode::from_gl_enum(7);
    format!(in alloc; "{target} {alpha} {past}")
}

#[test]
fn choices_are_printed_as_spelled(rt: HostRuntime) -> Result<(), Fail> {
    shows(checked_shown(rt.alloc()), "34962 MASK <invalid>")?;
    Ok(())
}
