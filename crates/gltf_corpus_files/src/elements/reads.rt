//! What primitives, skins and animations read.

ghost use Rattle.std.specs.Prelude.{◌≤◌};

use anyhow::Result;
use gltf_base::validation::Checked;
use gltf_load::{Accessor, Accessors, Colors, Joints, Outputs, PrimitiveIndices, Reader, Vectors};
use gltf_scene::animation::Animation;
use gltf_scene::mesh::{MorphTarget, Primitive};
use gltf_scene::skin::Skin;
use std::fmt::Write;

/// How many sets of an attribute are read.
const SETS: u32 = 2;

/// Prints the attributes, the indices and the morph targets of a primitive.
pub fn print_primitive(rt: &HostRuntime, reader: &Reader<'_>, primitive: &Primitive) -> Result<()> {
    print_floats(rt, "positions", reader.read_positions()?)?;
    print_floats(rt, "normals", reader.read_normals()?)?;
    print_floats(rt, "tangents", reader.read_tangents()?)?;
    for set in 0..SETS {
        print_set(rt, reader, set)?;
    }
    print_indices(rt, reader.read_indices()?)?;
    if let Some(targets) = &primitive.targets {
        for target in targets {
            print_target(rt, &reader.accessors(), target)?;
        }
    }
    Ok(())
}

/// Prints the attributes of a set.
fn print_set(rt: &HostRuntime, reader: &Reader<'_>, set: u32) -> Result<()> {
    print_vectors(rt, "texture coordinates", reader.read_tex_coords(set)?)?;
    print_colors(rt, reader.read_colors(set)?)?;
    print_joints(rt, reader.read_joints(set)?)?;
    print_vectors(rt, "weights", reader.read_weights(set)?)
}

/// Prints what a morph target adds.
fn print_target(rt: &HostRuntime, accessors: &Accessors<'_>, target: &MorphTarget) -> Result<()> {
    print_floats(
        rt,
        "target positions",
        accessors.read_morph_positions(target)?,
    )?;
    print_floats(rt, "target normals", accessors.read_morph_normals(target)?)?;
    print_floats(
        rt,
        "target tangents",
        accessors.read_morph_tangents(target)?,
    )
}

/// Prints the inverse bind matrices of a skin.
pub fn print_skin(rt: &HostRuntime, accessors: &Accessors<'_>, skin: &Skin) -> Result<()> {
    print_floats(
        rt,
        "inverse bind matrices",
        accessors.read_inverse_bind_matrices(skin)?,
    )
}

/// Prints the keyframes of each channel of an animation.
pub fn print_animation(
    rt: &HostRuntime,
    accessors: &Accessors<'_>,
    animation: &Animation,
) -> Result<()> {
    for channel in &animation.channels {
        let (Some(sampler), Checked::Valid(property)) = (
            animation.samplers.get(channel.sampler.value()),
            channel.target.path,
        ) else {
            continue;
        };
        print_floats(rt, "times", Some(accessors.read_inputs(sampler)?))?;
        match accessors.read_outputs(sampler, property)? {
            Outputs::Translations(floats) => print_floats(rt, "translations", Some(floats))?,
            Outputs::Rotations(vectors) => print_vectors(rt, "rotations", Some(vectors))?,
            Outputs::Scales(floats) => print_floats(rt, "scales", Some(floats))?,
            Outputs::MorphWeights(vectors) => print_vectors(rt, "morph weights", Some(vectors))?,
        }
    }
    Ok(())
}

/// Prints elements of N floats, if there are some, each on a line.
fn print_floats<const N: usize>(
    rt: &HostRuntime,
    name: &str,
    floats: Option<Accessor<'_, f32, N>>,
) -> Result<()>
    requires { N ≤ 16 }
{
    let Some(floats) = floats else {
        return Ok(());
    };
    println!(rt; "{name}")?;
    for index in 0..floats.len() {
        print_row(rt, &floats.get(index))?;
    }
    Ok(())
}

/// Prints elements of N floats, which may be stored as integers, if there are some.
fn print_vectors<const N: usize>(
    rt: &HostRuntime,
    name: &str,
    vectors: Option<Vectors<'_, N>>,
) -> Result<()>
    requires { N ≤ 16 }
{
    let Some(vectors) = vectors else {
        return Ok(());
    };
    println!(rt; "{name}")?;
    for index in 0..vectors.len() {
        print_row(rt, &vectors.get(index))?;
    }
    Ok(())
}

/// Prints colors, if there are some, each on a line.
fn print_colors(rt: &HostRuntime, colors: Option<Colors<'_>>) -> Result<()> {
    let Some(colors) = colors else {
        return Ok(());
    };
    println!(rt; "colors")?;
    for index in 0..colors.len() {
        print_row(rt, &colors.get(index))?;
    }
    Ok(())
}

/// Prints the joints of each vertex, if there are some, on a line.
fn print_joints(rt: &HostRuntime, joints: Option<Joints<'_>>) -> Result<()> {
    let Some(joints) = joints else {
        return Ok(());
    };
    println!(rt; "joints")?;
    for index in 0..joints.len() {
        let [a, b, c, d] = joints.get(index);
        println!(rt; "{a} {b} {c} {d}")?;
    }
    Ok(())
}

/// Prints indices, if there are some, each on a line.
fn print_indices(rt: &HostRuntime, indices: Option<PrimitiveIndices<'_>>) -> Result<()> {
    let Some(indices) = indices else {
        return Ok(());
    };
    println!(rt; "indices")?;
    for place in 0..indices.len() {
        println!(rt; "{}", indices.get(place))?;
    }
    Ok(())
}

/// Prints the components of an element.
fn print_row<const N: usize>(rt: &HostRuntime, numbers: &[f32; N]) -> Result<()>
    requires { N ≤ 16 }
{
    let mut line = String::new(rt.alloc());
    for number in numbers {
        write!(line, "{}{number}", if line.is_empty() { "" } else { " " })?;
    }
    println!(rt; "{line}")?;
    Ok(())
}
