//! Counts what a document lists: `stats PATH` reads a `.gltf` or `.glb` file.
#![tactic(auto)]

use anyhow::{Context, Result};
use gltf_json::mesh::{Primitive, Semantic};
use gltf_json::validation::Checked;
use gltf_json::{Accessor, Index, Root};
use gltf_load::Glb;
use std::{env, fs};

/// The numbers of elements that the primitives of a document name, each time that they do.
#[derive(Clone, Copy)]
struct Counts {
    primitives: usize,
    vertices: u64,
    indices: u64,
}

impl Counts {
    /// Counts the primitives of all meshes.
    fn of(root: &Root) -> Counts {
        let mut counts = Counts {
            primitives: 0,
            vertices: 0,
            indices: 0,
        };
        for mesh in &root.meshes {
            for primitive in &mesh.primitives {
                counts.add(root, primitive);
            }
        }
        counts
    }

    /// Adds a primitive.
    fn add(&mut self, root: &Root, primitive: &Primitive) {
        let positions = primitive
            .attributes
            .get(&Checked::Valid(Semantic::Positions));
        let vertices = count(root, positions.copied());
        let indices = count(root, primitive.indices);
        self.primitives = self.primitives.saturating_add(1);
        self.vertices = self.vertices.saturating_add(vertices);
        self.indices = self.indices.saturating_add(indices);
    }
}

/// How many elements an accessor has, 0 if there is none.
fn count(root: &Root, accessor: Option<Index<Accessor>>) -> u64 {
    let accessor = accessor.and_then(|index| root.get(index));
    accessor.map_or(0, |accessor| accessor.count.0)
}

/// The text of a document: the JSON chunk of a binary file, or the whole file.
fn json_of(file: &[u8]) -> Result<&[u8]> {
    if file.starts_with(b"glTF") {
        Ok(Glb::from_slice(file)?.json)
    } else {
        Ok(file)
    }
}

pub fn main(rt: HostRuntime) -> Result<()> {
    for path in env::args(&rt)?.skip(1) {
        let file = fs::read(&rt, &path)?;
        let root = Root::from_slice(rt.alloc(), json_of(&file)?)?;
        println!(rt; "{path}")?;
        print_lists(&rt, &root)?;
        print_buffers(&rt, &root)?;
    }
    Ok(())
}

/// Prints how many items the lists have.
fn print_lists(rt: &HostRuntime, root: &Root) -> Result<()> {
    print_count(rt, "scenes", root.scenes.len())?;
    print_count(rt, "nodes", root.nodes.len())?;
    print_count(rt, "meshes", root.meshes.len())?;
    print_counts(rt, &Counts::of(root))?;
    print_count(rt, "materials", root.materials.len())?;
    print_count(rt, "textures", root.textures.len())?;
    print_count(rt, "animations", root.animations.len())
}

/// Prints what the primitives name.
fn print_counts(rt: &HostRuntime, counts: &Counts) -> Result<()> {
    print_count(rt, "primitives", counts.primitives)?;
    println!(rt; "  vertices: {}", counts.vertices)?;
    println!(rt; "  indices: {}", counts.indices)?;
    Ok(())
}

/// Prints how many there are of something.
fn print_count(rt: &HostRuntime, name: &str, count: usize) -> Result<()> {
    println!(rt; "  {name}: {count}")?;
    Ok(())
}

/// Prints how many bytes each buffer has, and all together.
fn print_buffers(rt: &HostRuntime, root: &Root) -> Result<()> {
    let mut total = 0u64;
    for (number, buffer) in root.buffers.iter().enumerate() {
        let length = buffer.byte_length.0;
        println!(rt; "  buffer {number}: {length} bytes")?;
        total = total
            .checked_add(length)
            .context("the buffers are too long")?;
    }
    println!(rt; "  buffers: {total} bytes")?;
    Ok(())
}
