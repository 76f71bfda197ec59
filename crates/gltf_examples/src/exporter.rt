//! Writes a binary file with one triangle, made from nothing: its indices and its positions are in
//! the BIN chunk.
#![tactic(auto)]

use anyhow::{Result, ensure};
use gltf_json::accessor::{ComponentType, Type};
use gltf_json::buffer::{Target, View};
use gltf_json::mesh::{Primitive, Semantic};
use gltf_json::validation::{Checked, USize64};
use gltf_json::{Accessor, Buffer, Index, Mesh, Node, Root, Scene};
use gltf_load::Glb;
use serde_json::json;
use std::alloc::Global;
use std::collections::BTreeMap;
use std::fs;

const FILE: &str = "exported.glb";

/// The corners, in the order in which they are drawn.
const INDICES: [u16; 3] = [0, 1, 2];

/// Where the corners are.
const POSITIONS: [[f32; 3]; 3] = [[0.0, 0.0, 0.0], [1.0, 0.0, 0.0], [0.0, 1.0, 0.0]];

/// Where the positions begin in the buffer: behind the indices, at a multiple of 4.
const POSITIONS_OFFSET: u64 = 8;

/// The bytes of the buffer.
fn data(alloc: Global) -> Result<Vec<u8>> {
    let mut bytes = Vec::new(alloc);
    for index in INDICES {
        bytes.extend_from_slice(&index.to_le_bytes())?;
    }
    bytes.extend_from_slice(&[0, 0])?;
    for position in POSITIONS {
        for coordinate in position {
            ensure!(coordinate.is_finite(), "a coordinate is NaN or infinite");
            bytes.extend_from_slice(&coordinate.to_le_bytes())?;
        }
    }
    Ok(bytes)
}

/// A part of the buffer.
fn view(buffer: Index<Buffer>, offset: u64, length: u64, target: Target) -> View {
    let mut view = View::new(buffer, length);
    view.byte_offset = Some(USize64(offset));
    view.target = Some(Checked::Valid(target));
    view
}

/// Three elements that are the whole of a view.
fn three(view: Index<View>, component: ComponentType, type_: Type) -> Accessor {
    let mut accessor = Accessor::new(3, component, type_);
    accessor.buffer_view = Some(view);
    accessor
}

/// Pushes the indices, which are at the front of the buffer.
fn push_indices(root: &mut Root, buffer: Index<Buffer>) -> Result<Index<Accessor>> {
    let order = root.push(view(buffer, 0, 6, Target::ElementArrayBuffer))?;
    Ok(root.push(three(order, ComponentType::U16, Type::Scalar))?)
}

/// Pushes the positions, which are behind the indices.
fn push_positions(
    alloc: Global,
    root: &mut Root,
    buffer: Index<Buffer>,
) -> Result<Index<Accessor>> {
    let corners = root.push(view(buffer, POSITIONS_OFFSET, 36, Target::ArrayBuffer))?;
    let mut positions = three(corners, ComponentType::F32, Type::Vec3);
    positions.min = Some(json!(in alloc; [0, 0, 0])?);
    positions.max = Some(json!(in alloc; [1, 1, 0])?);
    Ok(root.push(positions)?)
}

/// Triangles between these positions.
fn triangles(
    alloc: Global,
    indices: Index<Accessor>,
    positions: Index<Accessor>,
) -> Result<Primitive> {
    let mut attributes = BTreeMap::new(alloc);
    attributes.insert(Checked::Valid(Semantic::Positions), positions)?;
    let mut primitive = Primitive::new(attributes);
    primitive.indices = Some(indices);
    Ok(primitive)
}

/// Pushes a mesh that is the triangle, whose buffer has so many bytes.
fn push_mesh(alloc: Global, root: &mut Root, length: u64) -> Result<Index<Mesh>> {
    let buffer = root.push(Buffer::new(length))?;
    let indices = push_indices(root, buffer)?;
    let positions = push_positions(alloc, root, buffer)?;
    let triangle = triangles(alloc, indices, positions)?;
    Ok(root.push(Mesh::new(vec![in alloc; triangle]?))?)
}

/// The document, whose buffer has so many bytes.
fn document(alloc: Global, length: u64) -> Result<Root> {
    let mut root = Root::new(alloc)?;
    let mut node = Node::new();
    node.name = Some(String::from_str(alloc, "triangle")?);
    node.mesh = Some(push_mesh(alloc, &mut root, length)?);
    let node = root.push(node)?;
    root.scene = Some(root.push(Scene::new(vec![in alloc; node]?))?);
    Ok(root)
}

pub fn main(rt: HostRuntime) -> Result<()> {
    let data = data(rt.alloc())?;
    let json = document(rt.alloc(), data.len() as u64)?.to_vec(rt.alloc())?;
    let file = Glb::to_vec(rt.alloc(), &json, Some(data.as_slice()))?;
    fs::write(&rt, FILE, &file)?;
    println!(rt; "{FILE}: {} bytes", file.len())?;
    Ok(())
}
