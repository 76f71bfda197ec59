//! Loads each file that is named: `loader PATH..` reads `.gltf` and `.glb` files with the buffers
//! that they name. It prints the nodes of each scene with their positions in the world, and of each
//! primitive how many vertices and indices it has and the box around its vertices.
#![tactic(auto)]

ghost use Rattle.gltf_layout.specs.Layouts.{layout_places};
ghost use Rattle.gltf_layout.specs.Places.{ArePlaces};
ghost use Rattle.gltf_load.specs.Documents.{stored_in};

use anyhow::{Result, ensure};
use gltf_json::{Node, Root, Scene};
use gltf_load::{
    Accessor, Accessors, Buffers, Document, Folder, Forest, Glb, Layout, Reader, is_scene_of,
    local_matrix,
};
use std::alloc::{AllocError, Global};
use std::{env, fs};

/// The most bytes that the buffers of a file may have.
const MOST_BYTES: u64 = 1 << 30;

/// The most elements that an accessor may have of which the file has no bytes.
const MOST_ZEROS: u64 = 1 << 24;

/// The matrix that changes nothing.
const IDENTITY: [f32; 16] = [
    1.0, 0.0, 0.0, 0.0, 0.0, 1.0, 0.0, 0.0, 0.0, 0.0, 1.0, 0.0, 0.0, 0.0, 0.0, 1.0,
];

pub fn main(rt: HostRuntime) -> Result<()> {
    for path in env::args(&rt)?.skip(1) {
        println!(rt; "{path}")?;
        load(&rt, &path)?;
    }
    Ok(())
}

/// Loads a file, and prints what is in it.
fn load<'a>(rt: &'a HostRuntime, path: &'a str) -> Result<()> {
    let alloc = rt.alloc();
    let file = fs::read(rt, path)?;
    let (json, bin) = parts_of(&file)?;
    let root = Root::from_slice(alloc, json)?;
    let document = Document::of(&root);
    let forest = Forest::of(alloc, &document)?;
    let layout = Layout::of(alloc, &document)?;
    // The file bounds all other counts: loops over such elements could run for years.
    ensure!(
        layout.most_zeros() <= MOST_ZEROS,
        "an accessor without a buffer view has more than {MOST_ZEROS} elements"
    );
    let mut folder = Folder::new(rt, folder_of(path), MOST_BYTES);
    let buffers = Buffers::of(alloc, &document, bin, &mut folder)?;
    print_document(rt, &root, &forest, &layout, &buffers)
}

/// Prints the scenes and the meshes of a document, whose own layout this is.
fn print_document(
    rt: &HostRuntime,
    root: &Root,
    forest: &Forest,
    layout: &Layout,
    buffers: &Buffers<'_>,
) -> Result<()>
    requires { ArePlaces (stored_in root.now.buffers.items root.now.buffer_views.items
        root.now.accessors.items) (layout_places layout.now) }
{
    print_scenes(rt, root, forest)?;
    print_meshes(rt, root, layout, buffers)
}

/// The document in a file, and the data of its first buffer, if that is in it too.
fn parts_of(file: &[u8]) -> Result<(&[u8], Option<&[u8]>)> {
    if !file.starts_with(b"glTF") {
        return Ok((file, None));
    }
    let glb = Glb::from_slice(file)?;
    Ok((glb.json, glb.bin))
}

/// The folder that a file is in, to which the URIs of its buffers are relative.
fn folder_of(path: &str) -> &str {
    match path.rsplit_once('/') {
        Some(("", _)) => "/",
        Some((folder, _)) => folder,
        None => "",
    }
}

/// The matrix of each node from its own space to that of the world (glTF 2.0, section 3.5.3).
fn world_matrices(
    alloc: Global,
    nodes: &[Node],
    forest: &Forest,
) -> Result<Vec<[f32; 16]>, AllocError> {
    let mut matrices = vec![in alloc; IDENTITY; nodes.len()]?;
    for number in forest.order() {
        let Some(node) = nodes.get(*number as usize) else {
            continue;
        };
        let above = match forest.parent(*number) {
            Some(parent) => matrices.get(parent as usize).copied(),
            None => None,
        };
        let matrix = product(&above.unwrap_or(IDENTITY), &local_matrix(node));
        if let Some(place) = matrices.get_mut(*number as usize) {
            *place = matrix;
        }
    }
    Ok(matrices)
}

/// The product of two matrices, of which each is four columns.
fn product(left: &[f32; 16], right: &[f32; 16]) -> [f32; 16] {
    let mut product = [0.0; 16];
    for column in 0..4 {
        for row in 0..4 {
            let mut sum = 0.0;
            for k in 0..4 {
                sum += left[4 * k + row] * right[4 * column + k];
            }
            product[4 * column + row] = sum;
        }
    }
    product
}

/// Prints the nodes of each scene.
fn print_scenes(rt: &HostRuntime, root: &Root, forest: &Forest) -> Result<()> {
    let matrices = world_matrices(rt.alloc(), &root.nodes, forest)?;
    for scene in &root.scenes {
        print_scene(rt, scene, &root.nodes, forest, &matrices)?;
    }
    Ok(())
}

/// Prints the nodes of a scene, each behind its parent.
fn print_scene(
    rt: &HostRuntime,
    scene: &Scene,
    nodes: &[Node],
    forest: &Forest,
    matrices: &[[f32; 16]],
) -> Result<()> {
    ensure!(
        is_scene_of(forest, scene),
        "a scene lists a node that is no root"
    );
    println!(rt; "  scene {}", scene.name.as_deref().unwrap_or("(unnamed)"))?;
    for number in nodes_of(rt.alloc(), scene, forest)? {
        let node = nodes.get(number as usize);
        let name = node
            .and_then(|node| node.name.as_deref())
            .unwrap_or("(unnamed)");
        if let Some(matrix) = matrices.get(number as usize) {
            let (x, y, z) = (matrix[12], matrix[13], matrix[14]);
            println!(rt; "    node {name} at {x} {y} {z}")?;
        }
    }
    Ok(())
}

/// The nodes that a scene lists and all nodes below these, each behind its parent.
fn nodes_of(alloc: Global, scene: &Scene, forest: &Forest) -> Result<Vec<u32>, AllocError> {
    let order = forest.order();
    let mut is_inside = vec![in alloc; false; order.len()]?;
    for root in &scene.nodes {
        if let Some(mark) = is_inside.get_mut(root.value()) {
            *mark = true;
        }
    }
    let mut nodes = Vec::new(alloc);
    for number in order {
        let top = forest.parent(*number).unwrap_or(*number);
        if is_inside.get(top as usize) == Some(&true) {
            if let Some(mark) = is_inside.get_mut(*number as usize) {
                *mark = true;
            }
            nodes.push(*number)?;
        }
    }
    Ok(nodes)
}

/// Prints the primitives of each mesh.
fn print_meshes<'a>(
    rt: &HostRuntime,
    root: &'a Root,
    layout: &'a Layout,
    buffers: &'a Buffers<'a>,
) -> Result<()>
    requires { ArePlaces (stored_in root.now.buffers.items root.now.buffer_views.items
        root.now.accessors.items) (layout_places layout.now) }
{
    let document = Document::of(root);
    let accessors = Accessors::of(&document, layout, buffers);
    for mesh in &root.meshes {
        println!(rt; "  mesh {}", mesh.name.as_deref().unwrap_or("(unnamed)"))?;
        for primitive in &mesh.primitives {
            print_primitive(rt, &accessors.reader(primitive))?;
        }
    }
    Ok(())
}

/// Prints how many vertices and indices a primitive has, and the box around its vertices.
fn print_primitive(rt: &HostRuntime, reader: &Reader<'_>) -> Result<()> {
    let Some(positions) = reader.read_positions()? else {
        println!(rt; "    no vertices")?;
        return Ok(());
    };
    let vertices = positions.len();
    let mut count = 0;
    if let Some(indices) = reader.read_indices()? {
        indices.check_vertices(vertices, false)?;
        count = indices.len();
    }
    let ([x0, y0, z0], [x1, y1, z1]) = bounds(&positions);
    println!(rt;
        "    {vertices} vertices, {count} indices, from {x0} {y0} {z0} to {x1} {y1} {z1}"
    )?;
    Ok(())
}

/// The least and the greatest coordinates of positions.
fn bounds(positions: &Accessor<'_, f32, 3>) -> ([f32; 3], [f32; 3]) {
    let mut least = [f32::INFINITY; 3];
    let mut greatest = [f32::NEG_INFINITY; 3];
    for index in 0..positions.len() {
        let position = positions.get(index);
        for axis in 0..3 {
            least[axis] = least[axis].min(position[axis]);
            greatest[axis] = greatest[axis].max(position[axis]);
        }
    }
    (least, greatest)
}
