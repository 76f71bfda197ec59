//! Prints every element of the accessors of each file that is named, and then what primitives,
//! skins and animations read of them. `tools/gen_elements.py` writes the files, and works out what
//! must be printed from the numbers that it packs.

ghost use Rattle.gltf_layout.specs.Layouts.{layout_places};
ghost use Rattle.gltf_layout.specs.Places.{ArePlaces};
ghost use Rattle.gltf_load.specs.Documents.{stored_in};

mod accessor;
mod number;
mod reads;

use accessor::print_accessor;
use anyhow::Result;
use gltf_load::{Accessors, Buffers, Document, Folder, Glb, Layout, LayoutError, LayoutFaults};
use gltf_root::root::Root;
use reads::{print_animation, print_primitive, print_skin};
use std::{env, fs};

/// The most bytes that the buffers of a file may have.
const MOST_BYTES: u64 = 1 << 20;

/// The document in a file, and the data of its first buffer, if that is in it too.
fn parts_of(file: &[u8]) -> Result<(&[u8], Option<&[u8]>)> {
    if !file.starts_with(b"glTF") {
        return Ok((file, None));
    }
    let glb = Glb::from_slice(file)?;
    Ok((glb.json, glb.bin))
}

/// Prints what is read of a file, or the faults of its layout.
fn print_file(rt: &HostRuntime, path: &str) -> Result<()> {
    let file = fs::read(rt, path)?;
    let (json, bin) = parts_of(&file)?;
    let root = Root::from_slice(rt.alloc(), json)?;
    let document = Document::of(&root);
    let layout = match Layout::of(rt.alloc(), &document) {
        Ok(layout) => layout,
        Err(LayoutError::Fault(_)) => return print_faults(rt, Document::of(&root)),
        Err(error) => return Err(error.into()),
    };
    let mut folder = Folder::new(rt, "", MOST_BYTES);
    let buffers = Buffers::of(rt.alloc(), &document, bin, &mut folder)?;
    print_document(rt, &root, &layout, &buffers)
}

/// Prints the elements of each accessor, and what the rest of the document reads of them.
fn print_document(
    rt: &HostRuntime,
    root: &Root,
    layout: &Layout,
    buffers: &Buffers<'_>,
) -> Result<()>
    requires { ArePlaces (stored_in root.now.buffers.items root.now.buffer_views.items
        root.now.accessors.items) (layout_places layout.now) }
{
    for (number, accessor) in root.accessors.iter().enumerate() {
        if let Some(place) = layout.place(number) {
            print_accessor(rt, buffers, place, number, accessor.normalized)?;
        }
    }
    print_readers(rt, root, layout, buffers)
}

/// Prints what the primitives, skins and animations of a document read.
fn print_readers<'a>(
    rt: &HostRuntime,
    root: &'a Root,
    layout: &'a Layout,
    buffers: &'a Buffers<'a>,
) -> Result<()>
    requires { ArePlaces (stored_in root.now.buffers.items root.now.buffer_views.items
        root.now.accessors.items) (layout_places layout.now) }
{
    let document = Document::of(root);
    let accessors = Accessors::of(&document, layout, buffers);
    for mesh in &root.meshes {
        for primitive in &mesh.primitives {
            println!(rt; "a primitive")?;
            print_primitive(rt, &accessors.reader(primitive), primitive)?;
        }
    }
    for skin in &root.skins {
        print_skin(rt, &accessors, skin)?;
    }
    for animation in &root.animations {
        print_animation(rt, &accessors, animation)?;
    }
    Ok(())
}

/// Prints every fault of a document that has no layout.
fn print_faults(rt: &HostRuntime, document: Document<'_>) -> Result<()> {
    let mut faults = LayoutFaults::of(document);
    // With `while let` a loop needs a measure, in a proof file.
    for _ in 0..u64::MAX {
        let Some(fault) = faults.next_fault() else {
            break;
        };
        println!(rt; "{fault}")?;
    }
    Ok(())
}

/// Prints what is read of each file that the program's arguments name, or why it can't be read.
pub fn print_elements(rt: &HostRuntime) -> Result<()> {
    for path in env::args(rt)?.skip(1) {
        println!(rt; "# {path}")?;
        if let Err(error) = print_file(rt, &path) {
            println!(rt; "fault: {error}")?;
        }
    }
    Ok(())
}
