//! Reads a document through a reader, prints one report after the other, and counts them. Takes a push
//! back, writes through a writer, and finds the place at which another document is refused.
#![tactic(auto)]

use anyhow::Result;
use gltf_json::path::{Path, Steps};
use gltf_json::root::{Get, Watched};
use gltf_json::validation::{Count, Validate, Walk};
use gltf_json::{Node, Root};
use std::fs;

const NO_COUNT: &str = "{\"asset\": {\"version\": \"2.0\"}, \"accessors\": [{\"type\": \"VEC3\"}]}";

/// Prints the reports of a document, one after the other, and how many there are.
fn print_reports(rt: &HostRuntime, root: &Root) -> Result<()> {
    let mut walk = Walk::new(root);
    // With `while let` a loop needs a measure, in a proof file.
    for _ in 0..u64::MAX {
        let Some(error) = walk.next_report() else {
            break;
        };
        println!(rt; "{}: {error}", Path::of(rt.alloc(), walk.steps())?)?;
    }
    let mut count = Count::new();
    if root.validate(root, &mut Steps::new(), &mut count).is_ok() {
        println!(rt; "{} reports", count.count())?;
    }
    Ok(())
}

/// Adds a node, and takes it back.
fn push_and_undo(root: &mut Root) -> Result<()> {
    let before = Get::<Node>::mark(root);
    root.push(Node::new())?;
    Get::<Node>::undo_push(root, before);
    Ok(())
}

/// Writes a document through a writer.
fn write(rt: &HostRuntime, root: &Root) -> Result<()> {
    let mut writer = Watched::new(rt.stdout());
    root.to_writer(rt.alloc(), &mut writer)?;
    println!(rt; "")?;
    Ok(())
}

/// Prints why a text is no document, and the place that is refused.
fn print_refusal(rt: &HostRuntime, text: &str) -> Result<()> {
    if let Err(error) = Root::from_str(rt.alloc(), text) {
        println!(rt; "{error}")?;
    }
    if let Some(place) = Root::refused_at(rt.alloc(), text.as_bytes())? {
        println!(rt; "refused at {place}")?;
    }
    Ok(())
}

pub fn main(rt: HostRuntime) -> Result<()> {
    let mut reader = Watched::new(fs::open(&rt, "textures.gltf")?);
    let mut root = Root::from_reader(rt.alloc(), &mut reader)?;
    print_reports(&rt, &root)?;
    push_and_undo(&mut root)?;
    write(&rt, &root)?;
    print_refusal(&rt, NO_COUNT)
}
