//! Reads a document, prints its faults, and follows the index from each accessor to its view.
#![tactic(auto)]

use anyhow::Result;
use gltf_json::Root;
use gltf_json::path::Steps;
use gltf_json::validation::{Collect, Validate};
use std::fs;

pub fn main(rt: HostRuntime) -> Result<()> {
    let bytes = fs::read(&rt, "first.gltf")?;
    let root = Root::from_slice(rt.alloc(), &bytes)?;
    let mut faults = Collect::new(rt.alloc());
    root.validate(&root, &mut Steps::new(), &mut faults)?;
    for (path, error) in faults.reports() {
        println!(rt; "{path}: {error}")?;
    }
    for accessor in &root.accessors {
        match accessor.buffer_view.and_then(|index| root.get(index)) {
            Some(view) => println!(rt; "a view of {} bytes", view.byte_length.0)?,
            None => println!(rt; "no view")?,
        }
    }
    Ok(())
}
