//! Reads a binary file (glTF 2.0, section 4.4): the document in its first chunk, and the bytes of
//! its first buffer in the second.
#![tactic(auto)]

use anyhow::{Context, Result, ensure};
use gltf_json::Root;
use gltf_load::Glb;
use std::fs;

pub fn main(rt: HostRuntime) -> Result<()> {
    let file = fs::read(&rt, "triangle.glb")?;
    let glb = Glb::from_slice(&file)?;
    let root = Root::from_slice(rt.alloc(), glb.json)?;
    let buffer = root.buffers.first().context("no buffer")?;
    ensure!(buffer.uri.is_none(), "the buffer isn't in the file");
    let binary = glb.bin.context("no data")?;
    println!(rt;
        "{} bytes of JSON, {} of data",
        glb.json.len(),
        binary.len()
    )?;
    println!(rt;
        "{} meshes, {} accessors",
        root.meshes.len(),
        root.accessors.len()
    )?;
    Ok(())
}
