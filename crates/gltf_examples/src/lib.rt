//! Whole programs to copy: copied to `src/main.rt` of another crate, each module runs by itself. The
//! program `gltf_examples_run` runs them all, over the documents in its `data/`.
#![tactic(auto)]

mod builder;
mod checker;
mod exporter;
mod files;
mod findings;
mod glb;
mod levels;
mod linter;
mod loader;
mod stats;

use anyhow::Result;

/// Prints the name of the example that runs next.
fn announce(rt: &HostRuntime, name: &str) -> Result<()> {
    println!(rt; "# {name}")?;
    Ok(())
}

/// Runs each example in turn: those that take paths, over the paths that the program is given.
pub fn run(rt: HostRuntime) -> Result<()> {
    announce(&rt, "checker")?;
    checker::main(rt)?;
    announce(&rt, "exporter")?;
    exporter::main(rt)?;
    announce(&rt, "loader")?;
    loader::main(rt)?;
    announce(&rt, "stats")?;
    stats::main(rt)?;
    announce(&rt, "glb")?;
    glb::main(rt)?;
    announce(&rt, "builder")?;
    builder::main(rt)?;
    announce(&rt, "linter")?;
    linter::main(rt)?;
    announce(&rt, "levels")?;
    levels::main(rt)?;
    announce(&rt, "files")?;
    files::main(rt)?;
    announce(&rt, "findings")?;
    findings::main(rt)
}
