//! Checks files against the specification of glTF 2.0: a whole file, and then each of its parts by
//! itself: the members of the JSON, the document that they make, the container of a `.glb` file.
#![tactic(auto)]

use anyhow::Result;
use gltf_findings::Findings;
use gltf_findings_files::GlbFindings;
use gltf_findings_lines::{Checker, Choices, File, FindingOptions, LineFormat, Style};
use gltf_findings_members::Notices;
use gltf_json::Root;
use gltf_schema::Outline;
use serde_json::Value;
use std::fs;

/// All findings, by the severities of the validator, as lines of text.
const ALL: FindingOptions<'static> = FindingOptions {
    choices: Choices {
        severities: &[],
        ignored: &[],
    },
    style: Style::Lines(LineFormat::Text),
    positions_up_to: u64::MAX,
    most: u64::MAX,
};

/// Prints all findings of a file.
fn print_whole(rt: &HostRuntime, file: &[u8]) -> Result<()> {
    let alloc = rt.alloc();
    let whole = File {
        name: "camera.gltf",
        bytes: file,
        is_container: false,
    };
    let found = Checker::new(alloc)?.check(alloc, &ALL, &whole)?;
    print!(rt; "{}", found.lines)?;
    Ok(())
}

/// Prints what is wrong with the members of a JSON text.
fn print_notices(rt: &HostRuntime, text: &[u8]) -> Result<()> {
    let json = Value::from_slice(rt.alloc(), text)?;
    let outline = Outline::of::<Root>(rt.alloc())?;
    for notice in Notices::of(rt.alloc(), &outline, &json)?.as_slice() {
        println!(rt; "{notice}")?;
    }
    Ok(())
}

/// Prints what the specification requires and a document doesn't have.
fn print_findings(rt: &HostRuntime, root: &Root) -> Result<()> {
    for finding in Findings::of(rt.alloc(), root)?.as_slice() {
        println!(rt; "{}: {}", finding.place.pointer(rt.alloc())?, finding.code)?;
    }
    Ok(())
}

/// Prints what is wrong with the container of a `.glb` file.
fn print_container(rt: &HostRuntime, file: &[u8]) -> Result<()> {
    for finding in GlbFindings::of(rt.alloc(), file)?.as_slice() {
        println!(rt; "byte {}: {}", finding.offset, finding.code)?;
    }
    Ok(())
}

pub fn main(rt: HostRuntime) -> Result<()> {
    let file = fs::read(&rt, "camera.gltf")?;
    print_whole(&rt, &file)?;
    print_notices(&rt, &file)?;
    print_findings(&rt, &Root::from_slice(rt.alloc(), &file)?)?;
    print_container(&rt, &fs::read(&rt, "triangle.glb")?)
}
