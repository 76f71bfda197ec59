//! Cases of `.glb` files.

use super::Cases;
use anyhow::{Context, Result};
use gltf_findings_files::GlbFindings;
use serde_json::Value;
use std::alloc::Global;
use std::fmt::Write;

/// Adds the bytes of a part of a file.
fn add_part(bytes: &mut Vec<u8>, part: &Value) -> Result<()> {
    match part.as_str() {
        Some(text) => bytes.extend_from_slice(text.as_bytes())?,
        None => {
            let number = part.as_u64().context("no text and no number")?;
            let number = u32::try_from(number)?;
            bytes.extend_from_slice(&number.to_le_bytes())?;
        }
    }
    Ok(())
}

/// The bytes of the file of a case.
fn bytes_of(alloc: Global, case: &Value) -> Result<Vec<u8>> {
    let parts = case
        .get("file")
        .and_then(Value::as_array)
        .context("no file")?;
    let mut bytes = Vec::new(alloc);
    for part in parts.as_slice() {
        add_part(&mut bytes, part)?;
    }
    Ok(bytes)
}

/// The findings of `.glb` files.
#[derive(Clone, Copy)]
pub struct Files;

impl Cases for Files {
    fn lines(&mut self, alloc: Global, case: &Value) -> Result<String> {
        let findings = GlbFindings::of(alloc, bytes_of(alloc, case)?.as_slice())?;
        let mut lines = String::new(alloc);
        for finding in findings.as_slice() {
            writeln!(lines, "{} {}", finding.code.name(), finding.offset)?;
        }
        Ok(lines)
    }
}

/// How many findings a file has that is made of so many empty chunks of an extension.
pub fn count_of_chunks(alloc: Global, count: u32) -> Result<usize> {
    let mut bytes = Vec::new(alloc);
    let length = count.saturating_mul(8).saturating_add(12);
    bytes.extend_from_slice(b"glTF\x02\x00\x00\x00")?;
    bytes.extend_from_slice(&length.to_le_bytes())?;
    for _ in 0..count {
        bytes.extend_from_slice(b"\x00\x00\x00\x00EXT0")?;
    }
    Ok(GlbFindings::of(alloc, bytes.as_slice())?.as_slice().len())
}
