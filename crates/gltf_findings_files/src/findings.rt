//! All findings of a file.

ghost use Rattle.std.specs.Prelude.{◌≡◌, ◌≤◌, ◌++◌, length, IfOk, OnOk};
ghost use Rattle.gltf_findings_files.specs.Chunks.{start};
ghost use Rattle.gltf_findings_files.specs.Findings.{glb_findings, chunk_findings};

use crate::chunk::{Before, Chunk, number_at};
use crate::finding::{GlbFinding, add_found, broken};
use crate::rules::Lengths;
use gltf_findings_codes::Code;
use std::alloc::{AllocError, Global};

/// `glTF` as a number of four bytes, the least first.
const MAGIC: u32 = 0x46546C67;

/// The findings of a `.glb` file, from its start to its end.
#[derive(Debug, Drop)]
pub struct GlbFindings {
    found: Vec<GlbFinding>,
}

impl GlbFindings {
    ghost use Rattle.std.specs.Prelude.{IfOk};
    ghost use Rattle.gltf_findings_files.specs.Findings.{found_in, glb_findings};

    /// Returns what is wrong with the container in these bytes, which may be any: its header, and
    /// its chunks in order (glTF 2.0, section 4.4). A finding after which no chunk can be read is
    /// the last one. It takes time and memory in proportion to the number of chunks, and does not
    /// recurse. Fails only if out of memory.
    pub fn of(alloc: Global, bytes: &[u8]) -> Result<GlbFindings, AllocError>
        ensures { IfOk result (λ findings. found_in findings ≡ glb_findings bytes.now) }
    {
        let mut found = Vec::new(alloc);
        add_findings(&mut found, bytes)?;
        Ok(GlbFindings { found })
    }

    /// Returns the findings in order.
    pub fn as_slice(&self) -> &[GlbFinding]
        ensures { result.now ≡ found_in self.now }
    {
        &self.found
    }
}

/// Adds the findings of a file. This and the calls below fail only if out of memory.
fn add_findings(to: &mut Vec<GlbFinding>, bytes: &[u8]) -> Result<(), AllocError>
    ensures { OnOk result (to.new.items ≡ to.old.items ++ glb_findings bytes.now) }
{
    if bytes.len() < 12 {
        return add_found(
            to,
            &[broken(true, Code::GlbUnexpectedEndOfHeader, bytes.len())],
        );
    }
    if number_at(bytes, 0) != MAGIC {
        return add_found(to, &[broken(true, Code::GlbInvalidMagic, 0)]);
    }
    if number_at(bytes, 4) != 2 {
        return add_found(to, &[broken(true, Code::GlbInvalidVersion, 4)]);
    }
    let declared = number_at(bytes, 8) as usize;
    if declared < 20 {
        return add_found(to, &[broken(true, Code::GlbLengthTooSmall, 8)]);
    }
    let actual = bytes.len();
    add_chunks(to, bytes, Lengths { declared, actual })
}

/// Adds the findings of the chunks, which begin behind the header.
fn add_chunks(to: &mut Vec<GlbFinding>, bytes: &[u8], lengths: Lengths) -> Result<(), AllocError>
    requires has_header { 12 ≤ length bytes.now }
    requires actual { lengths.actual ≡ length bytes.now }
    ensures { OnOk result (to.new.items
        ≡ to.old.items ++ chunk_findings (length bytes.now) lengths bytes.now start 12) }
{
    let mut before = Before::start();
    let mut offset = 12;
    while !lengths.is_at_end(offset) {
        let chunk = Chunk::at(bytes, offset);
        add_found(to, &lengths.chunk_rules(before, chunk))?;
        if lengths.is_last(chunk) {
            return Ok(());
        }
        before = before.after(chunk.kind);
        offset = chunk.end();
    }
    add_found(to, &lengths.end_rules(offset))?;
    Ok(())
}
