//! The rules for chunks and for the end of a file (glTF 2.0, sections 4.4.2 and 4.4.3).

ghost use Rattle.std.specs.Prelude.{◌≡◌, ◌<◌, ◌≤◌, ◌^◌};
ghost use Rattle.gltf_findings_files.specs.Rules.{is_at_end, end_rules, is_last, chunk_rules, is_first, is_second, is_repeated};

use crate::chunk::{BIN, Before, Chunk, ChunkRank, JSON};
use crate::finding::{GlbFinding, broken};
use gltf_findings_codes::Code;

/// The lengths of a file: the one that its header gives, and its own.
#[derive(Clone, Copy)]
pub struct Lengths {
    /// The length that the header gives.
    pub declared: usize,
    /// The number of bytes that there are.
    pub actual: usize,
}

impl Lengths {
    /// Whether no chunk begins at an offset.
    pub fn is_at_end(self, offset: usize) -> bool
        requires { offset < 2 ^ 63 }
        ensures { result ≡ is_at_end self offset }
    {
        // derived
        offset == self.declared || self.actual < offset + 8
    }

    /// The rules for the end of the chunks.
    pub fn end_rules(self, offset: usize) -> [Option<GlbFinding>; 3]
        ensures { result ≡ end_rules self offset }
    {
        // derived
        [
            broken(
                offset == self.declared && offset < self.actual,
                Code::GlbExtraData,
                offset,
            ),
            broken(
                offset != self.declared && self.actual <= offset,
                Code::GlbLengthMismatch,
                offset,
            ),
            broken(
                offset != self.declared && offset < self.actual,
                Code::GlbUnexpectedEndOfChunkHeader,
                self.actual,
            ),
        ]
    }

    /// Whether no chunk can be behind one.
    pub fn is_last(self, chunk: Chunk) -> bool
        requires { chunk.offset < 2 ^ 63 }
        ensures { result ≡ is_last self chunk }
    {
        // derived
        self.declared < chunk.end() || self.actual < chunk.end()
    }

    /// The rules for a chunk.
    pub fn chunk_rules(self, before: Before, chunk: Chunk) -> [Option<GlbFinding>; 9]
        requires { chunk.offset < 2 ^ 63 }
        ensures { result ≡ chunk_rules self before chunk }
    {
        // derived
        let is_json = chunk.kind == JSON;
        let is_bin = chunk.kind == BIN;
        [
            broken(
                chunk.size % 4 != 0,
                Code::GlbChunkLengthUnaligned,
                chunk.offset,
            ),
            broken(
                self.declared < chunk.end(),
                Code::GlbChunkTooBig,
                chunk.offset,
            ),
            broken(
                is_first(before.position) && !is_json,
                Code::GlbUnexpectedFirstChunk,
                chunk.offset,
            ),
            broken(
                !is_second(before.position) && is_bin,
                Code::GlbUnexpectedBinChunk,
                chunk.offset,
            ),
            broken(
                (is_json && before.has_json) || (is_bin && before.has_bin),
                Code::GlbDuplicateChunk,
                chunk.offset,
            ),
            broken(
                is_json && chunk.size == 0,
                Code::GlbEmptyChunk,
                chunk.offset,
            ),
            broken(
                is_bin && chunk.size == 0,
                Code::GlbEmptyBinChunk,
                chunk.offset,
            ),
            broken(!is_json && !is_bin, Code::GlbUnknownChunkType, chunk.offset),
            broken(
                self.actual < chunk.end(),
                Code::GlbUnexpectedEndOfChunkData,
                self.actual,
            ),
        ]
    }
}

/// Whether a chunk is the first one.
fn is_first(position: ChunkRank) -> bool
    ensures { result ≡ is_first position }
{
    // derived
    match position {
        ChunkRank::First => true,
        ChunkRank::Second | ChunkRank::Later => false,
    }
}

/// Whether a chunk is the second one.
fn is_second(position: ChunkRank) -> bool
    ensures { result ≡ is_second position }
{
    // derived
    match position {
        ChunkRank::First | ChunkRank::Later => false,
        ChunkRank::Second => true,
    }
}
