//! Chunks (glTF 2.0, section 4.4.3), and what came before one.

ghost use Rattle.std.specs.Prelude.{◌≡◌, ◌+◌, ◌≤◌, ◌<◌, ◌^◌, length};
ghost use Rattle.gltf_findings_files.specs.Chunks.{number_at, chunk_at, end_of, next, start, after};

/// `JSON` and `BIN` with a zero, as numbers of four bytes, the least first.
pub const JSON: u32 = 0x4E4F534A;

pub const BIN: u32 = 0x004E4942;

/// The number in the four bytes at an offset, the least byte first.
pub fn number_at(bytes: &[u8], offset: usize) -> u32
    requires { offset + 4 ≤ length bytes.now }
    ensures { result ≡ number_at offset bytes.now }
{
    let rest = &bytes[offset..];
    let Some((front, _)) = rest.split_first_chunk::<4>() else {
        unreachable!()
    };
    u32::from_le_bytes(*front)
}

/// The header of a chunk.
#[derive(Clone, Copy)]
pub struct Chunk {
    /// Where the chunk begins.
    pub offset: usize,
    /// The length of its data.
    pub size: u32,
    /// Its type.
    pub kind: u32,
}

impl Chunk {
    /// The chunk at an offset.
    pub fn at(bytes: &[u8], offset: usize) -> Chunk
        requires { offset + 8 ≤ length bytes.now }
        ensures { result ≡ chunk_at offset bytes.now }
    {
        Chunk {
            offset,
            size: number_at(bytes, offset),
            kind: number_at(bytes, offset + 4),
        }
    }

    /// Where the chunk ends.
    pub fn end(self) -> usize
        requires { self.offset < 2 ^ 63 }
        ensures { result ≡ end_of self }
    {
        self.offset + 8 + self.size as usize
    }
}

/// Where a chunk is among the others.
#[derive(Clone, Copy, PartialEq, Eq)]
pub enum ChunkRank {
    /// It is the first one.
    First,
    /// It is the second one.
    Second,
    /// It is a later one.
    Later,
}

impl ChunkRank {
    /// The position of the chunk behind.
    fn next(self) -> ChunkRank
        ensures { result ≡ next self }
    {
        // derived
        match self {
            ChunkRank::First => ChunkRank::Second,
            ChunkRank::Second | ChunkRank::Later => ChunkRank::Later,
        }
    }
}

/// What came before a chunk.
#[derive(Clone, Copy)]
pub struct Before {
    /// Where the chunk is.
    pub position: ChunkRank,
    /// A chunk before it is of type JSON.
    pub has_json: bool,
    /// A chunk before it is of type BIN.
    pub has_bin: bool,
}

impl Before {
    /// What came before the first chunk.
    pub fn start() -> Before
        ensures { result ≡ start }
    {
        // derived
        Before {
            position: ChunkRank::First,
            has_json: false,
            has_bin: false,
        }
    }

    /// What came before the chunk behind one of a type.
    pub fn after(self, kind: u32) -> Before
        ensures { result ≡ after self kind }
    {
        // derived
        Before {
            position: self.position.next(),
            has_json: self.has_json || kind == JSON,
            has_bin: self.has_bin || kind == BIN,
        }
    }
}
