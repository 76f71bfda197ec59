//! What can be wrong with a container.

use thiserror::Error;

/// What is wrong with a file: the first fault from the left.
#[derive(Clone, Copy, Debug, PartialEq, Eq, Error)]
pub enum GlbError {
    /// The file is shorter than its header of 12 bytes.
    #[error("the header is cut off")]
    HeaderCutOff,
    /// The file does not begin with the letters `glTF`.
    #[error("the file does not begin with glTF")]
    NoMagic,
    /// The version of the container, which is not 2.
    #[error("version {0} of the container, not 2")]
    Version(u32),
    /// The length that the header gives, which is not that of the file.
    #[error("the header gives a length of {0} bytes, the file has another")]
    Length(u32),
    /// Behind the last chunk are bytes, but fewer than the 8 of a chunk's header.
    #[error("the header of a chunk is cut off")]
    ChunkHeaderCutOff,
    /// The length of a chunk, which is no multiple of 4.
    #[error("the length of a chunk is {0} bytes, no multiple of 4")]
    ChunkUnaligned(u32),
    /// The length of a chunk, which is more than the bytes that are left.
    #[error("a chunk of {0} bytes is cut off")]
    ChunkCutOff(u32),
    /// The type of the first chunk, which is not `JSON`.
    #[error("the first chunk is not of type JSON")]
    FirstChunk(u32),
    /// The JSON chunk ends with a zero. It may be padded with spaces alone.
    #[error("the JSON chunk is padded with zeros, not with spaces")]
    JsonPadding,
    /// A chunk behind the first one is of type `JSON` too.
    #[error("there is a second chunk of type JSON")]
    SecondJson,
    /// A chunk behind the second one is of type `BIN`.
    #[error("a chunk of type BIN is not the second chunk")]
    MisplacedBin,
}
