//! Writes a container.

ghost use Rattle.std.specs.Prelude.{◌≡◌, ◌+◌, ◌<◌, ◌≤◌, ◌^◌, ◌++◌, ◌↔◌, Ok, length, option_map, IsTrue, OnOk, IfOk, IfErr, IfSome, IfNone};
ghost use Rattle.std.specs.Io.KnownBytes.{Appends};
ghost use Rattle.gltf_buffers.specs.Container.{IsGlb, json_kind, chunk};
ghost use Rattle.gltf_buffers.specs.Reading.{glb_of};
ghost use Rattle.gltf_buffers.specs.Writing.{padding_of, padded, padded_parts, padded_bin, bytes_of, header, file_bytes, chunk_length, bin_length, file_length, IsFileLength, IsWritable, IsWriteFault, IsWriterFault, IsShort, EndsWithZero};

use crate::glb::Glb;
use std::alloc::{AllocError, Global};
use std::io::{self, Write};
use thiserror::Error;

/// Why a container wasn't written.
#[derive(Debug, Drop, Error)]
pub enum WriteError {
    /// The file would have 2^32 bytes or more, which its header can't say.
    #[error("the file would be longer than 4294967295 bytes")]
    TooLong,
    /// The document ends with a zero. Its chunk may be padded with spaces alone.
    #[error("the document ends with a zero")]
    JsonEndsWithZero,
    /// Out of memory.
    #[error("out of memory")]
    Memory(AllocError),
    /// The writer failed.
    #[error("the writer failed: {0}")]
    Io(io::Error),
}

/// `glTF` as a number of four bytes, the least first.
const MAGIC: u32 = 0x46546C67;

/// `JSON` and `BIN` with a zero, as numbers of four bytes, the least first.
const JSON: u32 = 0x4E4F534A;

const BIN: u32 = 0x004E4942;

impl Glb<'_> {
    /// Returns the bytes of a file with a document and, if there is one, the data of its first
    /// buffer. Spaces pad the document, and zeros the data, to a multiple of 4 bytes.
    pub fn to_vec(alloc: Global, json: &[u8], bin: Option<&[u8]>) -> Result<Vec<u8>, WriteError>
        // The bytes that are written.
        ensures bytes { IfOk result (λ bytes. bytes.items
            ≡ file_bytes json.now (bytes_of bin.entry)) }
        // They are a container with exactly the padded parts.
        ensures container { IfOk result (λ bytes. IsGlb bytes.items
            (padded_parts json.now (bytes_of bin.entry))) }
        // `Glb::from_slice` reads exactly the padded parts.
        ensures read_back { IfOk result (λ bytes. glb_of bytes.items
            ≡ Ok (padded_parts json.now (bytes_of bin.entry))) }
        // It is written only if it may be.
        ensures writable { IfOk result (λ _. IsWritable json.now (bytes_of bin.entry)) }
        // Why it isn't written.
        ensures fault { IfErr result (IsWriteFault json.now (bytes_of bin.entry)) }
    {
        let Some(len) = file_len(json, bin) else {
            return Err(WriteError::TooLong);
        };
        if ends_with_zero(json) {
            return Err(WriteError::JsonEndsWithZero);
        }
        let mut bytes = Vec::new(alloc);
        match write_parts(&mut bytes, len, json, bin) {
            Ok(()) => Ok(bytes),
            Err(error) => Err(WriteError::Memory(error)),
        }
    }

    /// Writes the bytes of [`Glb::to_vec`]. It takes no memory, and writes nothing if the file is
    /// too long or the document ends with a zero. If the writer fails, it may have taken a part.
    pub fn to_writer<W: Write>(
        writer: &mut W,
        json: &[u8],
        bin: Option<&[u8]>,
    ) -> Result<(), WriteError>
        // The bytes that are written.
        ensures bytes { OnOk result (Appends (W.contents writer.old) (W.contents writer.new)
            (file_bytes json.now (bytes_of bin.entry))) }
        // They are written only if they may be.
        ensures writable { OnOk result (IsWritable json.now (bytes_of bin.entry)) }
        // The writer is as it was if they may not be.
        ensures untouched { (IsWritable json.now (bytes_of bin.entry) → ⊥)
            → writer.new ≡ writer.old }
        // Why they aren't written.
        ensures fault { IfErr result (IsWriterFault json.now (bytes_of bin.entry)) }
    {
        let Some(len) = file_len(json, bin) else {
            return Err(WriteError::TooLong);
        };
        if ends_with_zero(json) {
            return Err(WriteError::JsonEndsWithZero);
        }
        match send_parts(writer, len, json, bin) {
            Ok(()) => Ok(()),
            Err(error) => Err(WriteError::Io(error)),
        }
    }
}

/// Whether the last byte is a zero.
fn ends_with_zero(json: &[u8]) -> bool
    ensures { IsTrue result ↔ EndsWithZero json.now }
{
    json.len() > 0 && json[json.len() - 1] == 0
}

/// The length of the whole file. `None` if 4 bytes can't say it.
fn file_len(json: &[u8], bin: Option<&[u8]>) -> Option<u32>
    ensures short { IfSome result (λ n. IsFileLength n json.now (bytes_of bin.entry)) }
    ensures long { IfNone result (2 ^ 32 ≤ file_length json.now (bytes_of bin.entry)) }
{
    let Some(json_len) = chunk_len(json) else {
        return None;
    };
    let Some(bin_len) = bin_chunk_len(bin) else {
        return None;
    };
    let len = 12 + json_len + bin_len;
    if len > u32::MAX as u64 {
        return None;
    }
    Some(len as u32)
}

/// The length of the BIN chunk, 0 if there is none. `None` if 4 bytes can't say it.
fn bin_chunk_len(bin: Option<&[u8]>) -> Option<u64>
    ensures short { IfSome result (λ n. (n ≡ bin_length (bytes_of bin.entry)) × (n < 2 ^ 33)) }
    ensures long { IfNone result (2 ^ 32 ≤ bin_length (bytes_of bin.entry)) }
{
    match bin {
        Some(bin) => chunk_len(bin),
        None => Some(0),
    }
}

/// The length of a chunk with padded content. `None` if 4 bytes can't say that of its content.
fn chunk_len(content: &[u8]) -> Option<u64>
    ensures short { IfSome result (λ n. (n ≡ chunk_length content.now) × (n < 2 ^ 33)) }
    ensures long { IfNone result (2 ^ 32 ≤ length content.now) }
{
    if content.len() > u32::MAX as usize {
        return None;
    }
    Some(8 + (content.len() + padding(content)) as u64)
}

/// How many bytes pad content to a multiple of 4.
fn padding(content: &[u8]) -> usize
    ensures { result ≡ padding_of (length content.now) }
{
    (4 - content.len() % 4) % 4
}

/// Appends a whole file.
fn write_parts(
    bytes: &mut Vec<u8>,
    len: u32,
    json: &[u8],
    bin: Option<&[u8]>,
) -> Result<(), AllocError>
    requires { IsFileLength len json.now (bytes_of bin) }
    ensures { OnOk result (bytes.new.items
        ≡ ((bytes.old.items ++ header len) ++ chunk json_kind (padded 32 json.now))
        ++ padded_bin (bytes_of bin.entry)) }
{
    write_header(bytes, len)?;
    write_chunk(bytes, JSON, json, b' ')?;
    write_bin(bytes, bin)?;
    Ok(())
}

/// Appends the header of a file of such a length (section 4.4.2).
fn write_header(bytes: &mut Vec<u8>, len: u32) -> Result<(), AllocError>
    ensures { OnOk result (bytes.new.items ≡ bytes.old.items ++ header len) }
{
    bytes.extend_from_slice(&MAGIC.to_le_bytes())?;
    bytes.extend_from_slice(&2u32.to_le_bytes())?;
    bytes.extend_from_slice(&len.to_le_bytes())?;
    Ok(())
}

/// Appends the BIN chunk, if there is one.
fn write_bin(bytes: &mut Vec<u8>, bin: Option<&[u8]>) -> Result<(), AllocError>
    requires { IsShort (bytes_of bin) }
    ensures { OnOk result (bytes.new.items ≡ bytes.old.items ++ padded_bin (bytes_of bin.entry)) }
{
    match bin {
        Some(bin) => write_chunk(bytes, BIN, bin, 0),
        None => Ok(()),
    }
}

/// Appends a chunk with padded content (section 4.4.3).
fn write_chunk(bytes: &mut Vec<u8>, kind: u32, content: &[u8], fill: u8) -> Result<(), AllocError>
    requires { length content.now + padding_of (length content.now) < 2 ^ 32 }
    ensures { OnOk result (bytes.new.items
        ≡ bytes.old.items ++ chunk kind (padded fill content.now)) }
{
    let padding = padding(content);
    let len = (content.len() + padding) as u32;
    bytes.extend_from_slice(&len.to_le_bytes())?;
    bytes.extend_from_slice(&kind.to_le_bytes())?;
    bytes.extend_from_slice(content)?;
    bytes.extend_from_slice(&[fill; 3][..padding])?;
    Ok(())
}

/// Writes a whole file.
fn send_parts<W: Write>(writer: &mut W, len: u32, json: &[u8], bin: Option<&[u8]>) -> io::Result<()>
    requires { IsFileLength len json.now (bytes_of bin) }
    ensures { OnOk result (Appends (W.contents writer.old) (W.contents writer.new)
        ((header len ++ chunk json_kind (padded 32 json.now)) ++ padded_bin (bytes_of bin.entry))) }
{
    send_header(writer, len)?;
    send_chunk(writer, JSON, json, b' ')?;
    send_bin(writer, bin)
}

/// Writes the header of a file of such a length (section 4.4.2).
fn send_header<W: Write>(writer: &mut W, len: u32) -> io::Result<()>
    ensures { OnOk result (Appends (W.contents writer.old) (W.contents writer.new) (header len)) }
{
    writer.write_all(&MAGIC.to_le_bytes())?;
    writer.write_all(&2u32.to_le_bytes())?;
    writer.write_all(&len.to_le_bytes())?;
    Ok(())
}

/// Writes the BIN chunk, if there is one.
fn send_bin<W: Write>(writer: &mut W, bin: Option<&[u8]>) -> io::Result<()>
    requires { IsShort (bytes_of bin) }
    ensures { OnOk result (Appends (W.contents writer.old) (W.contents writer.new)
        (padded_bin (bytes_of bin.entry))) }
{
    match bin {
        Some(bin) => send_chunk(writer, BIN, bin, 0),
        None => Ok(()),
    }
}

/// Writes a chunk with padded content (section 4.4.3).
fn send_chunk<W: Write>(writer: &mut W, kind: u32, content: &[u8], fill: u8) -> io::Result<()>
    requires { length content.now + padding_of (length content.now) < 2 ^ 32 }
    ensures { OnOk result (Appends (W.contents writer.old) (W.contents writer.new)
        (chunk kind (padded fill content.now))) }
{
    let padding = padding(content);
    let length = (content.len() + padding) as u32;
    writer.write_all(&length.to_le_bytes())?;
    writer.write_all(&kind.to_le_bytes())?;
    writer.write_all(content)?;
    writer.write_all(&[fill; 3][..padding])?;
    Ok(())
}
