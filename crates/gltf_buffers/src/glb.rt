//! The parts of a container.

ghost use Rattle.std.specs.Prelude.{◌≡◌, option_map, IfOk, Ok};
ghost use Rattle.gltf_buffers.specs.Container.{Parts, IsGlb};
ghost use Rattle.gltf_buffers.specs.Reading.{Gives, number_at, header_at, chunk_at, json_at, bin_at, others_of, glb_of, parts_of};

use crate::error::GlbError;

/// `glTF` as a number of four bytes, the least first.
const MAGIC: u32 = 0x46546C67;

/// `JSON` and `BIN` with a zero, as numbers of four bytes, the least first.
const JSON: u32 = 0x4E4F534A;

const BIN: u32 = 0x004E4942;

/// The parts of a binary glTF file, borrowed from its bytes.
#[derive(Clone, Copy, Debug, PartialEq, Eq)]
pub struct Glb<'a> {
    /// The document: the JSON chunk, with the spaces that pad it.
    pub json: &'a [u8],
    /// The data of the first buffer, with the zeros that pad it: the BIN chunk, if there is one.
    pub bin: Option<&'a [u8]>,
}

impl<'a> Glb<'a> {
    /// Returns the parts of a file. Chunks of other types behind them are skipped. Fails with the
    /// first fault from the left. It takes no memory.
    pub fn from_slice(bytes: &'a [u8]) -> Result<Glb<'a>, GlbError>
        // What is read is a container with these parts.
        ensures found { IfOk result (λ glb. IsGlb bytes.now (parts_of glb)) }
        // A container is read, as its parts.
        ensures only { (p : Parts) → IsGlb bytes.now p → Gives parts_of result (Ok p) }
        // Which fault it is.
        ensures exact { Gives parts_of result (glb_of bytes.now) }
    {
        read(bytes)
    }
}

/// The parts of a file.
#[tactic(auto, unfolding(crate::specs::Reading::glb_of))]
fn read(bytes: &[u8]) -> Result<Glb<'_>, GlbError>
    ensures { Gives parts_of result (glb_of bytes.now) }
{
    let (json, rest) = take_json(take_header(bytes)?)?;
    let (bin, rest) = take_bin(rest)?;
    check_others(rest)?;
    Ok(Glb { json, bin })
}

/// The number in the first four bytes, the least byte first, and the bytes behind it. Fails with
/// `missing` if there are fewer.
fn take_number(bytes: &[u8], missing: GlbError) -> Result<(u32, &[u8]), GlbError>
    ensures { Gives (λ x. (x.0, x.1.now)) result (number_at missing bytes.now) }
{
    let Some((front, rest)) = bytes.split_first_chunk::<4>() else {
        return Err(missing);
    };
    Ok((u32::from_le_bytes(*front), rest))
}

/// The bytes behind the header (section 4.4.2).
#[tactic(auto, unfolding(crate::specs::Reading::header_at))]
fn take_header(bytes: &[u8]) -> Result<&[u8], GlbError>
    ensures { Gives (λ x. x.now) result (header_at bytes.now) }
{
    let (magic, rest) = take_number(bytes, GlbError::HeaderCutOff)?;
    if magic != MAGIC {
        return Err(GlbError::NoMagic);
    }
    let (version, rest) = take_number(rest, GlbError::HeaderCutOff)?;
    if version != 2 {
        return Err(GlbError::Version(version));
    }
    let (len, rest) = take_number(rest, GlbError::HeaderCutOff)?;
    if len as usize != bytes.len() {
        return Err(GlbError::Length(len));
    }
    Ok(rest)
}

/// The type and the data of the first chunk (section 4.4.3), and the bytes behind it.
#[tactic(auto, unfolding(crate::specs::Reading::chunk_at))]
fn take_chunk(bytes: &[u8]) -> Result<(u32, &[u8], &[u8]), GlbError>
    ensures { Gives (λ x. (x.0, x.1.now, x.2.now)) result (chunk_at bytes.now) }
{
    let (len, rest) = take_number(bytes, GlbError::ChunkHeaderCutOff)?;
    let (kind, rest) = take_number(rest, GlbError::ChunkHeaderCutOff)?;
    if len % 4 != 0 {
        return Err(GlbError::ChunkUnaligned(len));
    }
    if rest.len() < len as usize {
        return Err(GlbError::ChunkCutOff(len));
    }
    let (data, rest) = rest.split_at(len as usize);
    Ok((kind, data, rest))
}

/// The data of the JSON chunk, which is the first one (section 4.4.3.2), and the bytes behind it.
#[tactic(auto, unfolding(crate::specs::Reading::json_at))]
fn take_json(bytes: &[u8]) -> Result<(&[u8], &[u8]), GlbError>
    ensures { Gives (λ x. (x.0.now, x.1.now)) result (json_at bytes.now) }
{
    let (kind, json, rest) = take_chunk(bytes)?;
    if kind != JSON {
        return Err(GlbError::FirstChunk(kind));
    }
    if let [.., 0] = json {
        return Err(GlbError::JsonPadding);
    }
    Ok((json, rest))
}

/// The data of the BIN chunk, if it is the next one (section 4.4.3.3), and the bytes behind it.
#[tactic(auto, unfolding(crate::specs::Reading::bin_at))]
fn take_bin(bytes: &[u8]) -> Result<(Option<&[u8]>, &[u8]), GlbError>
    ensures { Gives (λ x. (option_map (λ bin. bin.now) x.0, x.1.now)) result (bin_at bytes.now) }
{
    if bytes.is_empty() {
        return Ok((None, bytes));
    }
    let (kind, bin, rest) = take_chunk(bytes)?;
    if kind != BIN {
        return Ok((None, bytes));
    }
    Ok((Some(bin), rest))
}

/// Passes over chunks of other types to the end.
fn check_others(bytes: &[u8]) -> Result<(), GlbError>
    ensures { Gives (λ _. tt) result (others_of bytes.now) }
{
    let mut rest = bytes;
    while !rest.is_empty() {
        let (kind, _, after) = take_chunk(rest)?;
        if kind == JSON {
            return Err(GlbError::SecondJson);
        }
        if kind == BIN {
            return Err(GlbError::MisplacedBin);
        }
        rest = after;
    }
    Ok(())
}
