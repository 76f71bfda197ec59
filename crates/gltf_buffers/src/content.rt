//! The bytes of one buffer.

ghost use Rattle.std.specs.Prelude.{◌≡◌, ◌≤◌, ◌<◌, take, length, ℕ, List, Result, IfOk, IfErr, IfSome, Some, None, option_map};
ghost use Rattle.gltf_buffers.specs.Buffered.{content_bytes, lent};
ghost use Rattle.gltf_buffers.specs.Sources.{buffer_of, IsOfUri, IsSource, IsContent};
ghost use Rattle.gltf_buffers.specs.Faults.{IsFaultOf, IsSourceFault, IsUriFault};
ghost use Rattle.gltf_buffers.specs.Limits.{Takes, resolved};

use crate::data::{DataError, decode_data_uri, is_data_uri};
use crate::fault::BufferFault;
use crate::list::StoredBuffer;
use crate::resolve::Resolve;
use std::alloc::Global;

/// Bytes, borrowed or owned.
#[derive(Debug, Drop)]
pub enum Content<'a> {
    /// Those of a BIN chunk.
    Chunk(&'a [u8]),
    /// Those that a URI stands for.
    Owned(Vec<u8>),
}

impl<'a> Content<'a> {
    /// The bytes.
    pub fn as_slice(&self) -> &[u8]
        ensures { result.now ≡ content_bytes self.now }
    {
        match self {
            Content::Chunk(bytes) => bytes,
            Content::Owned(bytes) => bytes.as_slice(),
        }
    }

    /// So many bytes from the front.
    fn front(self, count: usize) -> Content<'a>
        requires { count ≤ length (content_bytes self) }
        ensures { content_bytes result ≡ take count (content_bytes self.entry) }
    {
        match self {
            Content::Chunk(bytes) => Content::Chunk(&bytes[..count]),
            Content::Owned(mut bytes) => {
                bytes.truncate(count);
                Content::Owned(bytes)
            }
        }
    }
}

/// The bytes of a buffer, by its number.
pub fn content_of<'a, R: Resolve>(
    alloc: Global,
    number: usize,
    buffer: &StoredBuffer<'_>,
    bin: Option<&'a [u8]>,
    resolve: &mut R,
) -> Result<Content<'a>, BufferFault<R::Error>>
    ensures content { IfOk result (λ c. IsContent (R.gives resolve.old) (lent bin.entry) number
        (buffer_of buffer.now) (content_bytes c)) }
    ensures taken { IfOk result (λ _. Takes (resolved (buffer_of buffer.now).uri
        buffer.now.byte_length) (R.most resolve.old) (R.most resolve.new)) }
    ensures fault { IfErr result (IsFaultOf (R.gives resolve.old) (lent bin.entry) number
        (buffer_of buffer.now)) }
    ensures kept { (uri : List ℕ) (given : Result (List ℕ) R.Error)
        → R.gives resolve.new uri given → R.gives resolve.old uri given }
{
    let whole = match source(alloc, number, buffer.uri, bin, resolve) {
        Ok(whole) => whole,
        Err(fault) => return Err(fault),
    };
    let found = whole.as_slice().len();
    if (found as u64) < buffer.byte_length {
        return Err(BufferFault::Short {
            buffer: number,
            found,
        });
    }
    Ok(whole.front(buffer.byte_length as usize))
}

/// All bytes that there are for a buffer.
fn source<'a, R: Resolve>(
    alloc: Global,
    number: usize,
    uri: Option<&str>,
    bin: Option<&'a [u8]>,
    resolve: &mut R,
) -> Result<Content<'a>, BufferFault<R::Error>>
    ensures source { IfOk result (λ c. IsSource (R.gives resolve.old) (lent bin.entry) number
        (option_map (λ u. u.now) uri.entry) (content_bytes c)) }
    ensures taken { IfOk result (λ c. Takes (resolved (option_map (λ u. u.now) uri.entry)
        (length (content_bytes c))) (R.most resolve.old) (R.most resolve.new)) }
    ensures fault { IfErr result (IsSourceFault (R.gives resolve.old) (lent bin.entry) number
        (option_map (λ u. u.now) uri.entry)) }
    ensures kept { (uri : List ℕ) (given : Result (List ℕ) R.Error)
        → R.gives resolve.new uri given → R.gives resolve.old uri given }
{
    match uri {
        Some(uri) => match of_uri(alloc, number, uri, resolve) {
            Ok(bytes) => Ok(Content::Owned(bytes)),
            Err(fault) => Err(fault),
        },
        None => match chunk(number, bin) {
            Some(bytes) => Ok(Content::Chunk(bytes)),
            None => Err(BufferFault::NoSource { buffer: number }),
        },
    }
}

/// The BIN chunk, if it is the buffer of a number.
fn chunk(number: usize, bin: Option<&[u8]>) -> Option<&[u8]>
    ensures found { IfSome result (λ b. (number ≡ 0) × (lent bin.entry ≡ Some b.now)) }
    ensures none { result ≡ None → number ≡ 0 → lent bin.entry ≡ None }
{
    if number == 0 { bin } else { None }
}

/// The bytes for a URI.
fn of_uri<R: Resolve>(
    alloc: Global,
    number: usize,
    uri: &str,
    resolve: &mut R,
) -> Result<Vec<u8>, BufferFault<R::Error>>
    ensures bytes { IfOk result (λ v. IsOfUri (R.gives resolve.old) uri.now v.items) }
    ensures taken { IfOk result (λ v. Takes (resolved (Some uri.now) (length v.items))
        (R.most resolve.old) (R.most resolve.new)) }
    ensures fault { IfErr result (IsUriFault (R.gives resolve.old) number uri.now) }
    ensures kept { (uri : List ℕ) (given : Result (List ℕ) R.Error)
        → R.gives resolve.new uri given → R.gives resolve.old uri given }
{
    if is_data_uri(uri) {
        return match decode_data_uri(alloc, uri) {
            Ok(bytes) => Ok(bytes),
            Err(DataError::Fault(fault)) => Err(BufferFault::Data {
                buffer: number,
                fault,
            }),
            Err(DataError::Memory(error)) => Err(BufferFault::Memory(error)),
        };
    }
    match resolve.bytes(alloc, uri) {
        Ok(bytes) => Ok(bytes),
        Err(error) => Err(BufferFault::Unresolved {
            buffer: number,
            error,
        }),
    }
}
