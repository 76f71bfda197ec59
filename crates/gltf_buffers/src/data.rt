//! Data URIs with base64 (RFC 2397).

ghost use Rattle.std.specs.Prelude.{◌≡◌, ◌<◌, ℕ, List, true, length, IfOk, IfErr, IfSome};
ghost use Rattle.base64.specs.GeneralPurpose.{encode_of, IsBytes};
ghost use Rattle.base64.specs.Engines.{standard};
ghost use Rattle.gltf_buffers.specs.Data.{is_data_uri, data_text, comma_of, says_base64, IsData, IsDataError, IsDecodeFault, IsOutOfMemory};

use base64::engine::general_purpose::STANDARD;
use base64::{DecodeAllocError, DecodeError};
use std::alloc::{AllocError, Global};
use thiserror::Error;

/// What is wrong with a data URI: the first reason in this order.
#[derive(Clone, Copy, Debug, PartialEq, Eq, Error)]
pub enum DataFault {
    /// No comma is in front of the data.
    #[error("the data URI has no comma")]
    NoComma,
    /// What is in front of the comma doesn't end with `;base64`.
    #[error("the data URI is not base64")]
    NotBase64,
    /// The data is no base64 with its padding.
    #[error("the data URI is no valid base64: {0}")]
    Undecodable(DecodeError),
}

/// Why a data URI wasn't decoded.
#[derive(Clone, Copy, Debug, Error)]
pub enum DataError {
    /// It is at fault.
    #[error("{0}")]
    Fault(DataFault),
    /// Out of memory.
    #[error("out of memory")]
    Memory(AllocError),
}

/// Returns whether a URI has the scheme `data`, in lower case.
#[tactic(auto, unfolding(crate::specs::Data::is_data_uri))]
pub fn is_data_uri(uri: &str) -> bool
    ensures { result ≡ is_data_uri uri.now }
{
    uri.as_bytes().starts_with(b"data:")
}

/// Returns the bytes of a data URI with base64. Fails if the URI has another encoding. The rest of
/// the media type is not looked at. Escapes such as `%3D` are no base64. It takes time and memory
/// in proportion to the text.
#[tactic(auto, unfolding(crate::specs::Data::is_data_uri))]
pub fn decode_data_uri(alloc: Global, uri: &str) -> Result<Vec<u8>, DataError>
    requires { is_data_uri uri.now ≡ true }
    ensures data { IfOk result (λ bytes. IsData (data_text uri.now) bytes.items) }
    ensures fault { IfErr result (IsDataError (data_text uri.now)) }
    ensures only { (bytes : List ℕ) → IsData (data_text uri.now) bytes
        → IfErr result IsOutOfMemory }
{
    decode_text(alloc, &uri.as_bytes()[5..])
}

/// Decodes what is behind the scheme.
fn decode_text(alloc: Global, text: &[u8]) -> Result<Vec<u8>, DataError>
    ensures data { IfOk result (λ bytes. IsData text.now bytes.items) }
    ensures fault { IfErr result (IsDataError text.now) }
    ensures only { (bytes : List ℕ) → IsData text.now bytes → IfErr result IsOutOfMemory }
{
    decode_parts(alloc, text)
}

/// Decodes the data behind the media type.
fn decode_parts(alloc: Global, text: &[u8]) -> Result<Vec<u8>, DataError>
    ensures data { IfOk result (λ bytes. IsData text.now bytes.items) }
    ensures fault { IfErr result (IsDataError text.now) }
{
    let Some(comma) = first_comma(text) else {
        return Err(DataError::Fault(DataFault::NoComma));
    };
    if !is_base64(&text[..comma]) {
        return Err(DataError::Fault(DataFault::NotBase64));
    }
    match decode_base64(alloc, &text[comma + 1..]) {
        Ok(bytes) => Ok(bytes),
        Err(DecodeAllocError::DecodeError(error)) => {
            Err(DataError::Fault(DataFault::Undecodable(error)))
        }
        Err(DecodeAllocError::OutOfMemory) => Err(DataError::Memory(AllocError)),
    }
}

/// Where the first comma is.
fn first_comma(text: &[u8]) -> Option<usize>
    ensures place { result ≡ comma_of text.now }
    ensures within { IfSome result (λ comma. comma < length text.now) }
{
    text.iter().position(|byte| *byte == b',')
}

/// Whether what is in front of the comma says that the data is base64.
fn is_base64(media: &[u8]) -> bool
    ensures { result ≡ says_base64 media.now }
{
    media.ends_with(b";base64")
}

/// Decodes base64 with its padding.
fn decode_base64(alloc: Global, text: &[u8]) -> Result<Vec<u8>, DecodeAllocError>
    ensures data { IfOk result (λ bytes. IsBytes bytes.items
        × (text.now ≡ encode_of standard bytes.items)) }
    ensures fault { IfErr result (IsDecodeFault text.now) }
{
    STANDARD.decode(alloc, text)
}
