//! Relative paths in URIs (RFC 3986).

ghost use Rattle.std.specs.Prelude.{◌≡◌, ◌+◌, ◌<◌, ◌↔◌, ℕ, List, None, length, slice_index, IfOk, IfErr, IfSome, IsTrue, IsUtf8, string_bytes};
ghost use Rattle.gltf_buffers.specs.Paths.{IsPathOf, IsPathFault, IsPathByte, IsEscape, IsParent, IsPlain, IsRelative, IsTextFault, IsRelativeFault, IsPathMemory};

use percent_encoding::percent_decode;
use std::alloc::{AllocError, Global};
use thiserror::Error;

/// Why a URI is no relative path.
#[derive(Clone, Copy, Debug, Error)]
pub enum PathFault {
    /// The URI has a query or a fragment, as what follows `?` and `#`.
    #[error("the URI has a query or a fragment")]
    Parameters,
    /// Two hexadecimal digits are missing behind a `%`.
    #[error("two hexadecimal digits are missing behind a %")]
    Escape,
    /// The decoded path is no UTF-8.
    #[error("the path is no UTF-8")]
    NotUtf8,
    /// The path has no byte.
    #[error("the path is empty")]
    Empty,
    /// The path begins with a slash.
    #[error("the path is absolute")]
    Absolute,
    /// The path has a colon, as behind a scheme or the name of a drive.
    #[error("the path has a colon")]
    Colon,
    /// The path has a backslash, which separates segments on some systems.
    #[error("the path has a backslash")]
    Backslash,
    /// The path has a zero byte.
    #[error("the path has a zero byte")]
    Nul,
    /// A segment of the path is `..`.
    #[error("the path has a segment ..")]
    Parent,
    /// Out of memory.
    #[error("out of memory")]
    Memory(AllocError),
}

/// Returns the path that a URI is, with its escapes decoded. It can't leave the folder that it
/// begins in, unless a link does. It takes time and memory in proportion to the text.
pub fn decode_path(alloc: Global, uri: &str) -> Result<String, PathFault>
    ensures path { IfOk result (λ path. IsPathOf uri.now (string_bytes path)) }
    ensures fault { IfErr result (IsPathFault uri.now) }
    ensures only { (path : List ℕ) → IsPathOf uri.now path → IsUtf8 path
        → IfErr result IsPathMemory }
{
    decode(alloc, uri)
}

/// Decodes a path.
fn decode(alloc: Global, uri: &str) -> Result<String, PathFault>
    ensures path { IfOk result (λ path. IsPathOf uri.now (string_bytes path)) }
    ensures fault { IfErr result (IsPathFault uri.now) }
{
    if let Some(fault) = text_fault(uri.as_bytes()) {
        return Err(fault);
    }
    let mut bytes = Vec::new(alloc);
    if let Err(error) = percent_decode(uri.as_bytes()).append_to(&mut bytes) {
        return Err(PathFault::Memory(error));
    }
    if let Some(fault) = relative_fault(bytes.as_slice()) {
        return Err(fault);
    }
    match String::from_utf8(bytes) {
        Ok(path) => Ok(path),
        Err(_) => Err(PathFault::NotUtf8),
    }
}

/// Why the text of a URI is no path alone, if it is none.
fn text_fault(uri: &[u8]) -> Option<PathFault>
    ensures found { IfSome result (IsTextFault uri.now) }
    ensures none { result ≡ None → (i : ℕ) → i < length uri.now → IsPathByte uri.now i }
{
    for (i, byte) in uri.iter().enumerate() {
        if *byte == b'?' || *byte == b'#' {
            return Some(PathFault::Parameters);
        }
        if *byte == b'%' && !is_escape(uri, i) {
            return Some(PathFault::Escape);
        }
    }
    None
}

/// Whether two hexadecimal digits are behind a byte.
fn is_escape(uri: &[u8], i: usize) -> bool
    requires { i < length uri.now }
    ensures { IsTrue result ↔ IsEscape uri.now i }
{
    byte_at(uri, i + 1).is_ascii_hexdigit() && byte_at(uri, i + 2).is_ascii_hexdigit()
}

/// A byte, or 0 behind the end.
fn byte_at(bytes: &[u8], i: usize) -> u8
    ensures { result ≡ slice_index bytes.now i }
{
    if i < bytes.len() { bytes[i] } else { 0 }
}

/// Why a path isn't relative or has parents, if so.
fn relative_fault(path: &[u8]) -> Option<PathFault>
    ensures found { IfSome result (IsRelativeFault path.now) }
    ensures none { result ≡ None → IsRelative path.now }
{
    if path.is_empty() {
        return Some(PathFault::Empty);
    }
    if path[0] == b'/' {
        return Some(PathFault::Absolute);
    }
    for (i, byte) in path.iter().enumerate() {
        if *byte == 0 {
            return Some(PathFault::Nul);
        }
        if *byte == b'\\' {
            return Some(PathFault::Backslash);
        }
        if *byte == b':' {
            return Some(PathFault::Colon);
        }
        if is_parent(path, i) {
            return Some(PathFault::Parent);
        }
    }
    None
}

/// Whether a segment `..` begins at a byte.
fn is_parent(path: &[u8], i: usize) -> bool
    requires { i < length path.now }
    ensures { IsTrue result ↔ IsParent path.now i }
{
    path.len() - i >= 2
        && path[i] == b'.'
        && path[i + 1] == b'.'
        && (i == 0 || path[i - 1] == b'/')
        && (path.len() - i == 2 || path[i + 2] == b'/')
}
