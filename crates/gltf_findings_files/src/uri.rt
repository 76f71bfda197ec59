//! The texts of URI references (RFC 3986).

ghost use Rattle.std.specs.Prelude.{◌≡◌, ◌≤◌, ◌<◌, ◌+◌, length, get_or, drop, slice_index, true};
ghost use Rattle.gltf_buffers.specs.Data.{is_data_uri};
ghost use Rattle.gltf_findings_files.specs.Uris.{is_uri_character, is_escape, is_uri_byte, has_uri_bytes, has_early_colon, ends_scheme, has_scheme, is_without_data, is_uri_reference, is_not_relative, has_media_type, has_buffer_type, is_buffer_data};

use gltf_buffers::is_data_uri;

/// Whether a text is a URI reference. It takes time in proportion to the text.
pub fn is_uri_reference(uri: &str) -> bool
    ensures { result ≡ is_uri_reference uri.now }
{
    // derived
    let bytes = uri.as_bytes();
    has_uri_bytes(bytes) && (has_scheme(bytes) || !has_early_colon(bytes)) && !is_without_data(uri)
}

/// Whether a URI is a data URI without data.
fn is_without_data(uri: &str) -> bool
    ensures { result ≡ is_without_data uri.now }
{
    is_data_uri(uri) && !uri.as_bytes().contains(&b',')
}

/// Whether a URI has a scheme, an authority or a path from the root.
pub fn is_not_relative(uri: &str) -> bool
    ensures { result ≡ is_not_relative uri.now }
{
    // derived
    let bytes = uri.as_bytes();
    has_scheme(bytes) || byte_at(bytes, 0) == b'/'
}

/// Whether the data of a data URI has a media type of buffers.
#[tactic(auto, unfolding(gltf_buffers::specs::Data::is_data_uri))]
pub fn is_buffer_data(uri: &str) -> bool
    requires { is_data_uri uri.now ≡ true }
    ensures { result ≡ is_buffer_data uri.now }
{
    has_buffer_type(&uri.as_bytes()[5..])
}

/// Whether a text begins with a media type of buffers.
fn has_buffer_type(text: &[u8]) -> bool
    ensures { result ≡ has_buffer_type text.now }
{
    // derived
    has_media_type(text, b"application/octet-stream")
        || has_media_type(text, b"application/gltf-buffer")
}

/// Whether a text begins with a media type.
fn has_media_type(text: &[u8], media: &[u8]) -> bool
    ensures { result ≡ has_media_type text.now media.now }
{
    text.starts_with(media) && b";,".contains(&byte_at(text, media.len()))
}

/// Whether the characters and escapes of a text are those of a URI reference.
fn has_uri_bytes(text: &[u8]) -> bool
    ensures { result ≡ has_uri_bytes text.now }
{
    for place in 0..text.len() {
        if !is_uri_byte(text[place], &text[place + 1..]) {
            return false;
        }
    }
    true
}

/// Whether a byte may be in a URI reference in front of a text.
fn is_uri_byte(byte: u8, rest: &[u8]) -> bool
    ensures { result ≡ is_uri_byte byte rest.now }
{
    // derived
    is_uri_character(byte) || (byte == b'%' && is_escape(rest))
}

/// Whether a byte is of a reserved or unreserved character, or of one that is not ASCII.
fn is_uri_character(byte: u8) -> bool
    ensures { result ≡ is_uri_character byte }
{
    byte.is_ascii_alphanumeric() || b"-._~:/?#[]@!$&'()*+,;=".contains(&byte) || 128 <= byte
}

/// Whether a text begins with two hexadecimal digits.
fn is_escape(text: &[u8]) -> bool
    ensures { result ≡ is_escape text.now }
{
    byte_at(text, 0).is_ascii_hexdigit() && byte_at(text, 1).is_ascii_hexdigit()
}

/// A byte, or 0 behind the end.
fn byte_at(bytes: &[u8], place: usize) -> u8
    ensures { result ≡ get_or bytes.now place 0 }
{
    if place < bytes.len() { bytes[place] } else { 0 }
}

/// Whether the first colon is in front of every slash, question mark and number sign.
fn has_early_colon(text: &[u8]) -> bool
    ensures { result ≡ has_early_colon text.now }
{
    for byte in text {
        if *byte == b':' {
            return true;
        }
        if b"/?#".contains(byte) {
            return false;
        }
    }
    false
}

/// Whether a text begins with a scheme.
fn has_scheme(text: &[u8]) -> bool
    ensures { result ≡ has_scheme text.now }
{
    match text {
        [] => false,
        [first, rest @ ..] => first.is_ascii_alphabetic() && ends_scheme(rest),
    }
}

/// Whether the characters of a scheme and a colon are at the front.
fn ends_scheme(text: &[u8]) -> bool
    ensures { result ≡ ends_scheme text.now }
{
    for byte in text {
        if *byte == b':' {
            return true;
        }
        if !byte.is_ascii_alphanumeric() && !b"+-.".contains(byte) {
            return false;
        }
    }
    false
}
