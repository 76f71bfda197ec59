//! Where `true`, `false` and `null` end.

ghost use Rattle.std.specs.Prelude.{◌≡◌, ◌<◌, ◌≤◌, IfSome, length, drop, true, false};
ghost use Rattle.json.specs.Token.{boolean, null};
ghost use Rattle.json.specs.Ascii.{true_text, false_text, null_text};
ghost use Rattle.gltf_schema.specs.Lexemes.{IsTokenAt};
ghost use Rattle.gltf_schema.specs.NumberParts.{IsWordAt};

use crate::bytes::{byte_at, is_delimiter};

/// Where a word ends that is at a place, if it is there.
#[inline(always)]
fn word_end(text: &[u8], at: usize, word: &[u8]) -> Option<usize>
    requires { at ≤ length text.now }
    ensures { IfSome result (λ end. IsWordAt text.now at word.now end) }
{
    if !text[at..].starts_with(word) {
        return None;
    }
    let end = at + word.len();
    if is_delimiter(byte_at(text, end)) {
        Some(end)
    } else {
        None
    }
}

/// Where `null` ends that is at a place, if it is there.
#[inline(always)]
pub(crate) fn null_end(text: &[u8], at: usize) -> Option<usize>
    requires { at ≤ length text.now }
    ensures token { IfSome result (λ end. IsTokenAt text.now at null end) }
    ensures within { IfSome result (λ end. end ≤ length text.now) }
{
    word_end(text, at, b"null")
}

/// Where `true` ends that is at a place, if it is there.
#[inline(always)]
pub(crate) fn true_end(text: &[u8], at: usize) -> Option<usize>
    requires { at ≤ length text.now }
    ensures token { IfSome result (λ end. IsTokenAt text.now at (boolean true) end) }
    ensures within { IfSome result (λ end. end ≤ length text.now) }
{
    word_end(text, at, b"true")
}

/// Where `false` ends that is at a place, if it is there.
#[inline(always)]
pub(crate) fn false_end(text: &[u8], at: usize) -> Option<usize>
    requires { at ≤ length text.now }
    ensures token { IfSome result (λ end. IsTokenAt text.now at (boolean false) end) }
    ensures within { IfSome result (λ end. end ≤ length text.now) }
{
    word_end(text, at, b"false")
}
