//! Where the tokens of a text begin.

ghost use Rattle.std.specs.Prelude.{◌≡◌, ℕ, ◌+◌, ◌-◌, ◌<◌, ◌≤◌, ◌^◌, ◌||◌, IfOk, length, slice_index, vec_len, slice_get, Some, true};
ghost use Rattle.json.specs.Lex.{class, between, in_word, in_string};
ghost use Rattle.json.specs.Word.{is_operator, is_space};
ghost use Rattle.gltf_findings_lines.specs.Positions.{BeginsAt, tokens_begun};
ghost use Rattle.gltf_findings_lines.specs.Modes.{token_begins, mode_at, begun_at, IsCursor, RestsAt};

use crate::position::Position;
use std::alloc::{AllocError, Global};

/// How far a text has been read. It has the start of the line in place of a column, which would
/// have to be counted at each byte.
#[derive(Clone, Copy)]
struct Cursor {
    offset: usize,
    line: u32,
    line_start: usize,
}

impl Cursor {
    #[inline(always)]
    fn position(self) -> Position
        requires start { self.line_start ≤ self.offset }
        requires fits { self.offset < 2 ^ 32 - 1 }
        ensures line { result.line ≡ self.line }
        ensures column { result.column ≡ self.offset - self.line_start + 1 }
    {
        Position {
            line: self.line,
            column: (self.offset - self.line_start) as u32 + 1,
        }
    }

    /// Goes past a byte.
    #[inline(always)]
    fn past(self, bytes: &[u8]) -> Cursor
        requires short { length bytes.now < 2 ^ 32 - 1 }
        requires cursor { IsCursor bytes.now self }
        requires more { self.offset < length bytes.now }
        ensures cursor { IsCursor bytes.now result }
        ensures offset { result.offset ≡ self.offset + 1 }
    {
        let offset = self.offset + 1;
        if bytes[self.offset] == b'\n' {
            Cursor {
                offset,
                line: self.line + 1,
                line_start: offset,
            }
        } else {
            Cursor { offset, ..self }
        }
    }

    /// Goes past the rest of a number or a name.
    #[inline(always)]
    fn past_word(self, bytes: &[u8]) -> Cursor
        requires short { length bytes.now < 2 ^ 32 - 1 }
        requires cursor { IsCursor bytes.now self }
        requires mode { mode_at bytes.now self.offset ≡ in_word }
        ensures cursor { IsCursor bytes.now result }
        ensures further { self.offset ≤ result.offset }
        ensures count { begun_at bytes.now result.offset ≡ begun_at bytes.now self.offset }
        ensures rests { RestsAt bytes.now result.offset }
    {
        let mut cursor = self;
        while cursor.offset < bytes.len() && !ends_word(bytes[cursor.offset]) {
            cursor = cursor.past(bytes);
        }
        cursor
    }

    /// Goes past the rest of a string, with the quote that ends it.
    #[inline(always)]
    fn past_string(self, bytes: &[u8]) -> Cursor
        requires short { length bytes.now < 2 ^ 32 - 1 }
        requires cursor { IsCursor bytes.now self }
        requires mode { mode_at bytes.now self.offset ≡ in_string }
        ensures cursor { IsCursor bytes.now result }
        ensures further { self.offset ≤ result.offset }
        ensures count { begun_at bytes.now result.offset ≡ begun_at bytes.now self.offset }
        ensures rests { RestsAt bytes.now result.offset }
    {
        let mut cursor = self;
        while cursor.offset < bytes.len() {
            let byte = bytes[cursor.offset];
            cursor = cursor.past(bytes);
            if byte == b'"' {
                return cursor;
            }
            if byte == b'\\' && cursor.offset < bytes.len() {
                cursor = cursor.past(bytes);
            }
        }
        cursor
    }

    /// Goes past the token that begins here.
    #[inline(always)]
    fn past_token(self, bytes: &[u8]) -> Cursor
        requires short { length bytes.now < 2 ^ 32 - 1 }
        requires cursor { IsCursor bytes.now self }
        requires more { self.offset < length bytes.now }
        requires rests { RestsAt bytes.now self.offset }
        requires begins { token_begins between (class (slice_index bytes.now self.offset))
            (slice_index bytes.now self.offset) ≡ true }
        ensures cursor { IsCursor bytes.now result }
        ensures further { self.offset < result.offset }
        ensures count { begun_at bytes.now result.offset ≡ begun_at bytes.now self.offset + 1 }
        ensures rests { RestsAt bytes.now result.offset }
    {
        let behind = self.past(bytes);
        match bytes[self.offset] {
            b'"' => behind.past_string(bytes),
            b'{' | b'}' | b'[' | b']' => behind,
            _ => behind.past_word(bytes),
        }
    }
}

/// Whether a byte that stands in no word and no string begins a token.
#[inline(always)]
fn begins_token(byte: u8) -> bool
    ensures { result ≡ token_begins between (class byte) byte }
{
    !matches!(byte, b':' | b',' | b' ' | b'\t' | b'\n' | b'\r')
}

/// Whether a byte stands behind a number or a name, and not in it.
#[inline(always)]
fn ends_word(byte: u8) -> bool
    ensures { result ≡ (is_operator byte || is_space byte) }
{
    matches!(
        byte,
        b':' | b',' | b' ' | b'\t' | b'\n' | b'\r' | b'{' | b'}' | b'[' | b']'
    )
}

/// Where the tokens of a text begin, in order.
pub(crate) fn starts_of(alloc: Global, text: &str) -> Result<Vec<Position>, AllocError>
    requires { length text.now < 2 ^ 32 - 1 }
    ensures count { IfOk result (λ starts. vec_len starts ≡ tokens_begun text.now) }
    ensures each { IfOk result (λ starts. (n : ℕ) (p : _) → slice_get starts.items n ≡ Some p
        → BeginsAt text.now n p) }
{
    let bytes = text.as_bytes();
    let mut starts = Vec::new(alloc);
    let mut cursor = Cursor {
        offset: 0,
        line: 1,
        line_start: 0,
    };
    while cursor.offset < bytes.len() {
        if begins_token(bytes[cursor.offset]) {
            starts.push(cursor.position())?;
            cursor = cursor.past_token(bytes);
        } else {
            cursor = cursor.past(bytes);
        }
    }
    Ok(starts)
}
