//! Bytes of a text, and the blanks between lexemes.

ghost use Rattle.std.specs.Prelude.{◌≡◌, ◌<◌, ◌≤◌, ◌||◌, IsTrue, length, drop, get_or, false};
ghost use Rattle.json.specs.Word.{head, is_operator, is_space};
ghost use Rattle.json.specs.Lex.{class};
ghost use Rattle.json.specs.Align.{is_blank};
ghost use Rattle.gltf_schema.specs.Lexemes.{lexemes_at};

/// The byte at a place, or a space behind the end.
#[inline(always)]
pub(crate) fn byte_at(text: &[u8], at: usize) -> u8
    ensures value { result ≡ get_or text.now at 32 }
    ensures head { result ≡ head (drop at text.now) }
{
    if at < text.len() { text[at] } else { b' ' }
}

/// Whether a byte is a blank.
#[inline(always)]
pub(crate) fn is_blank(byte: u8) -> bool
    ensures { result ≡ is_blank (class byte) }
{
    (byte == b' ') | (byte == b'\t') | (byte == b'\n') | (byte == b'\r')
}

/// Whether a byte ends a number or a literal.
#[inline(always)]
pub(crate) fn is_delimiter(byte: u8) -> bool
    ensures value { result ≡ (is_operator byte || is_space byte) }
    ensures ascii { IsTrue result → byte < 128 }
{
    matches!(
        byte,
        b'{' | b'}' | b'[' | b']' | b':' | b',' | b' ' | b'\t' | b'\n' | b'\r'
    )
}

/// The place of the next byte that is no blank, or the end.
#[inline(always)]
pub(crate) fn next_at(text: &[u8], at: usize) -> usize
    requires { at ≤ length text.now }
    ensures same { lexemes_at text.now result ≡ lexemes_at text.now at }
    ensures within { result ≤ length text.now }
    ensures begins { result < length text.now
        → is_blank (class (get_or text.now result 32)) ≡ false }
{
    if at < text.len() && text[at] > b' ' {
        at
    } else {
        past_blanks(text, at)
    }
}

#[inline(never)]
fn past_blanks(text: &[u8], at: usize) -> usize
    requires { at ≤ length text.now }
    ensures same { lexemes_at text.now result ≡ lexemes_at text.now at }
    ensures within { result ≤ length text.now }
    ensures begins { result < length text.now
        → is_blank (class (get_or text.now result 32)) ≡ false }
{
    let mut next = at;
    while next < text.len() && is_blank(text[next]) {
        next += 1;
    }
    next
}
