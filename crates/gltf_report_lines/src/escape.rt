//! Names and texts in the lines of text output.

ghost use Rattle.std.specs.Prelude.{◌≡◌, ◌++◌, ◌<◌, IfOk, OnOk, encode_utf8, string_bytes};
ghost use Rattle.std.specs.Char.{digit_char};
ghost use Rattle.gltf_report_lines.specs.Escaped.{escape, escaped};

use std::alloc::{AllocError, Global};

/// Returns a text in which no control byte is left: each is written as `\x` and its two digits.
/// Fails only if out of memory.
pub fn escaped(alloc: Global, text: &str) -> Result<String, AllocError>
    ensures { IfOk result (λ found. string_bytes found ≡ escaped text.now) }
{
    let mut found = String::new(alloc);
    for character in text.chars() {
        push_character(&mut found, character)?;
    }
    Ok(found)
}

fn push_character(text: &mut String, character: char) -> Result<(), AllocError>
    ensures { OnOk result (string_bytes text.new
        ≡ string_bytes text.old ++ escaped (encode_utf8 character)) }
{
    if character.is_ascii_control() {
        push_escape(text, character as u8)
    } else {
        text.push(character)
    }
}

fn push_escape(text: &mut String, byte: u8) -> Result<(), AllocError>
    ensures { OnOk result (string_bytes text.new ≡ string_bytes text.old ++ escape byte) }
{
    text.push_str("\\x")?;
    text.push(hex_digit(byte / 16))?;
    text.push(hex_digit(byte % 16))
}

/// The character of a hexadecimal digit.
fn hex_digit(digit: u8) -> char
    requires { digit < 16 }
    ensures value { result ≡ digit_char digit }
    ensures ascii { result < 128 }
{
    if digit < 10 {
        (b'0' + digit) as char
    } else {
        (b'a' - 10 + digit) as char
    }
}
