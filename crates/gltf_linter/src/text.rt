//! What is wrong with a text that is no JSON, if that has a name.

use std::str::from_utf8;
use thiserror::Error;

/// The most levels of nesting that a text may have.
const MOST_LEVELS: u32 = 127;

/// What is wrong with a text.
#[derive(Clone, Copy, Debug, PartialEq, Eq, Error)]
pub enum TextFault {
    /// It is UTF-8 behind a byte order mark.
    #[error("not JSON: a byte order mark")]
    ByteOrderMark,
    /// It is UTF-16, in either order of bytes.
    #[error("not JSON: UTF-16, not UTF-8")]
    Utf16,
    /// It is not UTF-8.
    #[error("not JSON: not UTF-8")]
    NotUtf8,
    /// It is nested deeper than documents are read.
    #[error("nested past 127 levels")]
    TooDeep,
}

/// What is wrong with a text that is refused at this line and column, if that has a name.
pub fn text_fault(text: &[u8], line: usize, column: usize) -> Option<TextFault> {
    match text {
        [0xEF, 0xBB, 0xBF, ..] => Some(TextFault::ByteOrderMark),
        [0xFF, 0xFE, ..] | [0xFE, 0xFF, ..] | [0, _, ..] | [_, 0, ..] => Some(TextFault::Utf16),
        _ if from_utf8(text).is_err() => Some(TextFault::NotUtf8),
        _ => is_too_deep(text, line, column).then_some(TextFault::TooDeep),
    }
}

/// A place in a text, with the levels of nesting there.
#[derive(Clone, Copy)]
struct Scan {
    line: usize,
    column: usize,
    levels: u32,
    in_string: bool,
    is_escaped: bool,
}

impl Scan {
    /// Goes past a byte.
    fn pass(&mut self, byte: u8) {
        let was_escaped = self.is_escaped;
        self.is_escaped = self.in_string && byte == b'\\' && !was_escaped;
        self.column = self.column.saturating_add(1);
        match byte {
            b'"' if !was_escaped => self.in_string = !self.in_string,
            b'[' | b'{' if !self.in_string => self.levels = self.levels.saturating_add(1),
            b']' | b'}' if !self.in_string => self.levels = self.levels.saturating_sub(1),
            b'\n' => {
                self.line = self.line.saturating_add(1);
                self.column = 0;
            }
            _ => {}
        }
    }

    /// Whether a place lies behind this one.
    fn is_before(&self, line: usize, column: usize) -> bool {
        self.line < line || self.line == line && self.column < column
    }
}

/// Whether a text is nested too deep up to this line and column.
fn is_too_deep(text: &[u8], line: usize, column: usize) -> bool {
    let mut scan = Scan {
        line: 1,
        column: 0,
        levels: 0,
        in_string: false,
        is_escaped: false,
    };
    for byte in text {
        if !scan.is_before(line, column) {
            return false;
        }
        scan.pass(*byte);
        if scan.levels > MOST_LEVELS {
            return true;
        }
    }
    false
}
