//! The words of the command line.

use std::alloc::{AllocError, Global};
use std::env::{Env, FillError};
use std::io::{self, ErrorKind};
use std::str::from_utf8;

/// The most bytes of a word on Linux.
const MOST_BYTES: usize = 131_072;

/// Ends a word that is not UTF-8. No word of the command line can hold it.
pub const NOT_UTF8: char = '\0';

/// The words of the command line. In a word that is not UTF-8, replacement characters stand for
/// what isn't, and [`NOT_UTF8`] is at its end.
pub fn words(rt: &HostRuntime) -> io::Result<Vec<String>> {
    let alloc = rt.alloc();
    let mut words = Vec::new(alloc);
    let mut buffer = room_for_a_word(alloc)?;
    for at in 0..usize::MAX {
        match rt.arg(at, &mut buffer) {
            Ok(len) => words.push(word(alloc, buffer.get(..len).unwrap_or(&[]))?)?,
            Err(FillError::NotPresent) => break,
            Err(FillError::TooLong) => return Err(io::Error::from(ErrorKind::InvalidData)),
        }
    }
    Ok(words)
}

fn room_for_a_word(alloc: Global) -> Result<Vec<u8>, AllocError> {
    vec![in alloc; 0u8; MOST_BYTES]
}

fn word(alloc: Global, bytes: &[u8]) -> Result<String, AllocError> {
    if let Ok(text) = from_utf8(bytes) {
        return String::from_str(alloc, text);
    }
    let mut text = String::from_utf8_lossy(alloc, bytes)?;
    text.push(NOT_UTF8)?;
    Ok(text)
}
