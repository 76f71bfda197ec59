//! Devices that give and take one byte a call, that never end, that take nothing, that are
//! interrupted, and that count.

use std::io;
use std::io::{ErrorKind, Read, Write};

/// Gives a text, and fails at one call, if at any; they are counted from 1.
#[derive(Drop)]
pub struct Giver {
    text: &'static str,
    given: usize,
    fails_at: Option<usize>,
}

impl Giver {
    pub fn new(text: &'static str, fails_at: Option<usize>) -> Giver {
        Giver {
            text,
            given: 0,
            fails_at,
        }
    }
}

impl Read for Giver {
    fn read(&mut self, buf: &mut [u8]) -> io::Result<usize> {
        if self.fails_at == Some(self.given.saturating_add(1)) {
            return Err(io::Error::from(ErrorKind::Other));
        }
        let Some(byte) = self.text.as_bytes().get(self.given) else {
            return Ok(0);
        };
        let Some(first) = buf.first_mut() else {
            return Ok(0);
        };
        *first = *byte;
        self.given = self.given.saturating_add(1);
        Ok(1)
    }
}

/// Gives a blank in each call, and counts the calls.
#[derive(Drop)]
pub struct Blanks {
    pub calls: u64,
}

impl Read for Blanks {
    fn read(&mut self, buf: &mut [u8]) -> io::Result<usize> {
        self.calls = self.calls.saturating_add(1);
        let Some(first) = buf.first_mut() else {
            return Ok(0);
        };
        *first = b' ';
        Ok(1)
    }
}

/// Takes so many bytes, and fails then.
#[derive(Drop)]
pub struct Taker {
    pub taken: Vec<u8>,
    pub room: usize,
}

impl Write for Taker {
    fn write(&mut self, buf: &[u8]) -> io::Result<usize> {
        let Some(first) = buf.first() else {
            return Ok(0);
        };
        if self.taken.len() >= self.room {
            return Err(io::Error::from(ErrorKind::Other));
        }
        self.taken.push(*first)?;
        Ok(1)
    }

    fn flush(&mut self) -> io::Result<()> {
        Ok(())
    }
}

/// Takes nothing, and says that it did.
#[derive(Drop)]
pub struct Wall;

impl Write for Wall {
    fn write(&mut self, _buf: &[u8]) -> io::Result<usize> {
        Ok(0)
    }

    fn flush(&mut self) -> io::Result<()> {
        Ok(())
    }
}

/// Takes all bytes, and counts the calls.
#[derive(Drop)]
pub struct Counter {
    pub calls: u32,
}

impl Write for Counter {
    fn write(&mut self, buf: &[u8]) -> io::Result<usize> {
        self.calls = self.calls.saturating_add(1);
        Ok(buf.len())
    }

    fn flush(&mut self) -> io::Result<()> {
        Ok(())
    }
}

/// Is interrupted in its first call, takes all bytes in the others, and counts the calls.
#[derive(Drop)]
pub struct Interrupted {
    pub calls: u32,
}

impl Write for Interrupted {
    fn write(&mut self, buf: &[u8]) -> io::Result<usize> {
        self.calls = self.calls.saturating_add(1);
        if self.calls == 1 {
            return Err(io::Error::from(ErrorKind::Interrupted));
        }
        Ok(buf.len())
    }

    fn flush(&mut self) -> io::Result<()> {
        Ok(())
    }
}
