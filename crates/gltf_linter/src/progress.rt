//! How far a long run is, on standard error.

use std::io::{self, IsTerminal};

/// How many files are checked before the first line.
const FIRST: u64 = 200;

/// How many files are checked between two lines.
const STEP: u64 = 50;

/// Removes the line that the cursor is in.
const CLEAR: &str = "\r\x1b[K";

/// The line that says how far a run is. It is shown only on a terminal.
#[derive(Clone, Copy)]
pub struct Progress {
    is_terminal: bool,
    is_shown: bool,
}

impl Progress {
    pub fn new(rt: &HostRuntime) -> Progress {
        Progress {
            is_terminal: rt.stderr().is_terminal(),
            is_shown: false,
        }
    }

    /// Shows how many files were checked.
    pub fn show(&mut self, rt: &HostRuntime, files: u64) -> io::Result<()> {
        if self.is_terminal && files > FIRST && files % STEP == 0 {
            eprint!(rt; "{CLEAR}{files} files checked")?;
            self.is_shown = true;
        }
        Ok(())
    }

    /// Removes the line, before other lines are printed and at the end.
    pub fn clear(&mut self, rt: &HostRuntime) -> io::Result<()> {
        if self.is_shown {
            eprint!(rt; "{CLEAR}")?;
            self.is_shown = false;
        }
        Ok(())
    }
}
