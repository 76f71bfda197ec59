//! Checks a document by rules of its own, and prints a JSON pointer and a code for each fault until
//! it has enough.
#![tactic(auto)]

use anyhow::Result;
use gltf_json::Root;
use gltf_json::path::{Path, Steps};
use gltf_json::validation::{By, Error, Rules, Stop, Take, Validate};
use std::alloc::{AllocError, Global};
use std::fmt::Write;
use std::fs;

/// A texture may have no image, and a document may require one extension.
const RULES: Rules<'static> = Rules {
    empty_texture: true,
    enabled: &["KHR_texture_basisu"],
};

/// Why the linter takes no more faults.
#[derive(Debug, Drop)]
enum Refusal {
    Enough,
    NoMemory,
}

impl From<AllocError> for Refusal {
    fn from(_: AllocError) -> Refusal {
        Refusal::NoMemory
    }
}

/// The lines of the faults so far, and how many more it takes.
#[derive(Drop)]
struct Linter {
    alloc: Global,
    lines: String,
    room: u32,
}

impl Take for Linter {
    type Refusal = Refusal;

    fn take(&mut self, path: &Steps<'_>, error: Error) -> Result<(), Refusal> {
        self.room = self.room.checked_sub(1).ok_or(Refusal::Enough)?;
        let place = Path::pointer_of(self.alloc, path)?;
        writeln!(self.lines, "{place}: {}", error.code())?;
        Ok(())
    }
}

pub fn main(rt: HostRuntime) -> Result<()> {
    let bytes = fs::read(&rt, "textures.gltf")?;
    let root = Root::from_slice(rt.alloc(), &bytes)?;
    let mut linter = By(Linter {
        alloc: rt.alloc(),
        lines: String::new(rt.alloc()),
        room: 3,
    });
    let ended = root.validate_with(&RULES, &root, &mut Steps::new(), &mut linter);
    print!(rt; "{}", linter.0.lines)?;
    match ended {
        Ok(()) => println!(rt; "that is all")?,
        Err(Stop::Sink(Refusal::Enough)) => println!(rt; "and more")?,
        Err(stop) => println!(rt; "stopped: {stop:?}")?,
    }
    Ok(())
}
