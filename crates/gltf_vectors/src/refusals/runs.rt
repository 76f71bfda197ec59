//! Runs over devices that fail, and runs that run out of memory.

use super::devices::{Giver, Taker, Wall};
use crate::samples::{FAULTY, NEW, SIX, SIX_LINES};
use crate::{End, Tried, holds, refusal_count};
use gltf_json::root::{ByteIn, Watched};
use gltf_json::{Error, Root};
use gltf_report_lines::run;
use std::alloc::Global;
use std::mem;
use std::test::Fail;

const REFUSAL: &[u8] = b"refused: input or output\n";

/// Whether a run over a reader that fails at a call reports that, and nothing of the document.
fn is_refused_at(alloc: Global, fails_at: usize) -> bool {
    let mut reader = Watched::new(Giver::new(NEW, Some(fails_at)));
    let mut writer = Watched::new(Vec::new(alloc));
    run(alloc, &mut reader, &mut writer) == 4
        && reader.failed()
        && writer.into_inner().as_slice() == REFUSAL
}

/// Whether reading from a reader that fails at a call is a failed read.
fn is_failed_at(alloc: Global, fails_at: usize) -> bool {
    let mut reader = Watched::new(Giver::new(NEW, Some(fails_at)));
    matches!(Root::from_reader(alloc, &mut reader), Err(Error::Read))
}

#[test]
fn readers_that_fail(rt: HostRuntime) {
    for fails_at in 1..NEW.len() + 2 {
        assert!(rt; is_refused_at(rt.alloc(), fails_at), "{fails_at}");
        assert!(rt; is_failed_at(rt.alloc(), fails_at), "{fails_at}");
    }
}

#[test]
fn readers_that_end(rt: HostRuntime) -> Result<(), Fail> {
    let mut reader = Watched::new(Giver::new(NEW, None));
    holds(
        Root::from_reader(rt.alloc(), &mut reader).is_ok(),
        "a document is read",
    )?;
    holds(!reader.failed(), "the reader has not failed")?;
    holds(
        matches!(reader.read(&mut [0]), Ok(0)),
        "the reader is at its end",
    )
}

/// Whether a run that may write less than is due writes the front that there is room for.
fn is_cut_off(alloc: Global, document: &'static str, due: &[u8], room: usize) -> bool {
    let mut reader = Watched::new(Giver::new(document, None));
    let mut writer = Watched::new(Taker {
        taken: Vec::new(alloc),
        room,
    });
    let is_refused = run(alloc, &mut reader, &mut writer) == 4 && writer.failed();
    let taken = writer.into_inner().taken;
    is_refused
        && due
            .get(..room)
            .is_some_and(|front| taken.as_slice() == front)
}

#[test]
fn writers_that_are_full(rt: HostRuntime) {
    let clean = b"clean\n";
    for room in 0..clean.len() {
        assert!(rt; is_cut_off(rt.alloc(), NEW, clean, room), "{room}");
    }
    let refused = b"refused: not a glTF document\n";
    for room in 0..refused.len() {
        assert!(rt; is_cut_off(rt.alloc(), "{}", refused, room), "{room}");
    }
}

#[test]
fn writers_that_take_nothing(rt: HostRuntime) -> Result<(), Fail> {
    let mut reader = Watched::new(Giver::new(NEW, None));
    let mut writer = Watched::new(Wall);
    holds(
        run(rt.alloc(), &mut reader, &mut writer) == 4,
        "the run is refused",
    )?;
    holds(writer.failed(), "the writer has failed")
}

/// Running over a document: the lines that are due, and what was written last. It is written into
/// memory that is kept from one run to the next.
#[derive(Drop)]
struct Running {
    document: &'static str,
    due: &'static str,
    written: Vec<u8>,
}

impl Tried for Running {
    fn attempt(&mut self, alloc: Global) -> End {
        self.written.clear();
        let mut reader = Watched::new(Giver::new(self.document, None));
        let mut writer = Watched::new(mem::replace(&mut self.written, Vec::new(alloc)));
        let status = run(alloc, &mut reader, &mut writer);
        let is_cut_off = writer.failed();
        self.written = writer.into_inner();
        let written = self.written.as_slice();
        match status {
            1 if written == self.due.as_bytes() => End::Whole,
            4 if written == REFUSAL => End::Refused,
            4 if is_cut_off && is_front(written, self.due.as_bytes()) => End::Refused,
            _ => End::Wrong,
        }
    }
}

/// Whether bytes are the first of what was due, lines or the refusal.
fn is_front(bytes: &[u8], lines: &[u8]) -> bool {
    lines.starts_with(bytes) || REFUSAL.starts_with(bytes)
}

/// How often a run over a document is refused, with memory for so many bytes to be written into.
fn refused_runs(
    alloc: Global,
    document: &'static str,
    due: &'static str,
    room: usize,
) -> Result<usize, Fail> {
    let written = Vec::with_capacity(alloc, room)?;
    let mut running = Running {
        document,
        due,
        written,
    };
    refusal_count(alloc, &mut running)
}

// Under `rt try` nothing is refused, and this test fails: its allocator is another one.
#[test]
fn growths_that_are_refused(rt: HostRuntime) -> Result<(), Fail> {
    let line = "accessors[0].bufferView: Missing data\n";
    holds(
        refused_runs(rt.alloc(), FAULTY, line, 100)? > 0,
        "one report",
    )?;
    holds(
        refused_runs(rt.alloc(), SIX, SIX_LINES, 0)? > 0,
        "six reports",
    )
}
