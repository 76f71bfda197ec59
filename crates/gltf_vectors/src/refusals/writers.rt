//! Documents that are written into devices.

use super::devices::{Counter, Interrupted, Taker, Wall};
use super::writing::{LAYOUTS, Layout, write_into};
use crate::holds;
use crate::samples::{NEW, NEW_IN_LINES, PAST_32_BITS};
use gltf_json::root::Watched;
use gltf_json::{Error, Root};
use std::alloc::Global;
use std::test::Fail;

/// What a new document is written as.
fn due(layout: Layout) -> &'static str {
    match layout {
        Layout::InOneLine => NEW,
        Layout::InLines => NEW_IN_LINES,
    }
}

/// How writing a new document into a writer with room for so many bytes ends, whether the writer
/// has failed, and what it took.
type Outcome = (Result<(), Error>, bool, Vec<u8>);

/// Writes a new document into a writer that takes one byte a call, and has room for so many.
fn written_into(alloc: Global, layout: Layout, room: usize) -> Result<Outcome, Error> {
    let root = Root::new(alloc)?;
    let mut writer = Watched::new(Taker {
        taken: Vec::new(alloc),
        room,
    });
    let ended = write_into(alloc, &root, layout, &mut writer);
    let has_failed = writer.failed();
    Ok((ended, has_failed, writer.into_inner().taken))
}

/// Whether a writer with too little room fails, and takes the front that there is room for.
fn is_cut_off(alloc: Global, layout: Layout, room: usize) -> Result<bool, Error> {
    let (ended, has_failed, taken) = written_into(alloc, layout, room)?;
    let front = due(layout).as_bytes().get(..room);
    Ok(
        matches!(ended, Err(Error::Write))
            && has_failed
            && front.is_some_and(|front| taken.as_slice() == front),
    )
}

#[test]
fn writers_that_are_full(rt: HostRuntime) -> Result<(), Fail> {
    for layout in LAYOUTS.iter() {
        for room in 0..due(*layout).len() {
            assert!(rt; is_cut_off(rt.alloc(), *layout, room)?, "{room}");
        }
    }
    Ok(())
}

/// Whether a writer with just enough room takes the whole text, and doesn't fail.
fn is_whole(alloc: Global, layout: Layout) -> Result<bool, Error> {
    let (ended, has_failed, taken) = written_into(alloc, layout, due(layout).len())?;
    Ok(ended.is_ok() && !has_failed && taken.as_slice() == due(layout).as_bytes())
}

#[test]
fn writers_of_one_byte_a_call(rt: HostRuntime) -> Result<(), Fail> {
    for layout in LAYOUTS.iter() {
        assert!(rt; is_whole(rt.alloc(), *layout)?);
    }
    Ok(())
}

/// Whether a writer that takes nothing fails.
fn is_refused_by_wall(alloc: Global, layout: Layout) -> Result<bool, Error> {
    let root = Root::new(alloc)?;
    let mut writer = Watched::new(Wall);
    let ended = write_into(alloc, &root, layout, &mut writer);
    Ok(matches!(ended, Err(Error::Write)) && writer.failed())
}

#[test]
fn writers_that_take_nothing(rt: HostRuntime) -> Result<(), Fail> {
    for layout in LAYOUTS.iter() {
        assert!(rt; is_refused_by_wall(rt.alloc(), *layout)?);
    }
    Ok(())
}

/// How often a writer is called that is interrupted in its first call, and whether it failed so.
fn calls_where_interrupted(alloc: Global, layout: Layout) -> Result<(u32, bool), Error> {
    let root = Root::new(alloc)?;
    let mut writer = Watched::new(Interrupted { calls: 0 });
    let ended = write_into(alloc, &root, layout, &mut writer);
    let is_refused = matches!(ended, Err(Error::Write));
    Ok((writer.into_inner().calls, is_refused))
}

#[test]
fn interrupted_writers_fail_at_once(rt: HostRuntime) -> Result<(), Fail> {
    for layout in LAYOUTS.iter() {
        let ended = calls_where_interrupted(rt.alloc(), *layout)?;
        holds(ended == (1, true), "one call, and a failed write")?;
    }
    Ok(())
}

/// How often a writer is called for a document, and whether it fails with an invalid item.
fn calls_for(alloc: Global, document: &str, layout: Layout) -> Result<(u32, bool), Error> {
    let root = Root::from_str(alloc, document)?;
    let mut writer = Watched::new(Counter { calls: 0 });
    let ended = write_into(alloc, &root, layout, &mut writer);
    let is_invalid = matches!(ended, Err(Error::InvalidItem));
    Ok((writer.into_inner().calls, is_invalid))
}

#[test]
fn invalid_items_leave_writers_alone(rt: HostRuntime) -> Result<(), Fail> {
    for layout in LAYOUTS.iter() {
        let ended = calls_for(rt.alloc(), PAST_32_BITS, *layout)?;
        holds(ended == (0, true), "no call, and an invalid item")?;
        holds(
            calls_for(rt.alloc(), NEW, *layout)?.0 > 0,
            "calls for a document",
        )?;
    }
    Ok(())
}
