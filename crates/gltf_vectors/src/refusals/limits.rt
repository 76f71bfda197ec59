//! Readers that are read within limits of the caller's.

use super::devices::{Blanks, Giver};
use crate::holds;
use crate::samples::NEW;
use gltf_json::root::{ByteIn, Watched};
use gltf_json::{Error, Root};
use std::alloc::Global;
use std::test::Fail;

/// Whether a reader gives too much, or takes too many calls, for limits.
fn is_too_long<R: ByteIn>(alloc: Global, reader: &mut R, bytes: u64, calls: u64) -> bool {
    let ended = Root::from_reader_within(alloc, reader, bytes, calls);
    matches!(ended, Err(Error::TooLong))
}

/// Whether a reader is read within limits.
fn is_read_within(alloc: Global, bytes: u64, calls: u64) -> bool {
    let mut reader = Watched::new(Giver::new(NEW, None));
    Root::from_reader_within(alloc, &mut reader, bytes, calls).is_ok()
}

#[test]
fn documents_within_limits(rt: HostRuntime) {
    assert!(rt; is_read_within(rt.alloc(), 27, 28));
}

/// Whether a new document is too long for limits.
fn is_new_too_long(alloc: Global, bytes: u64, calls: u64) -> bool {
    let mut reader = Watched::new(Giver::new(NEW, None));
    is_too_long(alloc, &mut reader, bytes, calls)
}

#[test]
fn documents_past_a_limit(rt: HostRuntime) -> Result<(), Fail> {
    holds(is_new_too_long(rt.alloc(), 26, 28), "26 bytes in 28 calls")?;
    holds(is_new_too_long(rt.alloc(), 27, 27), "27 bytes in 27 calls")?;
    holds(is_new_too_long(rt.alloc(), 27, 0), "27 bytes in no call")
}

#[test]
fn readers_that_must_not_be_called(rt: HostRuntime) -> Result<(), Fail> {
    let mut reader = Watched::new(Blanks { calls: 0 });
    holds(
        is_too_long(rt.alloc(), &mut reader, 27, 0),
        "it is too long",
    )?;
    holds(reader.into_inner().calls == 0, "it is not called")
}

#[test]
fn readers_without_an_end(rt: HostRuntime) {
    let mut reader = Watched::new(Blanks { calls: 0 });
    assert!(rt; is_too_long(rt.alloc(), &mut reader, 1000, 5000));
}
