//! A file that is worked by hand.

use gltf_buffers::{Glb, WriteError};
use gltf_vectors::holds;
use std::alloc::Global;
use std::test::Fail;

/// The document `{}` and five bytes of data, each with what pads it.
const FILE: [u8; 40] = [
    0x67, 0x6C, 0x54, 0x46, 2, 0, 0, 0, 40, 0, 0, 0, 4, 0, 0, 0, 0x4A, 0x53, 0x4F, 0x4E, 0x7B,
    0x7D, 0x20, 0x20, 8, 0, 0, 0, 0x42, 0x49, 0x4E, 0, 1, 2, 3, 4, 5, 0, 0, 0,
];

/// Whether the file is written as bytes.
fn is_written(alloc: Global) -> bool {
    match Glb::to_vec(alloc, b"{}", Some(&[1, 2, 3, 4, 5])) {
        Ok(bytes) => bytes.as_slice() == FILE.as_slice(),
        Err(_) => false,
    }
}

/// Whether the file is written into a writer.
fn is_written_into(mut bytes: Vec<u8>) -> bool {
    match Glb::to_writer(&mut bytes, b"{}", Some(&[1, 2, 3, 4, 5])) {
        Ok(()) => bytes.as_slice() == FILE.as_slice(),
        Err(_) => false,
    }
}

#[test]
fn a_file_is_written(rt: HostRuntime) -> Result<(), Fail> {
    holds(is_written(rt.alloc()), "bytes")?;
    holds(is_written_into(Vec::new(rt.alloc())), "a writer")
}

/// Whether a document that ends with a zero is refused.
fn is_zero_refused(alloc: Global) -> bool {
    matches!(
        Glb::to_vec(alloc, b"{}\0", None),
        Err(WriteError::JsonEndsWithZero)
    )
}

#[test]
fn a_zero_behind_the_document_is_refused(rt: HostRuntime) -> Result<(), Fail> {
    holds(is_zero_refused(rt.alloc()), "a zero behind the document")
}
