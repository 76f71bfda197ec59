//! The ways in which a document is written.

use gltf_json::root::Watched;
use gltf_json::{Error, Root};
use std::alloc::Global;

/// How the text of a document is laid out.
#[derive(Clone, Copy)]
pub(crate) enum Layout {
    InOneLine,
    InLines,
}

pub(crate) const LAYOUTS: [Layout; 2] = [Layout::InOneLine, Layout::InLines];

/// A document as bytes.
pub(crate) fn bytes_of(alloc: Global, root: &Root, layout: Layout) -> Result<Vec<u8>, Error> {
    match layout {
        Layout::InOneLine => root.to_vec(alloc),
        Layout::InLines => root.to_vec_pretty(alloc),
    }
}

/// Writes a document into a device.
pub(crate) fn write_into<W: std::io::Write>(
    alloc: Global,
    root: &Root,
    layout: Layout,
    writer: &mut Watched<W>,
) -> Result<(), Error> {
    match layout {
        Layout::InOneLine => root.to_writer(alloc, writer),
        Layout::InLines => root.to_writer_pretty(alloc, writer),
    }
}

/// Whether a document is written as this line.
pub(crate) fn is_line(alloc: Global, root: &Root, line: &str) -> Result<bool, Error> {
    Ok(root.to_string(alloc)?.as_str() == line)
}
