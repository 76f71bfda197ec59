//! Compares the ways of reading and of writing a document: from and to bytes, a text and a device,
//! and by a `Value` in between.

use gltf_json::root::Watched;
use gltf_json::{Error, Root, Value};
use std::alloc::{AllocError, Global};
use std::str::from_utf8;

/// How the text of a document is laid out.
#[derive(Clone, Copy)]
enum Layout {
    InOneLine,
    InLines,
}

/// What a writer holds before a document is written into it.
const FIRST: u8 = b'#';

/// The document that a text is, by a value.
fn read_by_value(alloc: Global, text: &[u8]) -> Result<Root, Error> {
    match Value::from_slice(alloc, text) {
        Ok(value) => Root::from_value(alloc, value),
        Err(error) if error.is_memory() => Err(Error::Memory(AllocError)),
        Err(_) => Err(Error::Json),
    }
}

/// The document that a text is, where its bytes are one.
fn read_as_text(alloc: Global, text: &[u8]) -> Result<Root, Error> {
    match from_utf8(text) {
        Ok(text) => Root::from_str(alloc, text),
        Err(_) => Err(Error::Json),
    }
}

/// The document that a reader gives.
fn read_from_reader(alloc: Global, text: &[u8]) -> Result<Root, Error> {
    let mut reader = Watched::new(text);
    let read = Root::from_reader(alloc, &mut reader);
    if reader.failed() {
        Err(Error::Read)
    } else {
        read
    }
}

/// The bytes that a document is written as, by a value.
fn bytes_by_value(alloc: Global, root: &Root, layout: Layout) -> Result<Vec<u8>, Error> {
    let value = root.to_value(alloc)?;
    Ok(match layout {
        Layout::InOneLine => value.to_vec(alloc)?,
        Layout::InLines => value.to_vec_pretty(alloc)?,
    })
}

/// The bytes that a document is written as.
fn bytes_of(alloc: Global, root: &Root, layout: Layout) -> Result<Vec<u8>, Error> {
    match layout {
        Layout::InOneLine => root.to_vec(alloc),
        Layout::InLines => root.to_vec_pretty(alloc),
    }
}

/// The bytes of the text that a document is written as.
fn text_of(alloc: Global, root: &Root, layout: Layout) -> Result<Vec<u8>, Error> {
    let text = match layout {
        Layout::InOneLine => root.to_string(alloc)?,
        Layout::InLines => root.to_string_pretty(alloc)?,
    };
    Ok(text.into_bytes())
}

/// Whether both errors say the same of a document.
fn is_same_error(found: &Error, due: &Error) -> bool {
    matches!(
        (found, due),
        (Error::Json, Error::Json)
            | (Error::Schema, Error::Schema)
            | (Error::InvalidItem, Error::InvalidItem)
    )
}

/// Whether both have the same bytes, or the same error.
fn is_same(found: &Result<Vec<u8>, Error>, due: &Result<Vec<u8>, Error>) -> bool {
    match (found, due) {
        (Ok(found), Ok(due)) => found.as_slice() == due.as_slice(),
        (Err(found), Err(due)) => is_same_error(found, due),
        _ => false,
    }
}

/// Whether a writer takes the due bytes behind what it held, or nothing if an error is due.
fn is_handed(
    alloc: Global,
    root: &Root,
    layout: Layout,
    due: &Result<Vec<u8>, Error>,
) -> Result<bool, AllocError> {
    let mut held = Vec::new(alloc);
    held.push(FIRST)?;
    let mut writer = Watched::new(held);
    let ended = match layout {
        Layout::InOneLine => root.to_writer(alloc, &mut writer),
        Layout::InLines => root.to_writer_pretty(alloc, &mut writer),
    };
    let held = writer.into_inner();
    let Some((first, taken)) = held.as_slice().split_first() else {
        return Ok(false);
    };
    Ok(
        *first == FIRST
            && match (ended, due) {
                (Ok(()), Ok(due)) => taken == due.as_slice(),
                (Err(error), Err(due)) => is_same_error(&error, due) && taken.is_empty(),
                _ => false,
            },
    )
}

/// Names what differs in a layout between a document and one by a value, or between the ways of
/// writing them.
fn difference_in(
    alloc: Global,
    root: &Root,
    other: &Root,
    layout: Layout,
) -> Result<Option<&'static str>, AllocError> {
    let due = bytes_by_value(alloc, other, layout);
    if !is_same(&bytes_of(alloc, root, layout), &due) {
        return Ok(Some("the bytes differ"));
    }
    if !is_same(&text_of(alloc, root, layout), &due) {
        return Ok(Some("the text differs"));
    }
    if !is_handed(alloc, root, layout, &due)? {
        return Ok(Some("what a writer takes differs"));
    }
    Ok(None)
}

/// Names what differs between a document and one by a value, as they are written in both ways.
pub fn writing_difference(
    alloc: Global,
    root: &Root,
    other: &Root,
) -> Result<Option<&'static str>, AllocError> {
    match difference_in(alloc, root, other, Layout::InOneLine)? {
        Some(what) => Ok(Some(what)),
        None => difference_in(alloc, root, other, Layout::InLines),
    }
}

/// Whether there is a place that the table refuses if and only if the text is JSON and no document.
fn is_place_found(alloc: Global, text: &[u8], read: &Result<Root, Error>) -> bool {
    match (Root::refused_at(alloc, text), read) {
        (Ok(None), Ok(_)) => true,
        (Ok(Some(_)), Err(Error::Schema)) => true,
        (Err(Error::Json), Err(Error::Json)) => true,
        _ => false,
    }
}

/// What Debug prints of the document that was read, or of the error.
fn shown(alloc: Global, read: &Result<Root, Error>) -> Result<String, AllocError> {
    match read {
        Ok(root) => format!(in alloc; "{root:?}"),
        Err(error) => format!(in alloc; "{error:?}"),
    }
}

/// Names what differs between the ways, from a text to a document and to a text again.
pub fn difference(alloc: Global, text: &[u8]) -> Result<Option<&'static str>, AllocError> {
    let read = Root::from_slice(alloc, text);
    if !is_place_found(alloc, text, &read) {
        return Ok(Some("the place of a refusal differs"));
    }
    let due = shown(alloc, &read)?;
    if shown(alloc, &read_as_text(alloc, text))? != due {
        return Ok(Some("what is read as a text differs"));
    }
    if shown(alloc, &read_from_reader(alloc, text))? != due {
        return Ok(Some("what a reader gives differs"));
    }
    let by_value = read_by_value(alloc, text);
    if shown(alloc, &by_value)? != due {
        return Ok(Some("what is read by a value differs"));
    }
    match (&read, &by_value) {
        (Ok(root), Ok(other)) => writing_difference(alloc, root, other),
        _ => Ok(None),
    }
}
