//! Texts that are read into places, without a `Value` in between.

use crate::samples::{FAULTY, NEW, SIX, WRONG_LIGHTS};
use gltf_json::buffer::Buffer;
use gltf_json::{Root, Value};
use gltf_schema::read_text;
use std::alloc::{AllocError, Global};
use std::test::Fail;

/// Whether a text is read.
fn is_read(alloc: Global, text: &str) -> bool {
    read_text::<Value>(alloc, text).is_ok()
}

#[test]
fn values_of_each_kind_are_read(rt: HostRuntime) {
    for text in [
        "null",
        " true ",
        "-0.5e+3",
        "\"a\\u00e9\"",
        "[[], {}]",
        "{\"a\": 1, \"b\": [{\"a\": 2}], \"a\": 3}",
    ] {
        assert!(rt; is_read(rt.alloc(), text), "{text}");
    }
}

/// Whether arrays that nest so deep are read.
fn is_nest_read(alloc: Global, depth: usize) -> Result<bool, AllocError> {
    let mut text = String::new(alloc);
    for _ in 0..depth {
        text.push('[')?;
    }
    for _ in 0..depth {
        text.push(']')?;
    }
    Ok(is_read(alloc, &text))
}

#[test]
fn values_nest_as_deep_as_in_serde_json(rt: HostRuntime) -> Result<(), Fail> {
    assert!(rt; is_nest_read(rt.alloc(), 127)?);
    assert!(rt; !is_nest_read(rt.alloc(), 128)?);
    Ok(())
}

/// Whether a text is read with its escapes replaced.
fn is_unescaped(alloc: Global) -> bool {
    match read_text::<String>(alloc, "\"a\\u00e9\\n\"") {
        Ok(text) => text.as_str() == "aé\n",
        Err(_) => false,
    }
}

/// Whether the last of two members of one name is read.
fn is_last_read(alloc: Global) -> bool {
    match read_text::<Buffer>(
        alloc,
        "{\"byteLength\": 1, \"name\": \"a\", \"byteLength\": 2}",
    ) {
        Ok(buffer) => buffer.byte_length.0 == 2,
        Err(_) => false,
    }
}

#[test]
fn texts_are_read(rt: HostRuntime) {
    assert!(rt; is_unescaped(rt.alloc()));
    assert!(rt; is_last_read(rt.alloc()));
}

/// Whether a document is read without being read again by way of a `Value`.
fn is_read_once(alloc: Global, document: &str) -> bool {
    read_text::<Root>(alloc, document).is_ok()
}

#[test]
fn documents_are_read_once(rt: HostRuntime) {
    for document in [NEW, SIX, FAULTY, WRONG_LIGHTS] {
        assert!(rt; is_read_once(rt.alloc(), document), "{document}");
    }
}
