//! The example of `README.md`.

use crate::holds;
use crate::samples::FAULTY;
use gltf_json::Root;
use gltf_json::path::Steps;
use gltf_json::validation::{Count, Validate};
use std::test::Fail;

/// A document with a view of its buffer, in the lines that it is written in.
const CLEAN: &str = r#"{
  "accessors": [
    {
      "bufferView": 0,
      "componentType": 5126,
      "count": 1,
      "type": "SCALAR"
    }
  ],
  "asset": {
    "version": "2.0"
  },
  "bufferViews": [
    {
      "buffer": 0,
      "byteLength": 4
    }
  ],
  "buffers": [
    {
      "byteLength": 4
    }
  ]
}"#;

/// Whether a document is clean, how long the view of its first accessor is, and its text.
type Answer = (bool, Option<u64>, String);

/// What the lines of the example answer. They stand here as they stand there.
fn example(rt: HostRuntime, bytes: &[u8]) -> Result<Answer, gltf_json::Error> {
    let root = Root::from_slice(rt.alloc(), bytes)?;
    let mut count = Count::new();
    let clean = root.validate(&root, &mut Steps::new(), &mut count).is_ok() && count.count() == 0;
    let view = root
        .accessors
        .first()
        .and_then(|accessor| root.get(accessor.buffer_view?));
    let text = root.to_string_pretty(rt.alloc())?;
    Ok((clean, view.map(|view| view.byte_length.0), text))
}

/// Whether a clean document gives its view and its own text.
fn gives_view_and_text(rt: HostRuntime, document: &str) -> Result<bool, gltf_json::Error> {
    let (clean, view, text) = example(rt, document.as_bytes())?;
    Ok(clean && view == Some(4) && text.as_str() == document)
}

/// Whether a document with an accessor without a view isn't clean.
fn is_not_clean(rt: HostRuntime, document: &str) -> Result<bool, gltf_json::Error> {
    let (clean, view, _) = example(rt, document.as_bytes())?;
    Ok(!clean && view.is_none())
}

#[test]
fn example_of_the_front_page(rt: HostRuntime) -> Result<(), Fail> {
    holds(gives_view_and_text(rt, CLEAN)?, "a clean document")?;
    holds(is_not_clean(rt, FAULTY)?, "a faulty document")
}
