//! What is asked of a document in one call.

use crate::holds;
use crate::samples::{FAULTY, NEW};
use gltf_json::Root;
use gltf_json::path::Steps;
use gltf_json::validation::{Count, Rules, Validate, ValidateRoot};
use std::alloc::Global;
use std::test::Fail;

/// Whether a document is clean, and how many reports it has.
fn asked(alloc: Global, text: &str) -> Result<(bool, u64), Fail> {
    let root = Root::from_str(alloc, text)?;
    let mut count = Count::new();
    root.validate(&root, &mut Steps::new(), &mut count)?;
    Ok((root.is_clean(), count.count()))
}

/// Whether a document is clean by rules that enable an extension.
fn is_clean_with(alloc: Global, text: &str, extension: &str) -> Result<bool, Fail> {
    let root = Root::from_str(alloc, text)?;
    let enabled = [extension];
    Ok(root.is_clean_by(&Rules {
        empty_texture: false,
        enabled: &enabled,
    }))
}

#[test]
fn documents_say_whether_they_are_clean(rt: HostRuntime) -> Result<(), Fail> {
    let (clean, count) = asked(rt.alloc(), NEW)?;
    holds(clean && count == 0, "the least document")?;
    let (clean, count) = asked(rt.alloc(), FAULTY)?;
    holds(!clean && count > 0, "a faulty document")?;
    let required = r#"{"asset":{"version":"2.0"},"extensionsRequired":["A"]}"#;
    let (clean, count) = asked(rt.alloc(), required)?;
    holds(!clean && count == 1, "an extension that isn't enabled")?;
    holds(
        is_clean_with(rt.alloc(), required, "A")?,
        "an enabled extension",
    )
}
