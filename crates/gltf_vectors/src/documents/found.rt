//! Where texts are refused, and what is there.

use crate::samples::NEW;
use crate::shows;
use gltf_json::Root;
use std::alloc::Global;
use std::test::Fail;

/// Where a text is refused, and what is there.
fn refused(alloc: Global, text: &str) -> Result<String, Fail> {
    let Some((place, found)) = Root::refused_and_found(alloc, text.as_bytes())? else {
        return Ok(String::from_str(alloc, "a document")?);
    };
    Ok(format!(in alloc; "{place}: {found}")?)
}

#[test]
fn refusals_say_what_is_there(rt: HostRuntime) -> Result<(), Fail> {
    shows(refused(rt.alloc(), NEW), "a document")?;
    shows(refused(rt.alloc(), "[]"), ": a list")?;
    shows(
        refused(rt.alloc(), r#"{"asset":{}}"#),
        "asset.version: nothing",
    )?;
    shows(
        refused(
            rt.alloc(),
            r#"{"asset":{"version":"2.0"},"meshes":[{"primitives":3}]}"#,
        ),
        "meshes[0].primitives: a number",
    )?;
    shows(
        refused(
            rt.alloc(),
            r#"{"asset":{"version":"2.0"},"nodes":[{"name":true}]}"#,
        ),
        "nodes[0].name: true or false",
    )
}

/// Why a text is refused: where, what JSON is wanted there, and what is there.
fn mismatch(alloc: Global, text: &str) -> Result<String, Fail> {
    match Root::mismatch_in(alloc, text.as_bytes())? {
        Some(mismatch) => Ok(format!(in alloc; "{mismatch}")?),
        None => Ok(String::from_str(alloc, "a document")?),
    }
}

#[test]
fn mismatches_say_what_is_wanted(rt: HostRuntime) -> Result<(), Fail> {
    let alloc = rt.alloc();
    shows(mismatch(alloc, NEW), "a document")?;
    shows(
        mismatch(alloc, r#"{"asset":[]}"#),
        "asset: wanted an object, found a list",
    )?;
    shows(
        mismatch(alloc, r#"{"asset":{}}"#),
        "asset.version: wanted a text, found nothing",
    )?;
    shows(
        mismatch(alloc, r#"{"asset":{"version":"2.0"},"scene":-1}"#),
        "scene: wanted a whole number below 2^32, found a number",
    )?;
    shows(
        mismatch(
            alloc,
            r#"{"asset":{"version":"2.0"},"buffers":[{"byteLength":"8"}]}"#,
        ),
        "buffers[0].byteLength: wanted a whole number below 2^64, found a text",
    )?;
    shows(
        mismatch(
            alloc,
            r#"{"asset":{"version":"2.0"},"nodes":[{},{"matrix":[1,0]}]}"#,
        ),
        "nodes[1].matrix: wanted 16 numbers, found a list",
    )?;
    shows(
        mismatch(
            alloc,
            r#"{"asset":{"version":"2.0"},"nodes":[{"scale":[1,"1",1]}]}"#,
        ),
        "nodes[0].scale[1]: wanted a number, found a text",
    )?;
    shows(
        mismatch(
            alloc,
            r#"{"asset":{"version":"2.0"},"meshes":[{"primitives":{}}]}"#,
        ),
        "meshes[0].primitives: wanted a list, found an object",
    )
}
