//! Cases of URIs and of BIN chunks.

use super::{Cases, text_of};
use anyhow::Result;
use gltf_findings_codes::{Finding, add_all};
use gltf_findings_files::{BufferUriRules, Container, ImageUriRules};
use gltf_root::root::Root;
use serde_json::Value;
use std::alloc::Global;
use std::fmt::Write;

/// The file that a case says.
fn container_of(case: &Value) -> Container {
    match case.get("container") {
        Some(Value::String(name)) if name.as_str() == "glb" => Container::Glb { bin_len: None },
        Some(name) => match name.as_u64() {
            Some(length) => Container::Glb {
                bin_len: Some(length),
            },
            None => Container::Json,
        },
        None => Container::Json,
    }
}

/// The findings of the URIs of a document in a container.
fn findings_of(alloc: Global, root: &Root, container: Container) -> Result<Vec<Finding>> {
    let mut found = Vec::new(alloc);
    add_all(&mut found, &BufferUriRules(container), &root.buffers)?;
    add_all(&mut found, &ImageUriRules(container), &root.images)?;
    Ok(found)
}

/// The findings of URIs and of BIN chunks.
#[derive(Clone, Copy)]
pub struct Uris;

impl Cases for Uris {
    fn lines(&mut self, alloc: Global, case: &Value) -> Result<String> {
        let root = Root::from_str(alloc, text_of(case, "text")?)?;
        let mut lines = String::new(alloc);
        for finding in findings_of(alloc, &root, container_of(case))? {
            let pointer = finding.place.pointer(alloc)?;
            writeln!(lines, "{} {pointer}", finding.code.name())?;
        }
        Ok(lines)
    }
}
