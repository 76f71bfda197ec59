//! Cases of notices.

use super::{Cases, text_of};
use anyhow::Result;
use gltf_findings_members::{FirstLook, Notices};
use gltf_root::root::Root;
use gltf_schema::Outline;
use serde_json::Value;
use std::alloc::{AllocError, Global};
use std::fmt::Write;

/// The notices of documents, and how many first looks found what.
#[derive(Drop)]
pub struct Looks {
    outline: Outline,
    /// Texts without notices.
    pub without: u64,
    /// Those of them of which a first look says so.
    pub quiet: u64,
    pub excerpts: u64,
    pub nothing: u64,
}

impl Looks {
    /// No look yet.
    pub fn new(alloc: Global) -> Result<Looks, AllocError> {
        Ok(Looks {
            outline: Outline::of::<Root>(alloc)?,
            without: 0,
            quiet: 0,
            excerpts: 0,
            nothing: 0,
        })
    }

    /// The notices of a value, a line for each.
    fn lines_of(&self, alloc: Global, value: &Value) -> Result<String> {
        let notices = Notices::of(alloc, &self.outline, value)?;
        let mut lines = String::new(alloc);
        for notice in notices.as_slice() {
            writeln!(lines, "{} {}", notice.code.name(), notice.pointer)?;
        }
        Ok(lines)
    }

    /// The notices of what a first look at a text finds, if it finds anything. It is counted.
    fn first_lines_of(&mut self, alloc: Global, text: &str) -> Result<Option<String>> {
        match FirstLook::of(alloc, &self.outline, text) {
            FirstLook::Quiet => {
                self.quiet = self.quiet.saturating_add(1);
                Ok(Some(String::new(alloc)))
            }
            FirstLook::Excerpt(value) => {
                self.excerpts = self.excerpts.saturating_add(1);
                let lines = self.lines_of(alloc, &value)?;
                Ok(Some(lines))
            }
            FirstLook::Nothing => {
                self.nothing = self.nothing.saturating_add(1);
                Ok(None)
            }
        }
    }
}

impl Cases for Looks {
    /// The notices of a document. Behind them are those that a first look gives, if they differ.
    fn lines(&mut self, alloc: Global, case: &Value) -> Result<String> {
        let text = text_of(case, "text")?;
        let mut lines = self.lines_of(alloc, &Value::from_str(alloc, text)?)?;
        if lines.is_empty() {
            self.without = self.without.saturating_add(1);
        }
        if let Some(first) = self.first_lines_of(alloc, text)? {
            if first.as_str() != lines.as_str() {
                write!(lines, "by a first look\n{first}")?;
            }
        }
        Ok(lines)
    }
}
