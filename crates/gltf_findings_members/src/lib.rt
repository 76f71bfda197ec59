//! What the JSON of a document shows and a `Root` no longer has: members that the format doesn't
//! know, missing and empty ones, and values of another kind than is wanted, at every place. Codes
//! and severities are those of the Khronos glTF-Validator (`docs/FINDINGS.md` lists them).
//!
//! `Notices::of` returns all of them, by the outline of a type: no second table of the format
//! exists.
//!
//! `NoticeCode` and `NoticeSeverity` are `Code` and `Severity` of `gltf_findings_codes`, which
//! findings have too.
#![tactic(auto)]

mod attribute;
mod document;
mod excerpt;
mod first;
mod listed;
mod lists;
mod look;
mod members;
mod misfit;
mod notice;
mod notices;
mod required;
mod root_lists;
mod rows;
mod seen;
mod table;
mod uses;
mod walk;
mod wanted;

pub use first::FirstLook;
pub use gltf_findings_codes::{Code as NoticeCode, Severity as NoticeSeverity};
pub use notice::Notice;
pub use notices::Notices;
