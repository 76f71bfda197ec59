//! What the glTF 2.0 specification (ISO/IEC 12113:2022) requires of a document, as findings: codes
//! and severities are those of the Khronos glTF-Validator (`docs/FINDINGS.md` lists them). The
//! reports of `gltf_json` are those of the ported crate, and follow other rules.
//!
//! `Findings::of` returns what is wrong with any document.
#![tactic(auto)]

mod extensions;
mod findings;
mod hierarchy;
pub mod laws;
mod names;
mod skeletons;
mod uses;
mod version;

pub use findings::Findings;
pub use gltf_findings_codes::{Attribute, Code, Finding, Name, Object, Severity, Subject};
