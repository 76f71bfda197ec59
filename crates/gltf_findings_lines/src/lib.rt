//! All findings of a file, chosen and printed: what is wrong with its container, with the members
//! of its JSON, and with its document (`docs/FINDINGS.md`). `gltf_lint` prints them.
//!
//! [`Checker::check`] returns them as lines of text or JSON, or as a report in the form of the
//! Khronos glTF-Validator. [`json_lines`] returns all of them as lines of JSON.
//! [`positions_of`] returns where the values begin to which JSON pointers (RFC 6901) lead, by line
//! and column.
#![tactic(auto)]

mod check;
mod children;
mod choices;
mod codes;
mod counts;
mod file;
mod finding;
mod geometry;
mod info;
mod khronos;
mod lines;
mod members;
mod options;
mod part;
mod place;
mod placed;
mod position;
mod sources;
mod starts;

pub use check::{Checker, FileFindings, Unread, json_lines};
pub use choices::{Choices, Ignored, Leveled};
pub use codes::{ALL, LEVELS, code_named, severity_named};
pub use counts::Counts;
pub use file::File;
pub use gltf_findings_codes::{Code, Severity};
pub use gltf_report_lines::LineFormat;
pub use khronos::refusal_report;
pub use members::is_version_1;
pub use options::{FindingOptions, Style};
pub use position::{MAX_LEN, Position, positions_of};
