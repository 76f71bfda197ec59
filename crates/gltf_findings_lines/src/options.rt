//! How findings are chosen and printed.

use crate::choices::Choices;
use gltf_report_lines::LineFormat;

/// What is printed for a file.
#[derive(Clone, Copy, Debug, PartialEq, Eq)]
pub enum Style {
    /// A line for each finding.
    Lines(LineFormat),
    /// A line with a report in the form of the Khronos glTF-Validator.
    Khronos,
}

/// How findings are chosen and printed.
#[derive(Clone, Copy)]
pub struct FindingOptions<'a> {
    /// Which findings are printed, and how severe they are.
    pub choices: Choices<'a>,
    /// What is printed.
    pub style: Style,
    /// The length of the longest JSON in which the places of findings are looked for, in bytes:
    /// the lines of such a file come with line and column.
    pub positions_up_to: u64,
    /// The most findings that are printed for a file.
    pub most: u64,
}
