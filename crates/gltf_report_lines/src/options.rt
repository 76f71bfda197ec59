//! How documents are checked, and how reports are printed.

use crate::format::LineFormat;
use gltf_validation_rules::Rules;

/// How documents are checked, and how reports are printed.
#[derive(Clone, Copy)]
pub struct Options<'a> {
    /// The rules.
    pub rules: Rules<'a>,
    /// What reports are printed as.
    pub format: LineFormat,
    /// The most reports that are printed for a file.
    pub most: u64,
}
