//! What reports are printed as.

/// What reports are printed as.
#[derive(Clone, Copy, Debug, PartialEq, Eq)]
pub enum LineFormat {
    /// A line `FILE: path: message`.
    Text,
    /// A line with a JSON object.
    Json,
}
