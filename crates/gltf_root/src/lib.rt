//! Whole glTF 2.0 documents: their metadata, their lists, and how they are read from bytes and
//! devices and written to them.
#![tactic(auto)]

pub mod extensions;
mod found;
pub mod laws;
mod mismatch;
pub mod root;
mod text;
mod wanted;

pub use text::{Place, decode_text, refused_in_text};
