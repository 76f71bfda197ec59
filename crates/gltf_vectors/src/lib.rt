//! The tests that only code can be: paths, choices and numbers, results of calls that no document
//! shows, devices and memory that fail, objects that are made by hand, and types of users. What a
//! document can show, calls on it among them, is in `gltf_corpus`. The tests are here because a
//! crate with tests is proved twice.
//!
//! Each comparison is a function of its own that returns whether it holds. A test that asserts
//! while it holds what it read, or goes over an array of tuples, takes many times as long to prove.
//!
//! What is public is what the crates of tests share: what a test says that fails, texts of
//! documents, and calls that run out of memory.
#![tactic(auto)]

#[cfg(test)]
mod base;
#[cfg(test)]
mod documents;
#[cfg(test)]
mod errors;
mod memory;
#[cfg(test)]
mod reading;
#[cfg(test)]
mod refusals;
pub mod samples;
mod shown;
#[cfg(test)]
mod texts;
#[cfg(test)]
mod validation;

pub use memory::{End, HeldMemory, Tried, refusal_count};
pub use shown::{holds, shows};
