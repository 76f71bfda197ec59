//! A walk over a document, in one loop, and the next event of any value that it comes to.
#![tactic(auto)]

mod attributes;
mod derived;
mod frame;
mod next_report;
mod values;
mod walk;

pub use derived::is_quiet;
pub use next_report::StepsFull;
pub use values::event;
pub use walk::{ValueWalk, Walk};
