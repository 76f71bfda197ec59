//! Goes through files: it prints what is read of the accessors in them, and compares what is found
//! in them with the findings that are expected. The program `gltf_corpus_run` has the files, and
//! what must be printed.
#![tactic(auto)]

mod elements;
mod findings;

pub use elements::print_elements;
pub use findings::print_findings;
