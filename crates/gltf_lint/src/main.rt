//! Checks glTF documents in files, folders and standard input, and prints what is wrong in each.
//! The library `gltf_linter` does the work.
#![tactic(auto)]

use std::process::ExitCode;

fn main(rt: HostRuntime) -> ExitCode {
    gltf_linter::lint_by_arguments(&rt)
}
