//! The text at the end of `--help`: what is checked, and what is enabled.

use gltf_findings_lines::ALL;
use gltf_validation_rules::Rules;
use std::alloc::{AllocError, Global};
use std::fmt::Write;

const CHECKED: &str = "\
A finding is something that the glTF 2.0 specification (ISO/IEC 12113:2022)
requires and a file doesn't have. What buffers and images hold is not checked.
Codes and severities are those of the Khronos glTF-Validator:
";

const REPORTS: &str = "
With --reports, documents are checked by the rules of the crate gltf-json, which
differ: some valid documents have reports. They may require these extensions,
and those that --enable adds:
";

const STATUS: &str = "
CODE=LEVEL        LEVEL is error, warning, information or hint
CODE[:POINTER]    POINTER is a JSON pointer: /nodes covers /nodes/3/mesh too

Exit status: 0 if nothing is wrong, 1 if there is a finding at or above the
level of --fail-on (if absent: error), or a report, 2 if a file was refused or
the arguments are wrong.";

/// The text at the end of `--help`.
pub fn long_help(alloc: Global) -> Result<String, AllocError> {
    let mut text = String::new(alloc);
    text.push_str(CHECKED)?;
    for code in ALL {
        let (severity, name) = (code.severity().name(), code.name());
        writeln!(&mut text, "  {severity:<11} {name}")?;
    }
    text.push_str(REPORTS)?;
    for name in Rules::new().enabled {
        writeln!(&mut text, "  {name}")?;
    }
    text.push_str(STATUS)?;
    Ok(text)
}
