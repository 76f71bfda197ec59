//! Findings, and the offsets in a file that they are about.

ghost use Rattle.std.specs.Prelude.{◌≡◌, ◌++◌, OnOk};
ghost use Rattle.gltf_findings_files.specs.Found.{broken, found};

use gltf_findings_codes::Code;
use std::alloc::AllocError;

/// What is wrong with a file, and where.
#[derive(Clone, Copy, Debug, PartialEq, Eq)]
pub struct GlbFinding {
    /// What is wrong.
    pub code: Code,
    /// The offset in the file, in bytes.
    pub offset: usize,
}

/// The finding of a rule, if the rule is broken.
pub fn broken(is_broken: bool, code: Code, offset: usize) -> Option<GlbFinding>
    ensures { result ≡ broken is_broken code offset }
{
    // derived
    if is_broken {
        Some(GlbFinding { code, offset })
    } else {
        None
    }
}

/// Adds the findings of rules. Fails only if out of memory.
pub fn add_found(to: &mut Vec<GlbFinding>, rules: &[Option<GlbFinding>]) -> Result<(), AllocError>
    ensures { OnOk result (to.new.items ≡ to.old.items ++ found rules.now) }
{
    for rule in rules {
        if let Some(finding) = rule {
            to.push(*finding)?;
        }
    }
    Ok(())
}
