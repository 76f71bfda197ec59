//! All codes and all severities, by their names.

ghost use Rattle.std.specs.Prelude.{◌≡◌};
ghost use Rattle.gltf_findings_codes.specs.Codes.{code_name, severity_name};
ghost use Rattle.gltf_findings_lines.specs.Named.{IsNoCode, IsNoSeverity, named_in};

use gltf_findings_codes::{Code, Severity};

mod all;

pub use all::ALL;

/// All severities, the most severe first.
pub const LEVELS: &[Severity] = &[
    Severity::Error,
    Severity::Warning,
    Severity::Information,
    Severity::Hint,
];

/// The code with a name, if there is one.
pub fn code_named(name: &str) -> Option<Code>
    ensures code { result ≡ named_in code_name ALL.now name.now }
    ensures unknown { result ≡ None → IsNoCode name.now }
{
    code_in(ALL, name)
}

/// The first of some codes with a name.
fn code_in(codes: &[Code], name: &str) -> Option<Code>
    ensures { result ≡ named_in code_name codes.now name.now }
{
    for code in codes {
        if code.name() == name {
            return Some(*code);
        }
    }
    None
}

/// The severity with a name, if there is one.
pub fn severity_named(name: &str) -> Option<Severity>
    ensures severity { result ≡ named_in severity_name LEVELS.now name.now }
    ensures unknown { result ≡ None → IsNoSeverity name.now }
{
    severity_in(LEVELS, name)
}

/// The first of some severities with a name.
fn severity_in(severities: &[Severity], name: &str) -> Option<Severity>
    ensures { result ≡ named_in severity_name severities.now name.now }
{
    for severity in severities {
        if severity.name() == name {
            return Some(*severity);
        }
    }
    None
}
