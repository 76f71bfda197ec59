//! glTF documents for programs in C and in languages that call C: checked, and written anew.
//! `include/gltf_c.h` declares the calls for C, and `docs/C.md` says how a program is linked.
//!
//! A slice is a pointer and then a length to a caller in C, and an allocator is no argument. Each
//! call returns its status, and how many bytes its output has. It writes as much of the output as
//! there is room for to the front of the caller's buffer, and leaves the rest as it was.
#![tactic(auto)]

ghost use Rattle.std.specs.Prelude.{◌≡◌, ◌≢◌, ◌≤◌, ◌⊎◌, [], IsUtf8};
ghost use Rattle.gltf_root.specs.Answer.{answer, no_json, no_document};
ghost use Rattle.gltf_validation_rules.specs.Context.{standard_rules};
ghost use Rattle.gltf_c.specs.Calls.{AreFindingsListed, IsChecked, IsGiven, IsListed, given_rules, IsRewritten, IsUnwritable, rewrite_status, version_output};
ghost use Rattle.gltf_c.specs.Filled.{IsFilled};

use gltf_report_lines::Outcome;
use gltf_schema::Error;
use gltf_validation_rules::Rules;
use std::alloc::Global;
use std::str::from_utf8;

mod returned;
#[cfg(test)]
mod tests;
mod work;

pub use returned::Returned;
use returned::{fill, refuse, tell};
use work::{check, find, lines_in, list, rewritten};

const VERSION: &str = "1.4.1+1";

const NO_REPORT: u8 = 0;

const WRITTEN: u8 = 0;

const REPORTS: u8 = 1;

const NOT_JSON: u8 = 2;

const NOT_DOCUMENT: u8 = 3;

const NO_MEMORY: u8 = 4;

const INVALID_ITEM: u8 = 5;

const NOT_TEXT: u8 = 6;

const NOT_GLB: u8 = 7;

/// Checks a document, and puts out what `gltf_report` prints for it. If the bytes begin with
/// `glTF`, they are those of a `.glb` file, and the document is its JSON chunk.
///
/// | Status | Output |
/// |---|---|
/// | 0 | `clean` |
/// | 1 | a line `path: fault` for each report, in order |
/// | 2 | `refused: not JSON` |
/// | 3 | `refused: not a glTF document` |
/// | 4 | `refused: input or output`, if out of memory |
/// | 7 | `refused: not binary glTF`, if the bytes begin with `glTF` and are no `.glb` file |
#[unsafe(no_mangle)]
pub extern "C" fn gltf_c_check(alloc: Global, document: &[u8], output: &mut [u8]) -> Returned
    ensures { IsChecked standard_rules document.now output.old output.new result }
{
    check(alloc, &Rules::new(), document, output)
}

/// Checks a document by the caller's rules: whether a texture may be without an image, and the
/// names of the extensions that a document may require, one a line. A newline at the end of the
/// names adds no name. The status 6 and no output come if and only if the names are no UTF-8; other
/// results are those of [`gltf_c_check`].
#[unsafe(no_mangle)]
pub extern "C" fn gltf_c_check_by(
    alloc: Global,
    document: &[u8],
    names: &[u8],
    empty_texture: bool,
    output: &mut [u8],
) -> Returned
    ensures checked { IsUtf8 names.now → IsChecked (given_rules empty_texture names.now)
        document.now output.old output.new result }
    ensures no_names { ¬ (IsUtf8 names.now) → (result.status ≡ 6)
        × IsFilled [] output.old output.new result.needed }
{
    let Ok(names) = from_utf8(names) else {
        return refuse(NOT_TEXT);
    };
    match lines_in(alloc, names) {
        Ok(enabled) => {
            let rules = Rules {
                empty_texture,
                enabled: &enabled,
            };
            check(alloc, &rules, document, output)
        }
        Err(_) => tell(&Outcome::GivenUp, output),
    }
}

/// Checks a document as [`gltf_c_check`] does, and puts out the lines that `gltf_lint --reports
/// --json` prints: a JSON object a line, with the members `code`, `file`, `kind`, `message`, `path`
/// and `pointer`. `file` is the name that the lines give to the file. The status 6 comes if and
/// only if that name is no UTF-8. Output comes with status 1 alone.
///
/// | Status | Meaning |
/// |---|---|
/// | 0 | no report |
/// | 1 | a line for each report, in order |
/// | 2 | the bytes are no JSON |
/// | 3 | the JSON is no glTF document |
/// | 4 | out of memory |
/// | 6 | the name of the file is no UTF-8 |
/// | 7 | the bytes begin with `glTF` and are no `.glb` file |
#[unsafe(no_mangle)]
pub extern "C" fn gltf_c_check_json(
    alloc: Global,
    document: &[u8],
    file: &[u8],
    output: &mut [u8],
) -> Returned
    ensures listed { IsUtf8 file.now
        → IsListed standard_rules file.now document.now output.old output.new result }
    ensures no_name { ¬ (IsUtf8 file.now) → (result.status ≡ 6)
        × IsFilled [] output.old output.new result.needed }
{
    match from_utf8(file) {
        Ok(file) => list(alloc, &Rules::new(), file, document, output),
        Err(_) => refuse(NOT_TEXT),
    }
}

/// Finds what the glTF 2.0 specification requires and a file doesn't have (`docs/FINDINGS.md`), and
/// puts out a line for each finding: a JSON object, as `gltf_lint --json` prints it. If the bytes
/// begin with `glTF`, they are those of a `.glb` file. `file` is the name that the lines give to
/// the file. The status 6 and no output come if and only if that name is no UTF-8.
///
/// | Status | Meaning |
/// |---|---|
/// | 0 | no finding |
/// | 1 | a line for each finding, in order |
/// | 2 | the bytes are no JSON |
/// | 3 | the JSON is no glTF document, and no finding of severity error says why |
/// | 4 | out of memory, without output |
/// | 6 | the name of the file is no UTF-8 |
/// | 7 | the file can't be read as a `.glb` file, and no finding of severity error says why |
///
/// With the statuses 2, 3 and 7 the output is a line for each finding too, if there is one.
#[unsafe(no_mangle)]
pub extern "C" fn gltf_c_findings(
    alloc: Global,
    document: &[u8],
    file: &[u8],
    output: &mut [u8],
) -> Returned
    ensures listed { IsUtf8 file.now
        → AreFindingsListed file.now document.now output.old output.new result }
    ensures no_name { ¬ (IsUtf8 file.now) → (result.status ≡ 6)
        × IsFilled [] output.old output.new result.needed }
{
    match from_utf8(file) {
        Ok(file) => find(alloc, file, document, output),
        Err(_) => refuse(NOT_TEXT),
    }
}

/// Writes a document anew: in one line, without blanks between its tokens, and with each default of
/// the format left out or put in as `Root::to_vec` does. An absent member is left out where
/// `Root::to_vec` writes a null that the format doesn't allow. It takes JSON alone, and no bytes of
/// a `.glb` file. Output comes with status 0 alone.
/// The bytes decide the status, except that it is 4 if out of memory.
///
/// | Status | Meaning |
/// |---|---|
/// | 0 | the document was written |
/// | 2 | the bytes are no JSON |
/// | 3 | the JSON is no glTF document |
/// | 4 | out of memory |
/// | 5 | a choice or the name of an attribute is invalid |
#[unsafe(no_mangle)]
pub extern "C" fn gltf_c_rewrite(alloc: Global, document: &[u8], output: &mut [u8]) -> Returned
    ensures written { result.status ≡ 0
        → IsRewritten (answer document.now) output.old output.new result.needed }
    ensures nothing { result.status ≢ 0 → IsFilled [] output.old output.new result.needed }
    ensures not_json { result.status ≡ 2 → answer document.now ≡ no_json }
    ensures not_document { result.status ≡ 3 → answer document.now ≡ no_document }
    ensures invalid { result.status ≡ 5 → IsUnwritable (answer document.now) }
    ensures memory { (result.status ≡ rewrite_status (answer document.now))
        ⊎ (result.status ≡ 4) }
    ensures status { (result.status ≢ 1) × (result.status ≤ 5) }
{
    match rewritten(alloc, document) {
        Ok(bytes) => Returned {
            status: WRITTEN,
            needed: fill(output, &bytes),
        },
        Err(Error::Json) => refuse(NOT_JSON),
        Err(Error::Schema) => refuse(NOT_DOCUMENT),
        Err(Error::InvalidItem) => refuse(INVALID_ITEM),
        Err(_) => refuse(NO_MEMORY),
    }
}

/// Puts out the version of the library, with the status 0: the version of `gltf-json`, then `+` and
/// the number of the port.
#[unsafe(no_mangle)]
pub extern "C" fn gltf_c_version(output: &mut [u8]) -> Returned
    ensures { IsGiven version_output output.old output.new result }
{
    Returned {
        status: WRITTEN,
        needed: fill(output, VERSION.as_bytes()),
    }
}
