//! Reads a document and writes what is wrong in it, a line for each report, as `gltf_report` and
//! `gltf_lint` print it; and where the JSON of a file is.
#![tactic(auto)]

ghost use Rattle.std.specs.Prelude.{◌≡◌, ◌≢◌, ◌≤◌, ◌⊎◌, true, None, IsSomeAnd};
ghost use Rattle.gltf_base.specs.Device.{IsFresh, AppendsFront};
ghost use Rattle.gltf_validation_rules.specs.Context.{rules_of, standard_rules};
ghost use Rattle.gltf_report_lines.specs.Output.{refusal};
ghost use Rattle.gltf_report_lines.specs.Run.{IsReadWhole, IsRun, IsWritten, reading_output};

use gltf_base::{ByteIn, ByteOut};
use gltf_root::root::Root;
use gltf_schema::Error;
use gltf_validation_rules::Rules;
use std::alloc::Global;

mod bytes;
mod escape;
mod file_lines;
mod format;
mod lines;
mod options;
mod outcome;
mod reports;
mod writing;

pub use bytes::json_of;
pub use escape::escaped;
pub use file_lines::{FileLines, all_lines, found_in};
pub use format::LineFormat;
pub use options::Options;
pub use outcome::Outcome;
pub use reports::{push_report, push_rest, push_value};
use writing::write_outcome;

/// Reads a document to its end and writes a line for each report, `clean` if there is none, or why
/// the document was refused. It returns the exit status:
///
/// | Status | Output |
/// |---|---|
/// | 0 | `clean` |
/// | 1 | a line `path: fault` for each report, in order |
/// | 2 | `refused: not JSON` |
/// | 3 | `refused: not a glTF document` |
/// | 4 | `refused: input or output`, if the reader failed, a limit of [`Root::from_reader`] was passed, or out of memory; a prefix of the output, if the writer failed |
///
/// The whole output is made before its first byte is written. Paths escape nothing, so a report on
/// a name with a newline in it takes more than one line.
pub fn run<R: ByteIn, W: ByteOut>(alloc: Global, reader: &mut R, writer: &mut W) -> u8
    ensures status { result ≤ 4 }
    ensures run { IsRun standard_rules (R.left reader.old) (W.taken writer.old) (W.taken writer.new)
        (W.has_failed writer.old) (W.has_failed writer.new) result }
    ensures reader_failed { IsFresh (R.seen reader.old) → (R.seen reader.new).has_failed ≡ true
        → (result ≡ 4) × AppendsFront (W.taken writer.old) (W.taken writer.new) refusal.text }
    ensures not_read { IsFresh (R.seen reader.old) → ¬ (IsReadWhole (R.seen reader.new))
        → (result ≡ 4) × AppendsFront (W.taken writer.old) (W.taken writer.new) refusal.text }
    ensures within { IsFresh (R.seen reader.old) → result ≢ 4 → IsReadWhole (R.seen reader.new) }
{
    run_with(alloc, &Rules::new(), reader, writer)
}

/// Runs as [`run`] does, by the caller's rules.
pub fn run_with<R: ByteIn, W: ByteOut>(
    alloc: Global,
    rules: &Rules<'_>,
    reader: &mut R,
    writer: &mut W,
) -> u8
    ensures status { result ≤ 4 }
    ensures run { IsRun (rules_of rules.now) (R.left reader.old) (W.taken writer.old)
        (W.taken writer.new) (W.has_failed writer.old) (W.has_failed writer.new) result }
    ensures reader_failed { IsFresh (R.seen reader.old) → (R.seen reader.new).has_failed ≡ true
        → (result ≡ 4) × AppendsFront (W.taken writer.old) (W.taken writer.new) refusal.text }
    ensures not_read { IsFresh (R.seen reader.old) → ¬ (IsReadWhole (R.seen reader.new))
        → (result ≡ 4) × AppendsFront (W.taken writer.old) (W.taken writer.new) refusal.text }
    ensures within { IsFresh (R.seen reader.old) → result ≢ 4 → IsReadWhole (R.seen reader.new) }
{
    let reading = Root::from_reader(alloc, reader);
    answer(alloc, rules, &reading, writer)
}

/// Writes the output of a reading, by the rules.
fn answer<W: ByteOut>(
    alloc: Global,
    rules: &Rules<'_>,
    reading: &Result<Root, Error>,
    writer: &mut W,
) -> u8
    ensures status { result ≤ 4 }
    ensures given_up { reading_output (rules_of rules.now) reading.now ≡ None
        → (result ≡ 4) × AppendsFront (W.taken writer.old) (W.taken writer.new) refusal.text }
    ensures written { IsWritten refusal (W.taken writer.old) (W.taken writer.new)
        (W.has_failed writer.old) (W.has_failed writer.new) result
        ⊎ IsSomeAnd (reading_output (rules_of rules.now) reading.now) (λ due.
        IsWritten due (W.taken writer.old) (W.taken writer.new)
        (W.has_failed writer.old) (W.has_failed writer.new) result) }
{
    let outcome = Outcome::of_reading(alloc, rules, reading);
    write_outcome(writer, &outcome)
}
