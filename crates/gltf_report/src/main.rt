//! Reads a glTF document from standard input and writes what is wrong in it to standard output, a
//! line for each report.
#![tactic(auto)]

ghost use Rattle.std.specs.Prelude.{◌≡◌, ◌≢◌, ◌≤◌};
ghost use Rattle.std.specs.Process.{exit_status};
ghost use Rattle.gltf_base.specs.Device.{IsFresh, AppendsFront};
ghost use Rattle.gltf_validation_rules.specs.Context.{standard_rules};
ghost use Rattle.gltf_report_lines.specs.Output.{refusal};
ghost use Rattle.gltf_report_lines.specs.Run.{IsReadWhole, IsRun};

use gltf_base::{ByteIn, ByteOut, Watched};
use std::alloc::Global;
use std::process::ExitCode;

// No crate can stand on a program: from Rust, these are called in `gltf_report_lines`.
pub use gltf_report_lines::{run, run_with};

/// Runs, and makes the status of the run that of the program.
fn exit_code<R: ByteIn, W: ByteOut>(alloc: Global, reader: &mut R, writer: &mut W) -> ExitCode
    ensures status { exit_status result ≤ 4 }
    ensures run { IsRun standard_rules (R.left reader.old) (W.taken writer.old) (W.taken writer.new)
        (W.has_failed writer.old) (W.has_failed writer.new) (exit_status result) }
    ensures not_read { IsFresh (R.seen reader.old) → ¬ (IsReadWhole (R.seen reader.new))
        → (exit_status result ≡ 4)
        × AppendsFront (W.taken writer.old) (W.taken writer.new) refusal.text }
    ensures within { IsFresh (R.seen reader.old) → exit_status result ≢ 4
        → IsReadWhole (R.seen reader.new) }
{
    ExitCode::from(run(alloc, reader, writer))
}

fn main(rt: HostRuntime) -> ExitCode {
    let mut reader = Watched::new(rt.reader());
    let mut writer = Watched::new(rt.stdout());
    exit_code(rt.alloc(), &mut reader, &mut writer)
}
