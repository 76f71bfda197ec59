//! Outcomes written whole.

ghost use Rattle.std.specs.Prelude.{◌≡◌, ◌⊎◌};
ghost use Rattle.gltf_base.specs.Device.{AppendsFront};
ghost use Rattle.gltf_report_lines.specs.Outcome.{outcome_output};
ghost use Rattle.gltf_report_lines.specs.Run.{IsWritten};

use crate::outcome::Outcome;
use gltf_base::{ByteOut, Failed, write_all};

/// Writes the text of an outcome and returns its status, or 4 if the writer failed.
#[tactic(auto, unfolding(crate::specs::Run::IsWritten))]
pub(crate) fn write_outcome<W: ByteOut>(writer: &mut W, outcome: &Outcome) -> u8
    ensures status { (result ≡ (outcome_output outcome.now).status) ⊎ (result ≡ 4) }
    ensures front { AppendsFront (W.taken writer.old) (W.taken writer.new)
        (outcome_output outcome.now).text }
    ensures written { IsWritten (outcome_output outcome.now) (W.taken writer.old)
        (W.taken writer.new) (W.has_failed writer.old) (W.has_failed writer.new) result }
{
    match write_all(writer, outcome.text().as_bytes()) {
        Ok(()) => outcome.status(),
        Err(Failed) => 4,
    }
}
