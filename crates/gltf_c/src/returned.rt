//! What a call returns, beside what it writes to its caller's buffer.

ghost use Rattle.std.specs.Prelude.{◌≡◌};
ghost use Rattle.gltf_report_lines.specs.Outcome.{outcome_output};
ghost use Rattle.gltf_report_lines.specs.Output.{Output};
ghost use Rattle.gltf_c.specs.Calls.{IsGiven};
ghost use Rattle.gltf_c.specs.Filled.{IsFilled};

use gltf_report_lines::Outcome;

/// What a call returns.
#[repr(C)]
#[derive(Clone, Copy, Debug, Drop)]
pub struct Returned {
    /// The status, which the call's table explains.
    pub status: u8,
    /// How many bytes the whole output has, whether or not the buffer has room for all.
    pub needed: usize,
}

/// Writes the first bytes of an output to the front of a buffer, as many as there is room for, and
/// returns how many the whole output has.
pub(crate) fn fill(output: &mut [u8], bytes: &[u8]) -> usize
    ensures { IsFilled bytes.now output.old output.new result }
{
    let count = bytes.len().min(output.len());
    output[..count].copy_from_slice(&bytes[..count]);
    bytes.len()
}

/// Writes a text to a buffer.
pub(crate) fn give(status: u8, text: &str, output: &mut [u8]) -> Returned
    ensures { IsGiven (record { text = text.now; status = status }) output.old output.new result }
{
    Returned {
        status,
        needed: fill(output, text.as_bytes()),
    }
}

/// Writes the outcome for a document to a buffer.
pub(crate) fn tell(outcome: &Outcome, output: &mut [u8]) -> Returned
    ensures { IsGiven (outcome_output outcome.now) output.old output.new result }
{
    give(outcome.status(), outcome.text(), output)
}

/// Says why there is no output.
pub(crate) fn refuse(status: u8) -> Returned
    ensures status { result.status ≡ status }
    ensures nothing { result.needed ≡ 0 }
{
    Returned { status, needed: 0 }
}
