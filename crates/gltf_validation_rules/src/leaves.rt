//! Choices and strides.

ghost use Rattle.std.specs.Prelude.{◌≡◌, List};
ghost use Rattle.gltf_base.specs.Spelling.{Spelling};
ghost use Rattle.gltf_parts.specs.Buffer.{stride_tree};
ghost use Rattle.gltf_base.specs.Steps.{Step};
ghost use Rattle.gltf_schema.specs.Leaves.{checked_tree};
ghost use Rattle.gltf_validation_rules.specs.Report.{found_at};
ghost use Rattle.gltf_validation_rules.specs.Faults.{choice_faults, stride_faults};

use gltf_base::buffer::{MAX_BYTE_STRIDE, MIN_BYTE_STRIDE};
use gltf_base::validation::{Checked, Error};
use gltf_parts::buffer::Stride;

/// What is wrong with an item of a choice: `Invalid` if the choice doesn't list it.
pub fn choice_fault<T>(item: &Checked<T>) -> Option<Error>
    ensures { (spell : T → Spelling) (base : List Step)
        → found_at result base ≡ choice_faults (checked_tree spell item.now) base }
{
    match item {
        Checked::Valid(_) => None,
        Checked::Invalid => Some(Error::Invalid),
    }
}

/// What is wrong with a stride: `Invalid` if it is below 4 or above 252 bytes (glTF 2.0, section
/// 5.11.4).
pub fn stride_fault(stride: &Stride) -> Option<Error>
    ensures { (base : List Step)
        → found_at result base ≡ stride_faults (stride_tree stride.now) base }
{
    if MIN_BYTE_STRIDE <= stride.0 && stride.0 <= MAX_BYTE_STRIDE {
        None
    } else {
        Some(Error::Invalid)
    }
}
