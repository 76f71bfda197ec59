//! Whether a value of JSON that holds no others is what is wanted.

ghost use Rattle.std.specs.Prelude.{◌≡◌, None, Some, IsTrue, option_map};
ghost use Rattle.serde_json.specs.Data.{Num, number as number_data};
ghost use Rattle.serde_json.specs.Read.{number_of};
ghost use Rattle.gltf_findings_members.specs.Misfits.{index_misfit, misfit};
ghost use Rattle.gltf_findings_members.specs.Quiet.{wants_any, wants_text, wants_truth};

use gltf_schema::{Shape, whole_in};

/// Whether any JSON is wanted.
#[inline(always)]
pub(crate) fn may_be_any(shape: Option<&Shape>) -> bool
    ensures { result ≡ wants_any (option_map (λ s. s.now) shape.entry) }
{
    matches!(shape, None | Some(Shape::Any))
}

/// Whether a text is wanted.
#[inline(always)]
pub(crate) fn may_be_text(shape: Option<&Shape>) -> bool
    ensures { result ≡ wants_text (option_map (λ s. s.now) shape.entry) }
{
    matches!(shape, None | Some(Shape::Any) | Some(Shape::Text))
}

/// Whether a truth value is wanted.
#[inline(always)]
pub(crate) fn may_be_truth(shape: Option<&Shape>) -> bool
    ensures { result ≡ wants_truth (option_map (λ s. s.now) shape.entry) }
{
    matches!(shape, None | Some(Shape::Any) | Some(Shape::Truth))
}

/// Whether a number is what is wanted.
#[inline(always)]
pub(crate) fn may_be_number(shape: Option<&Shape>, text: &str) -> bool
    ensures { IsTrue result → (n : Num) → number_of text.now ≡ Some n
        → misfit (option_map (λ s. s.now) shape.entry) (number_data n) ≡ None }
{
    match shape {
        None | Some(Shape::Any) | Some(Shape::Number) => true,
        Some(Shape::Whole64) => whole_in(text).is_some(),
        Some(Shape::Whole32) => is_index(text),
        _ => false,
    }
}

/// Whether a number is whole and below 2^32.
pub(crate) fn is_index(text: &str) -> bool
    ensures { IsTrue result → (n : Num) → number_of text.now ≡ Some n
        → index_misfit (number_data n) ≡ None }
{
    match whole_in(text) {
        Some(number) => number < 0x1_0000_0000,
        None => false,
    }
}
