//! Values of another kind of JSON than is wanted.

ghost use Rattle.std.specs.Prelude.{◌≡◌, option_map};
ghost use Rattle.serde_json.specs.View.{view};
ghost use Rattle.gltf_findings_members.specs.Misfits.{misfit, index_misfit, whole_misfit, out_of_range, is_integer, mismatch_unless, misfit_in, item_mismatch};

use gltf_findings_codes::Code;
use gltf_schema::Shape;
use serde_json::Value;

/// What is wrong with a value by itself, if the format wants this shape.
pub(crate) fn misfit(shape: Option<&Shape>, value: &Value) -> Option<Code>
    ensures { result ≡ misfit (option_map (λ s. s.now) shape.entry) (view value.now) }
{
    match shape {
        None | Some(Shape::Any) => None,
        Some(Shape::Whole32) => index_misfit(value),
        Some(Shape::Whole64) => whole_misfit(value),
        Some(Shape::Number) => mismatch_unless(value.is_number()),
        Some(Shape::Text) => mismatch_unless(value.is_string()),
        Some(Shape::Truth) => mismatch_unless(value.is_boolean()),
        Some(Shape::Numbers(_, _)) | Some(Shape::List(_)) => mismatch_unless(value.is_array()),
        Some(Shape::Indexes(_)) | Some(Shape::Object(_, _)) => mismatch_unless(value.is_object()),
    }
}

/// What is wrong with a value that must be a number below 2^32.
pub(crate) fn index_misfit(value: &Value) -> Option<Code>
    ensures { result ≡ index_misfit (view value.now) }
{
    match value.as_u64() {
        Some(number) if number < 0x1_0000_0000 => None,
        _ => Some(out_of_range(value, Code::InvalidIndex)),
    }
}

/// What is wrong with a value that must be a number below 2^64.
fn whole_misfit(value: &Value) -> Option<Code>
    ensures { result ≡ whole_misfit (view value.now) }
{
    match value.as_u64() {
        Some(_) => None,
        None => Some(out_of_range(value, Code::ValueNotInRange)),
    }
}

/// The code of a whole number that is out of range, or of another value.
fn out_of_range(value: &Value, code: Code) -> Code
    ensures { result ≡ out_of_range (view value.now) code }
{
    // derived
    if is_integer(value) {
        code
    } else {
        Code::TypeMismatch
    }
}

/// Whether a value is a whole number of at most 64 bits.
fn is_integer(value: &Value) -> bool
    ensures { result ≡ is_integer (view value.now) }
{
    match value.as_number() {
        Some(number) => !number.is_f64(),
        None => false,
    }
}

/// The code of a value that is of another kind than is wanted.
pub(crate) fn mismatch_unless(is_wanted: bool) -> Option<Code>
    ensures { result ≡ mismatch_unless is_wanted }
{
    // derived
    if is_wanted {
        None
    } else {
        Some(Code::TypeMismatch)
    }
}

/// What is wrong with a value that may be an item of a list.
pub(crate) fn misfit_in(is_item: bool, shape: Option<&Shape>, value: &Value) -> Option<Code>
    ensures { result ≡ misfit_in is_item (option_map (λ s. s.now) shape.entry) (view value.now) }
{
    match misfit(shape, value) {
        Some(Code::TypeMismatch) if is_item => Some(item_mismatch(shape)),
        code => code,
    }
}

/// The code of an item that is of another kind than is wanted.
fn item_mismatch(shape: Option<&Shape>) -> Code
    ensures { result ≡ item_mismatch (option_map (λ s. s.now) shape.entry) }
{
    // derived
    match shape {
        Some(Shape::Whole32) => Code::InvalidIndex,
        _ => Code::ArrayTypeMismatch,
    }
}
