//! Whole numbers.

ghost use Rattle.std.specs.Prelude.{◌≡◌, Some, IfSome};
ghost use Rattle.serde_json.specs.Data.{unsigned};
ghost use Rattle.serde_json.specs.Read.{number_of};

/// With as many digits every whole number has 64 bits.
pub(crate) const MOST_DIGITS: usize = 19;

/// Returns the whole number that a number of JSON writes by its digits alone, or `None` if it has
/// another byte, or more than 19 of them.
#[inline(always)]
pub fn whole_in(text: &str) -> Option<u64>
    ensures { IfSome result (λ n. number_of text.now ≡ Some (unsigned n)) }
{
    let bytes = text.as_bytes();
    let n = bytes.len();
    if n == 0 || n > MOST_DIGITS {
        return None;
    }
    let mut value = 0;
    let mut i = 0;
    while i < n {
        let byte = bytes[i];
        if byte < b'0' || byte > b'9' {
            return None;
        }
        value = value * 10 + u64::from(byte - b'0');
        i += 1;
    }
    Some(value)
}
