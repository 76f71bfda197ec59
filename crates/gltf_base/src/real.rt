//! JSON numbers that are kept as they are.

ghost use Rattle.std.specs.Prelude.{◌≡◌, true, is_some};
ghost use Rattle.serde_json.specs.Find.{as_number};
ghost use Rattle.serde_json.specs.View.{view};

use serde_json::{Number, Value};
use std::alloc::AllocError;
use std::mem::forget;

/// A JSON number, kept as it was read.
#[derive(Debug)]
pub struct Real {
    value: Value,
    ghost is_number: { is_some (as_number (view value)) ≡ true },
}

impl Real {
    ghost use Rattle.std.specs.Prelude.{IfOk, IfErr, IfSome, None, Some, option_map};
    ghost use Rattle.std.specs.Float.{float_is_finite};
    ghost use Rattle.serde_json.specs.Find.{of_integer, of_float, to_float};
    ghost use Rattle.gltf_base.specs.Reals.{real_value, real_number, IsShortFormOf};

    /// Returns the number if the value is one, and otherwise hands the value back.
    pub fn from_value(value: Value) -> Result<Real, Value>
        ensures number { IfOk result (λ x. real_value x ≡ value) }
        ensures is_number { IfOk result (λ x. as_number (view value) ≡ Some (real_number x)) }
        ensures other { IfErr result (λ v. (v ≡ value) × (as_number (view value) ≡ None)) }
    {
        if value.is_number() {
            Ok(Real { value })
        } else {
            Err(value)
        }
    }

    /// Returns a whole number.
    pub fn from_i64(number: i64) -> Real
        ensures { real_number result ≡ of_integer number }
    {
        Real {
            value: Value::from(number),
        }
    }

    /// Returns the number, or `None` if it is infinite or NaN, which JSON can't write.
    pub fn from_f64(number: f64) -> Option<Real>
        ensures { option_map real_number result ≡ of_float number }
    {
        match Number::from_f64(number) {
            Some(number) => Some(Real {
                value: Value::Number(number),
            }),
            None => None,
        }
    }

    /// Returns the number with the digits of this `f32`, or `None` if it is infinite or NaN, which
    /// JSON can't write. `0.7_f32` is the number that is written `0.7`, where
    /// `from_f64(f64::from(number))` is written `0.699999988079071`.
    ///
    /// The digits are those that `ryu` writes. They read back as this `f32`, and the number is the
    /// `f64` nearest to them.
    pub fn from_f32(number: f32) -> Option<Real>
        ensures finite { is_some result ≡ float_is_finite number }
        ensures digits { IfSome result (λ x. IsShortFormOf number (real_number x)) }
    {
        if !number.is_finite() {
            return None;
        }
        let mut buffer = ryu::Buffer::new();
        let nearest: f64 = fast_float::parse(buffer.format_finite(number)).ok()?;
        Real::from_f64(nearest)
    }

    /// Returns the nearest float.
    pub fn as_f64(&self) -> f64
        ensures { result ≡ to_float (real_number self.now) }
    {
        match self.value.as_f64() {
            Some(number) => number,
            // It holds a number.
            None => unreachable!(),
        }
    }

    /// Returns the number as a JSON value.
    pub fn as_value(&self) -> &Value
        ensures held { result.now ≡ real_value self.now }
        ensures is_number { as_number (view result.now) ≡ Some (real_number self.now) }
    {
        &self.value
    }
}

// A number owns no memory: nothing has to be dropped, and no code tests for the six kinds of a JSON
// value (docs/DECISIONS.md, "Large values").
impl Drop for Real {
    fn drop(self) {
        let Real { value } = self;
        prove!(value.is_number());
        forget(value)
    }
}

impl Clone for Real {
    ghost use Rattle.gltf_base.specs.Reals.{real_number};

    ghost is_clone = { λ from to. real_number to ≡ real_number from };

    fn clone(&self) -> Result<Real, AllocError> {
        match &self.value {
            Value::Number(number) => Ok(Real {
                value: Value::Number(*number),
            }),
            // It holds a number.
            _ => unreachable!(),
        }
    }
}
