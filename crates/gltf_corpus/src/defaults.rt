//! Compares what absent numbers mean with what `objects.json` expects. Each constant is under the
//! names of the object and of the member that may be absent (`derived.rt`).

use crate::expected::{are_same, object_at};
use anyhow::Result;
use gltf_json::Value;
use gltf_json::extensions::material::AttenuationDistance;
use serde_json::{Map, Number};
use std::alloc::{AllocError, Global};

mod derived;

use derived::{ARRAYS, NUMBERS};

/// A number of JSON; null for what JSON has no number for.
fn value_of(number: Option<f64>) -> Value {
    match number.and_then(Number::from_f64) {
        Some(number) => Value::Number(number),
        None => Value::Null,
    }
}

/// An array of numbers.
fn array_of(alloc: Global, numbers: &[f64]) -> Result<Value, AllocError> {
    let mut items = Vec::new(alloc);
    for number in numbers {
        items.push(value_of(Some(*number)))?;
    }
    Ok(Value::Array(items))
}

/// What absent numbers mean, by the name of the object and of the member.
fn defaults(alloc: Global) -> Result<Map<String, Value>, AllocError> {
    let mut found = Map::new(alloc);
    for (name, number) in NUMBERS {
        found.insert(String::from_str(alloc, name)?, value_of(Some(*number)))?;
    }
    for (name, numbers) in ARRAYS {
        found.insert(String::from_str(alloc, name)?, array_of(alloc, numbers)?)?;
    }
    let name = String::from_str(alloc, "Volume.attenuationDistance")?;
    found.insert(name, value_of(AttenuationDistance(None).value()))?;
    Ok(found)
}

/// Whether absent numbers mean what is expected.
pub fn are_defaults_expected(rt: &HostRuntime, data: &Value) -> Result<bool> {
    let found = defaults(rt.alloc())?;
    are_same(rt, "absent", object_at(data, "/absent")?, &found)
}
