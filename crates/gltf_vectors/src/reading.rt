//! How objects are read from texts.

use gltf_json::{Schema, Value};
use std::alloc::Global;
use std::test::Fail;

/// An object that is given as a JSON text.
pub(crate) fn object<T: Schema>(alloc: Global, text: &str) -> Result<T, Fail> {
    Ok(T::decode(alloc, Value::from_str(alloc, text)?)?)
}
