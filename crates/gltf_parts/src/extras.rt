//! Application-specific data (glTF 2.0, section 5.16).

ghost use Rattle.std.specs.Prelude.{Some, codes};

use gltf_schema::Tabled;
use serde_json::Value;
use std::fmt::{self, Debug, Display, Formatter, Write};

/// Application-specific data of an object: any JSON value.
pub type Extras = Option<Value>;

/// The absence of application-specific data.
#[derive(Clone, Drop)]
pub struct Void {}

impl Tabled for Void {}

impl Void {
    /// Returns a `Void`.
    pub fn new() -> Void {
        Void {}
    }
}

impl Display for Void {
    ghost output = { λ _. Some (codes "{}") };

    fn fmt<W: Write>(&self, f: &mut Formatter<W>) -> fmt::Result {
        f.write_str("{}")
    }
}

impl Debug for Void {
    ghost debug_output = { λ _. Some (codes "{}") };

    fn fmt<W: Write>(&self, f: &mut Formatter<W>) -> fmt::Result {
        Display::fmt(self, f)
    }
}
