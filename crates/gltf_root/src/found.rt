//! What JSON is at a place.

ghost use Rattle.std.specs.Prelude.{◌≡◌, option_map};
ghost use Rattle.serde_json.specs.View.{view};
ghost use Rattle.gltf_root.specs.Place.{kind_found};

use serde_json::Value;
use std::fmt::{self, Display, Formatter, Write};

/// What JSON is at a place.
#[derive(Clone, Copy, Debug, Drop, PartialEq, Eq)]
pub enum Found {
    /// Nothing: a member that has to be there is missing.
    Missing,
    Null,
    /// True or false.
    Bool,
    Number,
    Text,
    List,
    Object,
}

impl Found {
    /// What a value is, if it is there.
    pub(crate) fn of(value: Option<&Value>) -> Found
        ensures { result ≡ kind_found (option_map (λ v. view v.now) value.entry) }
    {
        match value {
            None => Found::Missing,
            Some(Value::Null) => Found::Null,
            Some(Value::Bool(_)) => Found::Bool,
            Some(Value::Number(_)) => Found::Number,
            Some(Value::String(_)) => Found::Text,
            Some(Value::Array(_)) => Found::List,
            Some(Value::Object(_)) => Found::Object,
        }
    }
}

impl Display for Found {
    ghost use Rattle.std.specs.Prelude.{Some};
    ghost use Rattle.gltf_root.specs.FoundText.{found_text};

    ghost output = { λ found. Some (found_text found) };

    /// In a reader's words, as `a number` or `nothing`.
    fn fmt<W: Write>(&self, f: &mut Formatter<W>) -> fmt::Result {
        f.write_str(match self {
            Found::Missing => "nothing",
            Found::Null => "null",
            Found::Bool => "true or false",
            Found::Number => "a number",
            Found::Text => "a text",
            Found::List => "a list",
            Found::Object => "an object",
        })
    }
}
