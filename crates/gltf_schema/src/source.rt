//! Where a value is read from: a `serde_json::Value`, or a source of your own.

ghost use Rattle.std.specs.Prelude.{◌≡◌, IfOk, MatchOption, is_some, option_map, string_bytes};
ghost use Rattle.std.specs.Vec.Iter.{into_iter_items};
ghost use Rattle.serde_json.specs.Data.{Data, Items as DataItems, Members, item, no_items, no_members};
ghost use Rattle.serde_json.specs.Find.{as_array, as_bool, as_null, as_object, as_str, get_member};
ghost use Rattle.serde_json.specs.View.{items_view, members_view, view};
ghost use Rattle.gltf_schema.specs.Read.{whole_number};
ghost use Rattle.gltf_schema.specs.Taken.{without};

use serde_json::{Map, Value};
use std::alloc::{AllocError, Global};
use std::vec::IntoIter;

/// A JSON value to read from. What is read moves out of it.
pub trait Source: Drop {
    /// The members of an object that are left to read.
    type Fields: Drop;

    /// The items of an array that are left to read.
    type Items: Drop;

    ghost given: { Self → Data };

    ghost members: { Self.Fields → Members };

    ghost items: { Self.Items → DataItems };

    /// Returns whether the value is null.
    fn is_null(&self) -> bool
        ensures { result ≡ is_some (as_null (given self.now)) };

    /// Returns the truth value if the value is one.
    fn truth(&self) -> Option<bool>
        ensures { result ≡ as_bool (given self.now) };

    /// Returns the whole number if the value is one of 64 bits.
    fn whole(&self) -> Option<u64>
        ensures { result ≡ whole_number (given self.now) };

    /// Returns the text if the value is one.
    fn text(&self) -> Option<&str>
        ensures { option_map (λ t. t.now) result ≡ as_str (given self.now) };

    /// Returns the text as a `String` if the value is one. Fails if out of memory.
    fn into_text(self, alloc: Global) -> Result<Option<String>, AllocError>
        ensures { IfOk result (λ t. option_map string_bytes t ≡ as_str (given self)) };

    /// Returns the whole value. Fails if out of memory.
    fn into_value(self, alloc: Global) -> Result<Value, AllocError>
        ensures { IfOk result (λ v. view v ≡ given self) };

    /// Returns the members if the value is an object.
    fn into_fields(self) -> Option<Self::Fields>
        ensures { option_map members result ≡ as_object (given self) };

    /// Returns the items if the value is an array.
    fn into_items(self) -> Option<Self::Items>
        ensures { option_map items result ≡ as_array (given self) };

    /// Returns the members of an empty object.
    fn no_fields(alloc: Global) -> Self::Fields
        ensures { members result ≡ no_members };

    /// Takes out the member with a name; of several, the last one.
    fn take(fields: &mut Self::Fields, name: &str) -> Option<Self>
        ensures taken { option_map given result ≡ get_member name.now (members fields.old) }
        ensures left { members fields.new ≡ without name.now (members fields.old) };

    /// Returns the members that are left. Fails if out of memory.
    fn into_others(fields: Self::Fields, alloc: Global) -> Result<Map<String, Value>, AllocError>
        ensures { IfOk result (λ m. members_view m.entries ≡ members fields) };

    /// Takes out the first item that is left.
    fn next(rest: &mut Self::Items) -> Option<Self>
        ensures { MatchOption result (items rest.old ≡ no_items)
            (λ x. items rest.old ≡ item (given x) (items rest.new)) };

    /// Returns how many items are left, to reserve memory for them. No contract uses it.
    fn room(rest: &Self::Items) -> usize;
}

impl Source for Value {
    type Fields = Map<String, Value>;

    type Items = IntoIter<Value>;

    ghost given = { view };

    ghost members = { λ m. members_view m.entries };

    ghost items = { λ i. items_view (into_iter_items i) };

    fn is_null(&self) -> bool {
        Value::is_null(self)
    }

    fn truth(&self) -> Option<bool> {
        self.as_bool()
    }

    fn whole(&self) -> Option<u64> {
        self.as_u64()
    }

    fn text(&self) -> Option<&str> {
        self.as_str()
    }

    fn into_text(self, _alloc: Global) -> Result<Option<String>, AllocError> {
        match self {
            Value::String(text) => Ok(Some(text)),
            _ => Ok(None),
        }
    }

    fn into_value(self, _alloc: Global) -> Result<Value, AllocError> {
        Ok(self)
    }

    fn into_fields(self) -> Option<Map<String, Value>> {
        match self {
            Value::Object(members) => Some(members),
            _ => None,
        }
    }

    fn into_items(self) -> Option<IntoIter<Value>> {
        match self {
            Value::Array(items) => Some(items.into_iter()),
            _ => None,
        }
    }

    fn no_fields(alloc: Global) -> Map<String, Value> {
        Map::new(alloc)
    }

    fn take(fields: &mut Map<String, Value>, name: &str) -> Option<Value> {
        fields.remove(name)
    }

    fn into_others(
        fields: Map<String, Value>,
        _alloc: Global,
    ) -> Result<Map<String, Value>, AllocError> {
        Ok(fields)
    }

    fn next(rest: &mut IntoIter<Value>) -> Option<Value> {
        rest.next()
    }

    fn room(rest: &IntoIter<Value>) -> usize {
        rest.len()
    }
}
