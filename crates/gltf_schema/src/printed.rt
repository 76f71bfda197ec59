//! Values of `serde_json`, printed. Each function fails if out of memory.

ghost use Rattle.std.specs.Prelude.{◌≡◌, OnOk};
ghost use Rattle.serde_json.specs.Data.{null, boolean, string, number, unsigned};
ghost use Rattle.serde_json.specs.View.{view, items_view, members_view, number_view};
ghost use Rattle.serde_json.specs.Written.{WritesValue, WritesItems, WritesMembers};

use crate::tokens::Tokens;
use serde_json::{Map, Number, Value};
use std::alloc::AllocError;

#[inline]
pub(crate) fn print_null<W: Tokens>(out: &mut W) -> Result<(), AllocError>
    ensures ok { OnOk result (WritesValue null (W.written out.old) (W.written out.new)) }
    ensures before { W.before out.new ≡ W.before out.old }
{
    out.null()
}

#[inline]
pub(crate) fn print_truth<W: Tokens>(b: bool, out: &mut W) -> Result<(), AllocError>
    ensures ok { OnOk result
        (WritesValue (boolean b) (W.written out.old) (W.written out.new)) }
    ensures before { W.before out.new ≡ W.before out.old }
{
    out.truth(b)
}

#[inline]
pub(crate) fn print_text<W: Tokens>(text: &str, out: &mut W) -> Result<(), AllocError>
    ensures ok { OnOk result
        (WritesValue (string text.now) (W.written out.old) (W.written out.new)) }
    ensures before { W.before out.new ≡ W.before out.old }
{
    out.text(text)
}

#[inline]
pub(crate) fn print_whole<W: Tokens>(n: u64, out: &mut W) -> Result<(), AllocError>
    ensures ok { OnOk result
        (WritesValue (number (unsigned n)) (W.written out.old) (W.written out.new)) }
    ensures before { W.before out.new ≡ W.before out.old }
{
    out.whole(n)
}

#[inline]
pub(crate) fn print_number<W: Tokens>(n: &Number, out: &mut W) -> Result<(), AllocError>
    ensures ok { OnOk result
        (WritesValue (number (number_view n.now)) (W.written out.old) (W.written out.new)) }
    ensures before { W.before out.new ≡ W.before out.old }
{
    out.number(n)
}

/// The value and all that is in it.
#[cycle(print)]
pub(crate) fn print_value<W: Tokens>(value: &Value, out: &mut W) -> Result<(), AllocError>
    ensures ok { OnOk result
        (WritesValue (view value.now) (W.written out.old) (W.written out.new)) }
    ensures before { W.before out.new ≡ W.before out.old }
{
    match value {
        Value::Null => print_null(out),
        Value::Bool(b) => print_truth(*b, out),
        Value::Number(n) => print_number(n, out),
        Value::String(text) => print_text(text.as_str(), out),
        Value::Array(items) => {
            out.begin_array()?;
            print_items(items, out)
        }
        Value::Object(members) => {
            out.begin_object()?;
            print_members(members, out)
        }
    }
}

/// The items of an array, and its end.
#[cycle(print)]
fn print_items<W: Tokens>(items: &Vec<Value>, out: &mut W) -> Result<(), AllocError>
    ensures ok { OnOk result
        (WritesItems (items_view items.now.items) (W.written out.old) (W.written out.new)) }
    ensures before { W.before out.new ≡ W.before out.old }
{
    for item in items {
        print_value(item, out)?;
    }
    out.end_array()
}

/// The members of an object, and its end.
#[cycle(print)]
pub(crate) fn print_members<W: Tokens>(
    members: &Map<String, Value>,
    out: &mut W,
) -> Result<(), AllocError>
    ensures ok { OnOk result
        (WritesMembers (members_view members.now.entries) (W.written out.old)
        (W.written out.new)) }
    ensures before { W.before out.new ≡ W.before out.old }
{
    for (name, member) in members.iter() {
        out.key(name.as_str())?;
        print_value(member, out)?;
    }
    out.end_object()
}
