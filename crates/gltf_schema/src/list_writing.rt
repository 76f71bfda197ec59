//! The items of a list, as they are written: by the table, or without nulls.

ghost use Rattle.std.specs.Prelude.{◌≡◌, map, option_map};
ghost use Rattle.serde_json.specs.Data.{array};
ghost use Rattle.serde_json.specs.View.{view, items_view};
ghost use Rattle.gltf_schema.specs.Tree.{trees};
ghost use Rattle.gltf_schema.specs.Kind.{Kind};
ghost use Rattle.gltf_schema.specs.Nulls.{without_nulls};
ghost use Rattle.gltf_schema.specs.Write.{write, write_items};
ghost use Rattle.gltf_schema.specs.Invalid.{holds_invalid, any_holds_invalid};
ghost use Rattle.gltf_schema.specs.Outcome.{Writes};
ghost use Rattle.gltf_schema.specs.Printings.{printing_state, PrintsValue};

use crate::printing::Printing;
use crate::schema::Schema;
use crate::strict::Strict;
use crate::tokens::Tokens;
use gltf_base::Error;
use serde_json::Value;
use std::alloc::Global;

/// How an item of a list is written.
pub(crate) trait WriteItem<T: Schema> {
    /// The kind by which it is written.
    ghost written_kind: { Kind };

    /// Encodes an item.
    fn encode_item(item: &T, alloc: Global) -> Result<Value, Error>
        ensures { Writes view result (write written_kind (T.tree item.now))
            (holds_invalid (T.tree item.now)) };

    /// Prints the same JSON.
    fn print_item<W: Tokens>(item: &T, to: &mut Printing<W>)
        ensures { PrintsValue (printing_state W.written W.before to.old)
            (write written_kind (T.tree item.now)) (holds_invalid (T.tree item.now))
            (printing_state W.written W.before to.new) };
}

/// Items as the table writes them.
pub(crate) struct ByTable;

/// Items without nulls.
pub(crate) struct WithoutNulls;

impl<T: Schema> WriteItem<T> for ByTable {
    ghost written_kind = { T.kind };

    fn encode_item(item: &T, alloc: Global) -> Result<Value, Error> {
        item.encode(alloc)
    }

    fn print_item<W: Tokens>(item: &T, to: &mut Printing<W>) {
        item.print(to);
    }
}

impl<T: Strict> WriteItem<T> for WithoutNulls {
    ghost written_kind = { without_nulls T.kind };

    fn encode_item(item: &T, alloc: Global) -> Result<Value, Error> {
        item.encode_strictly(alloc)
    }

    fn print_item<W: Tokens>(item: &T, to: &mut Printing<W>) {
        item.print_strictly(to);
    }
}

/// Each item, in order.
pub(crate) fn encode_items<I: WriteItem<T>, T: Schema>(
    alloc: Global,
    items: &[T],
) -> Result<Vec<Value>, Error>
    ensures { Writes (λ v. items_view v.items) result
        (write_items (write I.written_kind) (trees (map T.tree items.now)))
        (any_holds_invalid (trees (map T.tree items.now))) }
{
    let mut written = Vec::with_capacity(alloc, items.len())?;
    for item in items {
        written.push(I::encode_item(item, alloc)?)?;
    }
    Ok(written)
}

/// Each item, in order, in brackets.
pub(crate) fn print_items<I: WriteItem<T>, T: Schema, W: Tokens>(items: &[T], to: &mut Printing<W>)
    ensures { PrintsValue (printing_state W.written W.before to.old)
        (option_map array (write_items (write I.written_kind) (trees (map T.tree items.now))))
        (any_holds_invalid (trees (map T.tree items.now)))
        (printing_state W.written W.before to.new) }
{
    to.begin_array();
    for item in items {
        I::print_item(item, to);
    }
    to.end_array();
}
