//! Lists of a kind.

ghost use Rattle.std.specs.Prelude.{◌≡◌, ◌<◌, ◌∷◌, OnOk, IfOk, map, refl, is_some, IfErr, IsTrue, vec_len, vec_capacity};
ghost use Rattle.json.specs.Token.{begin_array};
ghost use Rattle.serde_json.specs.Find.{as_array};
ghost use Rattle.serde_json.specs.Data.{array};
ghost use Rattle.gltf_schema.specs.Tree.{trees, list};
ghost use Rattle.gltf_schema.specs.Kind.{ListOf};
ghost use Rattle.gltf_schema.specs.Read.{read, read_items};
ghost use Rattle.gltf_schema.specs.Fields.{list_tree};
ghost use Rattle.gltf_schema.specs.Outcome.{Reads};
ghost use Rattle.gltf_schema.specs.RowPlacing.{place_of, IsInside, ReadsOrPlaces};
ghost use Rattle.gltf_schema.specs.Streamed.{ReadsAt};

use crate::list_writing::{ByTable, encode_items, print_items};
use crate::outline::{Shape, add_node};
use crate::placing::{OwnedStep, Refusal};
use crate::printing::Printing;
use crate::schema::Schema;
use crate::source::Source;
use crate::stream::{Stream, Unread};
use crate::stripping::{Strip, strip_items};
use crate::tokens::Tokens;
use gltf_base::Error;
use serde_json::Value;
use std::alloc::{AllocError, Global};

impl<T: Schema> Schema for Vec<T> {
    ghost is_never_absent = { λ _. refl };

    fn from_token<'a>(from: &mut Stream<'a>) -> Result<Vec<T>, Unread> {
        from.reader.begin_array()?;
        read_items(from, 0)
    }

    fn decode_from<S: Source>(alloc: Global, source: S) -> Result<Vec<T>, Error> {
        let Some(items) = source.into_items() else {
            return Err(Error::Schema);
        };
        decode_items::<S, T>(alloc, items)
    }

    fn decode_or_place<S: Source>(alloc: Global, source: S) -> Result<Vec<T>, Refusal>
        ensures by_table { ReadsOrPlaces (λ v. list (trees (map T.tree v.items))) result
            (ListOf T.kind) (S.given source) }
        // An array is refused at one of its items.
        ensures inside { IfErr result (λ r. IsTrue (is_some (as_array (S.given source)))
            → IsInside (place_of r)) }
    {
        match source.into_items() {
            Some(items) => place_items::<S, T>(alloc, items),
            None => Err(Refusal::here(alloc, Error::Schema)),
        }
    }

    fn encode(&self, alloc: Global) -> Result<Value, Error> {
        Ok(Value::Array(encode_items::<ByTable, T>(alloc, self)?))
    }

    fn print<W: Tokens>(&self, to: &mut Printing<W>) {
        print_items::<ByTable, T, W>(self, to);
    }

    fn strip(&mut self, what: Strip) {
        strip_items(self, what);
    }

    fn outline(alloc: Global, nodes: &mut Vec<Shape>) -> Result<usize, AllocError> {
        let items = T::outline(alloc, nodes)?;
        add_node(nodes, Shape::List(items))
    }
}

/// Each item, in order.
pub(crate) fn decode_items<S: Source, T: Schema>(
    alloc: Global,
    items: S::Items,
) -> Result<Vec<T>, Error>
    ensures { Reads (λ v. trees (map T.tree v.items)) result
        (read_items (read T.kind) (S.items items)) }
{
    let mut found = Vec::with_capacity(alloc, S::room(&items))?;
    let mut rest = items;
    'items: while let Some(item) = S::next(&mut rest) {
        T::decode_onto(alloc, item, &mut found)?;
    }
    Ok(found)
}

/// Reads the items of an array whose bracket was taken, into a list with room for so many.
pub(crate) fn read_items<'a, T: Schema>(
    from: &mut Stream<'a>,
    room: usize,
) -> Result<Vec<T>, Unread>
    ensures read { IfOk result (λ v. ReadsAt (ListOf T.kind) (list_tree T.tree v.items)
        from.old.depth (begin_array ∷ from.old.reader) from.new.reader) }
    ensures depth { OnOk result (from.new.depth ≡ from.old.depth) }
    ensures pass { OnOk result (from.new.pass ≡ from.old.pass) }
{
    if from.depth == 0 {
        return Err(Unread);
    }
    from.depth -= 1;
    let mut list = Vec::with_capacity(from.alloc, room)?;
    'items: while !from.reader.take_end_array()? {
        T::read_onto(&mut list, from)?;
    }
    from.depth += 1;
    Ok(list)
}

/// Makes room for one item more. A list takes room for one item first, since most lists of objects
/// that an object holds have one.
#[inline(always)]
pub(crate) fn make_room<T: Drop>(list: &mut Vec<T>) -> Result<(), AllocError>
    ensures items { list.new.items ≡ list.old.items }
    ensures room { OnOk result (vec_len list.new < vec_capacity list.new) }
{
    if list.is_empty() {
        list.reserve_exact(1)
    } else {
        list.reserve(1)
    }
}

/// Each item, in order. Fails with the place of the first item that is refused.
pub(crate) fn place_items<S: Source, T: Schema>(
    alloc: Global,
    items: S::Items,
) -> Result<Vec<T>, Refusal>
    ensures by_table { ReadsOrPlaces (λ v. list (trees (map T.tree v.items))) result (ListOf T.kind)
        (array (S.items items)) }
    ensures inside { IfErr result (λ r. IsInside (place_of r)) }
{
    let mut found = Vec::with_capacity(alloc, S::room(&items))?;
    let mut rest = items;
    'items: while let Some(item) = S::next(&mut rest) {
        match T::decode_or_place(alloc, item) {
            Ok(value) => found.push(value)?,
            Err(refusal) => return Err(refusal.within(OwnedStep::Index(found.len()))),
        }
    }
    Ok(found)
}
