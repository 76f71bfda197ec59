//! The attributes of a primitive: an object whose names are semantics and whose values are indexes.

ghost use Rattle.std.specs.Prelude.{◌≡◌, ◌∷◌, map, true, IfOk, OnOk, refl, string_bytes};
ghost use Rattle.json.specs.Token.{begin_object};
ghost use Rattle.serde_json.specs.Data.{no_members, object};
ghost use Rattle.serde_json.specs.View.{members_view};
ghost use Rattle.gltf_base.specs.Semantics.{checked_key};
ghost use Rattle.gltf_schema.specs.Kind.{Attributes};
ghost use Rattle.gltf_schema.specs.Fields.{entry_of, attributes_tree};
ghost use Rattle.gltf_schema.specs.Invalid.{is_unknown, any_unknown};
ghost use Rattle.gltf_schema.specs.Write.{key_name, are_in_order, write_entries};
ghost use Rattle.gltf_schema.specs.Outcome.{Writes};
ghost use Rattle.gltf_schema.specs.RowPlacing.{ReadsOrPlaces};
ghost use Rattle.gltf_schema.specs.Streamed.{ReadsAt};

use crate::outline::{Shape, add_node};
use crate::placing::{OwnedStep, Refusal};
use crate::schema::Schema;
use crate::source::Source;
use crate::stream::{Stream, Unread};
use crate::stripping::Strip;
use crate::tabled::Tabled;
use gltf_base::mesh::Semantic;
use gltf_base::validation::Checked;
use gltf_base::{Error, IndexTo, Names};
use serde_json::{Map, Value};
use std::alloc::{AllocError, Global};
use std::collections::BTreeMap;

impl<P: Names> Tabled for BTreeMap<Checked<Semantic>, IndexTo<P>> {
    ghost kind = { Attributes P.Item.list };

    ghost tree = { attributes_tree };
}

impl<P: Names> Schema for BTreeMap<Checked<Semantic>, IndexTo<P>> {
    ghost is_never_absent = { λ _. refl };

    fn from_token<'a>(
        from: &mut Stream<'a>,
    ) -> Result<BTreeMap<Checked<Semantic>, IndexTo<P>>, Unread> {
        from.reader.begin_object()?;
        read_entries(from)
    }

    fn decode_from<S: Source>(
        alloc: Global,
        source: S,
    ) -> Result<BTreeMap<Checked<Semantic>, IndexTo<P>>, Error> {
        let Some(members) = source.into_fields() else {
            return Err(Error::Schema);
        };
        match decode_entries(alloc, S::into_others(members, alloc)?) {
            Ok(attributes) => Ok(attributes),
            Err(Refusal::At(_)) => Err(Error::Schema),
            Err(Refusal::Memory(refused)) => Err(Error::Memory(refused)),
        }
    }

    fn decode_or_place<S: Source>(
        alloc: Global,
        source: S,
    ) -> Result<BTreeMap<Checked<Semantic>, IndexTo<P>>, Refusal> {
        match source.into_fields() {
            Some(members) => decode_entries(alloc, S::into_others(members, alloc)?),
            None => Err(Refusal::here(alloc, Error::Schema)),
        }
    }

    fn encode(&self, alloc: Global) -> Result<Value, Error> {
        Ok(Value::Object(encode_entries(alloc, self)?))
    }

    fn strip(&mut self, _what: Strip) {}

    fn outline(alloc: Global, nodes: &mut Vec<Shape>) -> Result<usize, AllocError> {
        let values = IndexTo::<P>::outline(alloc, nodes)?;
        add_node(nodes, Shape::Indexes(values))
    }
}

/// Each member's index under the key that its name means; of names with one key the last one's
/// stays. Fails with the place of the first member that is no index.
fn decode_entries<P: Names>(
    alloc: Global,
    members: Map<String, Value>,
) -> Result<BTreeMap<Checked<Semantic>, IndexTo<P>>, Refusal>
    ensures { ReadsOrPlaces attributes_tree result (Attributes P.Item.list)
        (object (members_view members.entries)) }
{
    let mut found = BTreeMap::new(alloc);
    for (name, value) in members {
        match IndexTo::decode_or_place(alloc, value) {
            Ok(index) => {
                found.insert(Semantic::checked(alloc, name.as_str())?, index)?;
            }
            Err(refusal) => return Err(refusal.within(OwnedStep::Field(name))),
        }
    }
    Ok(found)
}

/// Reads the members of an object whose brace was taken, each under the key that its name means.
/// Fails if two names mean one key: of those the last one by their bytes counts.
fn read_entries<'a, P: Names>(
    from: &mut Stream<'a>,
) -> Result<BTreeMap<Checked<Semantic>, IndexTo<P>>, Unread>
    ensures read { IfOk result (λ found. ReadsAt (Attributes P.Item.list) (attributes_tree found)
        from.old.depth (begin_object ∷ from.old.reader) from.new.reader) }
    ensures depth { OnOk result (from.new.depth ≡ from.old.depth) }
    ensures pass { OnOk result (from.new.pass ≡ from.old.pass) }
{
    if from.depth == 0 {
        return Err(Unread);
    }
    from.depth -= 1;
    let mut found = BTreeMap::new(from.alloc);
    'members: while let Some(name) = from.reader.next_key()? {
        let key = Semantic::checked(from.alloc, name)?;
        let index = IndexTo::from_token(from)?;
        if found.insert(key, index)?.is_some() {
            return Err(Unread);
        }
    }
    from.depth += 1;
    Ok(found)
}

/// Each index under the name of its key.
fn encode_entries<P: Names>(
    alloc: Global,
    attributes: &BTreeMap<Checked<Semantic>, IndexTo<P>>,
) -> Result<Map<String, Value>, Error>
    ensures written { Writes (λ m. members_view m.entries) result
        (write_entries (map entry_of attributes.now.entries) no_members)
        (any_unknown (map entry_of attributes.now.entries)) }
    ensures in_order { OnOk result (are_in_order (map entry_of attributes.now.entries) ≡ true) }
{
    let mut written = Map::new(alloc);
    for (key, index) in attributes.iter() {
        let name = name_of(alloc, key)?;
        drop(written.insert(name, index.encode(alloc)?)?);
    }
    Ok(written)
}

/// The name under which a key is written.
fn name_of(alloc: Global, key: &Checked<Semantic>) -> Result<String, Error>
    ensures { Writes string_bytes result (key_name (checked_key key.now))
        (is_unknown (checked_key key.now)) }
{
    match key {
        Checked::Valid(semantic) => Ok(semantic.to_string(alloc)?),
        Checked::Invalid => Err(Error::InvalidItem),
    }
}
