//! Maps.

ghost use Rattle.std.specs.Prelude.{◌≡◌, ◌+◌, ◌++◌, ◌∷◌, [], max};
ghost use Rattle.gltf_base.specs.Steps.{key};
ghost use Rattle.gltf_validation_rules.specs.SinkOutcome.{Walked};
ghost use Rattle.gltf_validation.specs.ByType.{reports_in, each_entry};

use super::Validate;
use super::within::within;
use gltf_base::{KeyStep, Steps};
use gltf_root::root::Root;
use gltf_validation_rules::{Context, HasContext, Rules, Sink, Stop};
use std::collections::BTreeMap;

impl<K: KeyStep + Validate + Ord, V: Validate> Validate for BTreeMap<K, V> {
    ghost own = { λ m context. each_entry K.key_text (reports_in K.kind K.tree K.own context)
        (reports_in V.kind V.tree V.own context) m.entries };

    ghost depth = { max K.depth V.depth + 1 };

    /// Reports, for each entry in the order of the keys, what is wrong in its key and then in its
    /// value, both at the key.
    fn validate_with<'a, S: Sink>(
        &'a self,
        rules: &Rules<'_>,
        root: &Root,
        path: &mut Steps<'a>,
        sink: &mut S,
    ) -> Result<(), Stop<S::Refusal>> {
        entries_of(self, &Context { rules, root }, path, sink)
    }
}

/// Validates the entries of a map in the order of the keys.
fn entries_of<'a, K: KeyStep + Validate + Ord, V: Validate, C: HasContext, S: Sink>(
    map: &'a BTreeMap<K, V>,
    context: &C,
    path: &mut Steps<'a>,
    sink: &mut S,
) -> Result<(), Stop<S::Refusal>>
    ensures { Walked S.next S.refuses path.old (S.state sink.old)
        (each_entry K.key_text (reports_in K.kind K.tree K.own (C.context context.now))
        (reports_in V.kind V.tree V.own (C.context context.now)) map.now.entries)
        (max K.depth V.depth + 1) result path.new (S.state sink.new) }
{
    for (key, value) in map {
        entry(key, value, context, path, sink)?;
    }
    Ok(())
}

/// Validates the key and the value of one entry.
fn entry<'a, K: KeyStep + Validate, V: Validate, C: HasContext, S: Sink>(
    named: &'a K,
    value: &'a V,
    context: &C,
    path: &mut Steps<'a>,
    sink: &mut S,
) -> Result<(), Stop<S::Refusal>>
    ensures { Walked S.next S.refuses path.old (S.state sink.old)
        (λ base. reports_in K.kind K.tree K.own (C.context context.now) named.now
        (base ++ key (K.key_text named.now) ∷ [])
        ++ reports_in V.kind V.tree V.own (C.context context.now) value.now
        (base ++ key (K.key_text named.now) ∷ []))
        (max K.depth V.depth + 1) result path.new (S.state sink.new) }
{
    within(named, named.key_step(), context, path, sink)?;
    within(value, named.key_step(), context, path, sink)
}
