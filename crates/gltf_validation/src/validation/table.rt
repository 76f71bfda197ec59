//! The types of the table.

ghost use Rattle.std.specs.Prelude.{◌≡◌, ◌≤◌, ◌+◌, ℕ, Some};
ghost use Rattle.std.proofs.Common.{ap, ◌∙◌};
ghost use Rattle.gltf_schema.proofs.Heights.{at_most};
ghost use Rattle.gltf_schema.specs.Height.{kind_height};
ghost use Rattle.gltf_schema.specs.Kind.{Object as object_kind};
ghost use Rattle.gltf_schema.specs.Tree.{object};
ghost use Rattle.gltf_validation_rules.specs.SinkOutcome.{HandedOver};
ghost use Rattle.gltf_validation_walk.specs.ToCome.{base_count, depth_in, to_come_in};

use super::Validate;
use gltf_base::Steps;
use gltf_root::root::Root;
use gltf_schema::Object;
use gltf_validation_objects::Visitable;
use gltf_validation_rules::{Rules, Sink, Stop};
use gltf_validation_walk::{StepsFull, ValueWalk};

mod derived;
mod leaves;

/// A type that the table has by itself, not as an option or a list: a walk goes through it.
pub trait SchemaType: Visitable {
    /// A bound on the number of steps from a value to the deepest place of its walk.
    ghost depth: { ℕ } = { 0 };

    // It is one, and no value is deeper than a path is long.
    ghost depth_bounds_kind: { (kind_height Self.kind ≤ depth) × (depth ≤ 10) };
}

/// An object of the table that is validated by itself: `SchemaType` follows. It has the same kind
/// and the same tree in validation as in reading and writing.
pub trait SchemaObject: Object + Visitable {
    ghost same_kind: { Self.kind ≡ object_kind Self.rule Self.rows Self.keeps };

    ghost same_tree: { (x : Self) → Self.tree x ≡ object (Self.members x) (Self.unknown x) };
}

impl<T: SchemaObject> SchemaType for T {
    ghost depth = { T.height };

    ghost depth_bounds_kind = { (
      at_most T.kind T.height
          (ap kind_height T.same_kind ∙ T.height_bounds_kind.0),
      T.height_bounds_kind.1,
    ) };
}

impl<T: SchemaType> Validate for T {
    ghost kind = { Some T.kind };

    ghost tree = { T.tree };

    ghost depth = { T.depth };

    /// Reports what is wrong in the value, member by member in the order of the table's rows, and
    /// then what its rule says. Its indexes are looked up in `root`.
    fn validate_with<'a, S: Sink>(
        &'a self,
        rules: &Rules<'_>,
        root: &Root,
        path: &mut Steps<'a>,
        sink: &mut S,
    ) -> Result<(), Stop<S::Refusal>> {
        hand_over(&mut ValueWalk::new(*rules, self, root, path), sink)
    }
}

/// Hands the reports that a walk has to come to a sink. Fails with `StepsFull` if a path has no
/// room for one more step, and with `Sink` if the sink refuses.
fn hand_over<S: Sink>(walk: &mut ValueWalk<'_>, sink: &mut S) -> Result<(), Stop<S::Refusal>>
    ensures { HandedOver S.next S.refuses (S.state sink.old) (to_come_in walk.old)
        (base_count walk.old + depth_in walk.old) result (S.state sink.new) }
{
    loop {
        match walk.next_report() {
            Ok(Some(error)) => {
                if let Err(refusal) = sink.report(walk.steps(), error) {
                    return Err(Stop::Sink(refusal));
                }
            }
            Ok(None) => return Ok(()),
            Err(StepsFull) => return Err(Stop::StepsFull),
        }
    }
}
