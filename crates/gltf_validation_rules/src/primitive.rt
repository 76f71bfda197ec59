//! The positions of a primitive (glTF 2.0, section 3.7.2.1).

ghost use Rattle.std.specs.Prelude.{◌≡◌, List, Some, option_map};
ghost use Rattle.std.specs.Map.{lookup};
ghost use Rattle.serde_json.specs.View.{view};
ghost use Rattle.gltf_base.specs.Semantics.{checked_key};
ghost use Rattle.gltf_base.specs.Indexes.{index_number};
ghost use Rattle.gltf_base.specs.Steps.{Step as SpecStep};
ghost use Rattle.gltf_parts.specs.Accessor.{accessor_members};
ghost use Rattle.gltf_scene.specs.Mesh.{primitive_members};
ghost use Rattle.gltf_schema.specs.Fields.{any_tree, attributes_tree, closed_object};
ghost use Rattle.gltf_schema.specs.Tree.{entries_in, tree_or_absent};
ghost use Rattle.gltf_root.specs.Root.{root_tree};
ghost use Rattle.gltf_validation_rules.specs.Report.{found_at};
ghost use Rattle.gltf_validation_rules.specs.Rules.{bound_faults, bounds_faults, is_positions, is_triple, positions_faults, primitive_attributes};
ghost use Rattle.gltf_validation_rules.specs.Positions.{found_in_positions};

use gltf_base::Index;
use gltf_base::mesh::Semantic;
use gltf_base::validation::{Checked, Error};
use gltf_parts::accessor::Accessor;
use gltf_root::root::Root;
use gltf_scene::mesh::Primitive;
use serde_json::Value;
use std::collections::BTreeMap;

/// What is wrong with the positions of a primitive: that they are missing, or a bound of their
/// accessor.
#[derive(Clone, Copy, Drop)]
pub struct PositionFaults {
    /// For the attribute itself.
    pub positions: Option<Error>,
    /// For the least values of its accessor.
    pub min: Option<Error>,
    /// For the greatest values of its accessor.
    pub max: Option<Error>,
}

/// What is wrong with the positions of a primitive: `Missing` if there are none. For each bound of
/// their accessor, if the accessor is there, it is `Missing`, or `Invalid` if it isn't three
/// numbers.
#[tactic(auto, unfolding(gltf_scene::specs::Mesh::primitive_rows, gltf_scene::specs::Mesh::primitive_members))]
pub fn position_faults(primitive: &Primitive, root: &Root) -> PositionFaults
    ensures { (base : List SpecStep) → found_in_positions result base
        ≡ positions_faults (lookup is_positions (entries_in
        (primitive_attributes (primitive_members primitive.now)))) (root_tree root.now) base }
{
    match index_of_positions(&primitive.attributes) {
        Some(index) => found_at_index(index, root),
        None => PositionFaults {
            positions: Some(Error::Missing),
            min: None,
            max: None,
        },
    }
}

/// What is wrong with the accessor that an index names; nothing where it names none.
fn found_at_index(index: Index<Accessor>, root: &Root) -> PositionFaults
    ensures { (base : List SpecStep) → found_in_positions result base
        ≡ positions_faults (Some (index_number index)) (root_tree root.now) base }
{
    match root.get(index) {
        Some(accessor) => found_in_bounds(accessor),
        None => PositionFaults {
            positions: None,
            min: None,
            max: None,
        },
    }
}

/// What is wrong with the bounds of an accessor of positions.
#[tactic(auto, unfolding(gltf_parts::specs::Accessor::accessor_rows, gltf_parts::specs::Accessor::accessor_members))]
fn found_in_bounds(accessor: &Accessor) -> PositionFaults
    ensures { (base : List SpecStep) → found_in_positions result base
        ≡ bounds_faults (closed_object (accessor_members accessor.now)) base }
{
    PositionFaults {
        positions: None,
        min: bound_fault(&accessor.min),
        max: bound_fault(&accessor.max),
    }
}

/// What is wrong with a bound of positions.
fn bound_fault(bound: &Option<Value>) -> Option<Error>
    ensures { (base : List SpecStep)
        → found_at result base ≡ bound_faults (tree_or_absent any_tree bound.now) base }
{
    match bound {
        None => Some(Error::Missing),
        Some(value) if is_three_numbers(value) => None,
        Some(_) => Some(Error::Invalid),
    }
}

/// Whether a value is an array of exactly three numbers.
fn is_three_numbers(value: &Value) -> bool
    ensures { result ≡ is_triple (view value.now) }
{
    let Some(items) = value.as_array() else {
        return false;
    };
    match items.as_slice() {
        [x, y, z] => x.is_number() && y.is_number() && z.is_number(),
        _ => false,
    }
}

/// The index that the positions have.
fn index_of_positions(
    attributes: &BTreeMap<Checked<Semantic>, Index<Accessor>>,
) -> Option<Index<Accessor>>
    ensures { option_map index_number result
        ≡ lookup is_positions (entries_in (attributes_tree attributes.now)) }
{
    for (semantic, index) in attributes {
        if means_positions(semantic) {
            return Some(*index);
        }
    }
    None
}

/// Whether an attribute's key means the positions.
fn means_positions(semantic: &Checked<Semantic>) -> bool
    ensures { result ≡ is_positions (checked_key semantic.now) }
{
    matches!(semantic, Checked::Valid(Semantic::Positions))
}
