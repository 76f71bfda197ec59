//! What JSON the table wants at a place.

ghost use Rattle.std.specs.Prelude.{◌≡◌, map, option_and_then, option_map, slice_get};
ghost use Rattle.gltf_schema.specs.RowPlacing.{owned_step};
ghost use Rattle.gltf_root.specs.Wanted.{shape_wanted};
ghost use Rattle.gltf_root.specs.NodesWithin.{member_value, node_within, node_at};

use gltf_schema::{Member, OwnedStep, Shape};
use std::fmt::{self, Display, Formatter, Write};

/// What JSON the table wants at a place.
#[derive(Clone, Copy, Debug, Drop, PartialEq, Eq)]
pub enum Wanted {
    /// A whole number below 2^32.
    Whole32,
    /// A whole number below 2^64.
    Whole64,
    Number,
    /// A list of so many numbers.
    Numbers(usize),
    Text,
    /// True or false.
    Bool,
    /// Any JSON.
    Any,
    List,
    Object,
}

impl Wanted {
    /// What a shape wants, without what is inside.
    fn of(shape: &Shape) -> Wanted
        ensures { result ≡ shape_wanted shape.now }
    {
        match shape {
            Shape::Whole32 => Wanted::Whole32,
            Shape::Whole64 => Wanted::Whole64,
            Shape::Number => Wanted::Number,
            Shape::Numbers(count, _) => Wanted::Numbers(*count),
            Shape::Text => Wanted::Text,
            Shape::Truth => Wanted::Bool,
            Shape::Any => Wanted::Any,
            Shape::List(_) => Wanted::List,
            Shape::Indexes(_) | Shape::Object(_, _) => Wanted::Object,
        }
    }
}

/// The number of the node of the member of this name.
fn value_of(members: &[Member], name: &str) -> Option<usize>
    ensures { result ≡ member_value name.now members.now }
{
    for member in members {
        if member.name == name {
            return Some(member.value);
        }
    }
    None
}

/// The number of the node of what a step leads to in a value of this shape.
fn within(shape: &Shape, step: &OwnedStep) -> Option<usize>
    ensures { result ≡ node_within shape.now (owned_step step.now) }
{
    match (shape, step) {
        (Shape::List(item), OwnedStep::Index(_)) => Some(*item),
        (Shape::Numbers(_, item), OwnedStep::Index(_)) => Some(*item),
        (Shape::Indexes(value), OwnedStep::Field(_)) => Some(*value),
        (Shape::Object(members, _), OwnedStep::Field(name)) => value_of(members, name.as_str()),
        _ => None,
    }
}

/// The number of the node of what a step leads to from a node.
fn next(nodes: &[Shape], at: usize, step: &OwnedStep) -> Option<usize>
    ensures { result ≡ option_and_then (λ s. node_within s (owned_step step.now))
        (slice_get nodes.now at) }
{
    within(nodes.get(at)?, step)
}

/// What the node of this number wants.
fn wanted_of(nodes: &[Shape], at: usize) -> Option<Wanted>
    ensures { result ≡ option_map shape_wanted (slice_get nodes.now at) }
{
    Some(Wanted::of(nodes.get(at)?))
}

/// What is wanted at the end of the steps from a node, if the table has such a place.
pub(crate) fn wanted_at(nodes: &[Shape], root: usize, steps: &[OwnedStep]) -> Option<Wanted>
    ensures { result ≡ option_map shape_wanted (option_and_then (slice_get nodes.now)
        (node_at nodes.now root (map owned_step steps.now))) }
{
    let mut at = root;
    for step in steps {
        let Some(inner) = next(nodes, at, step) else {
            return None;
        };
        at = inner;
    }
    wanted_of(nodes, at)
}

impl Display for Wanted {
    ghost use Rattle.std.specs.Prelude.{Some};
    ghost use Rattle.gltf_root.specs.Wanted.{wanted_text};

    ghost output = { λ wanted. Some (wanted_text wanted) };

    /// In a reader's words, as `a whole number below 2^32` or `3 numbers`.
    fn fmt<W: Write>(&self, f: &mut Formatter<W>) -> fmt::Result {
        f.write_str(match self {
            Wanted::Whole32 => "a whole number below 2^32",
            Wanted::Whole64 => "a whole number below 2^64",
            Wanted::Number => "a number",
            Wanted::Numbers(count) => return write!(f, "{count} numbers"),
            Wanted::Text => "a text",
            Wanted::Bool => "true or false",
            Wanted::Any => "any JSON",
            Wanted::List => "a list",
            Wanted::Object => "an object",
        })
    }
}
