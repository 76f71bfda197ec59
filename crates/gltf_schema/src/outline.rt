//! What JSON a type is read from, as a value: a node for its kind, and those of all that it holds.

ghost use Rattle.std.specs.Prelude.{◌≡◌, ◌++◌, ◌∷◌, [], IfOk, Option, length};
ghost use Rattle.gltf_schema.specs.Kind.{Object as object_kind};
ghost use Rattle.gltf_schema.specs.Outline.{Outlines, IsShapeOf, spelling_shape as shape_of_spelling};
ghost use Rattle.gltf_schema.specs.RowOutlining.{Drawn, drawn, AddsMember, DrawsRow, DrawsMember, DrawsOthers, source_drawn, sampler_drawn};

use crate::reading::ReadRows;
use crate::schema::{Object, Schema};
use gltf_base::choice::Form;
use serde_json::{Map, Value};
use std::alloc::{AllocError, Global};
use std::mem;

/// What JSON a kind of the table is read from.
#[derive(Debug, Drop)]
pub enum Shape {
    /// A whole number below 2^32.
    Whole32,
    /// A whole number below 2^64.
    Whole64,
    Number,
    /// So many numbers, and the number of the node of each.
    Numbers(usize, usize),
    Text,
    /// True or false.
    Truth,
    /// Any JSON.
    Any,
    /// An object of any members, and the number of the node of each value.
    Indexes(usize),
    /// A list, and the number of the node of each item.
    List(usize),
    /// An object of these members. The flag says that it keeps unknown members.
    Object(Vec<Member>, bool),
}

/// A member that an object of the table has.
#[derive(Debug, Drop)]
pub struct Member {
    /// The JSON name.
    pub name: &'static str,
    pub presence: Presence,
    /// The number of the node that says what its value is.
    pub value: usize,
}

/// When a member may be missing.
#[derive(Clone, Copy, Debug, Drop, PartialEq, Eq)]
pub enum Presence {
    /// It has to be there.
    Required,
    /// It may be missing, and null is read as if it were.
    OrNull,
    /// It may be missing, and null is refused.
    Optional,
}

/// What JSON a type is read from, at every depth.
#[derive(Debug, Drop)]
pub struct Outline {
    /// The kinds, each behind those of what it holds.
    pub nodes: Vec<Shape>,
    /// The number of the type's own node.
    pub root: usize,
}

impl Outline {
    /// Returns what JSON values of the type are read from. Fails if out of memory.
    pub fn of<T: Schema>(alloc: Global) -> Result<Outline, AllocError>
        ensures { IfOk result (λ o. IsShapeOf o.nodes.items o.root T.kind) }
    {
        let mut nodes = Vec::new(alloc);
        let root = T::outline(alloc, &mut nodes)?;
        Ok(Outline { nodes, root })
    }
}

/// Adds a node. Returns its number.
pub(crate) fn add_node(nodes: &mut Vec<Shape>, node: Shape) -> Result<usize, AllocError>
    ensures { IfOk result (λ i. (i ≡ length nodes.old.items)
        × (nodes.new.items ≡ nodes.old.items ++ node ∷ [])) }
{
    let number = nodes.len();
    match nodes.push(node) {
        Ok(()) => Ok(number),
        Err(_refused) => Err(AllocError),
    }
}

/// What a choice of this form is read from.
pub(crate) fn spelling_shape(form: Form) -> Shape
    ensures { result ≡ shape_of_spelling form }
{
    match form {
        Form::Number => Shape::Whole64,
        Form::Name => Shape::Text,
    }
}

/// Gathers the members of an object, as if it read its rows.
#[derive(Drop)]
pub(crate) struct Outlining {
    alloc: Global,
    nodes: Vec<Shape>,
    members: Vec<Member>,
    keeps: bool,
    failed: bool,
}

impl Outlining {
    /// Adds a row's member, behind the nodes of its value. Fails if out of memory.
    fn add<T: Schema>(&mut self, name: &'static str, presence: Presence) -> Result<(), AllocError>
        ensures added { AddsMember result self.old.nodes.items self.old.members.items name.now
            presence T.kind self.new.nodes.items self.new.members.items }
        ensures keeps { self.new.keeps ≡ self.old.keeps }
        ensures failed { self.new.failed ≡ self.old.failed }
    {
        let value = T::outline(self.alloc, &mut self.nodes)?;
        let member = Member {
            name,
            presence,
            value,
        };
        match self.members.push(member) {
            Ok(()) => Ok(()),
            Err(_refused) => Err(AllocError),
        }
    }

    /// Adds a row's member, unless one before it failed.
    fn row<T: Schema>(&mut self, name: &'static str, presence: Presence)
        ensures { DrawsRow (drawn self.old.failed self.old.nodes.items self.old.members.items
            self.old.keeps) name.now presence T.kind (drawn self.new.failed self.new.nodes.items
            self.new.members.items self.new.keeps) }
    {
        if !self.failed {
            self.failed = self.add::<T>(name, presence).is_err();
        }
    }
}

impl ReadRows for Outlining {
    ghost State = { Option Drawn };

    ghost state = { λ o. drawn o.failed o.nodes.items o.members.items o.keeps };

    ghost Takes = { DrawsMember };

    ghost Leaves = { DrawsOthers };

    ghost as_source = { source_drawn };

    ghost as_sampler = { sampler_drawn };

    fn others(&mut self, _place: &mut Map<String, Value>) {
        self.keeps = true;
    }

    fn required<T: Schema>(&mut self, name: &'static str, _place: &mut T) {
        self.row::<T>(name, Presence::Required);
    }

    fn optional<T: Schema>(&mut self, name: &'static str, _place: &mut Option<T>) {
        self.row::<T>(name, Presence::OrNull);
    }

    fn sometimes<T: Schema>(&mut self, name: &'static str, _place: &mut Option<T>) {
        self.row::<T>(name, Presence::Optional);
    }

    fn or_default<T: Schema>(&mut self, name: &'static str, _place: &mut T) {
        self.row::<T>(name, Presence::Optional);
    }
}

/// Adds the nodes of an object: those of its members, and its own.
pub(crate) fn outline_object<T: Object>(
    alloc: Global,
    nodes: &mut Vec<Shape>,
) -> Result<usize, AllocError>
    ensures { Outlines nodes.old.items result nodes.new.items
        (object_kind T.rule T.rows T.keeps) }
{
    let mut outlining = Outlining {
        alloc,
        nodes: mem::replace(nodes, Vec::new(alloc)),
        members: Vec::new(alloc),
        keeps: false,
        failed: false,
    };
    let mut object = T::start(alloc);
    object.read_rows(&mut outlining);
    *nodes = outlining.nodes;
    if outlining.failed {
        return Err(AllocError);
    }
    add_node(nodes, Shape::Object(outlining.members, outlining.keeps))
}
