//! Whether nothing is wrong in a value.

ghost use Rattle.std.specs.Prelude.{◌≡◌};
ghost use Rattle.gltf_schema.specs.Fields.{list_tree};
ghost use Rattle.gltf_schema.specs.Kind.{ListOf};
ghost use Rattle.gltf_schema.specs.Tree.{absent};
ghost use Rattle.gltf_validation_objects.specs.Checklist.{quiet};
ghost use Rattle.gltf_validation_objects.specs.ChecklistOf.{checklist};

use crate::always_valid::AlwaysValid;
use crate::events::Events;
use crate::look::Look;
use crate::visitable::Visitable;
use gltf_base::choice::Choice;
use gltf_base::mesh::Semantic;
use gltf_base::validation::Checked;
use gltf_base::{Index, IndexTo, Names};
use gltf_parts::accessor::Accessor;
use gltf_parts::buffer::Stride;
use gltf_root::root::RootItem;
use gltf_validation_rules::{HasContext, choice_fault, index_fault, stride_fault};
use std::collections::BTreeMap;

/// A value that one call looks at as a whole.
pub trait Quiet: Visitable {
    /// Whether nothing is wrong in the value or below it.
    fn is_quiet<C: HasContext>(&self, context: &C) -> bool
        ensures { result ≡ quiet (checklist Self.kind (Self.tree self.now) (C.context context.now)
            absent) };
}

impl<T: AlwaysValid> Quiet for T {
    fn is_quiet<C: HasContext>(&self, _context: &C) -> bool {
        true
    }
}

impl<T: Quiet> Quiet for Option<T> {
    fn is_quiet<C: HasContext>(&self, context: &C) -> bool {
        match self {
            Some(value) => value.is_quiet(context),
            None => true,
        }
    }
}

impl<P: Names> Quiet for IndexTo<P>
where
    P::Item: RootItem,
{
    fn is_quiet<C: HasContext>(&self, context: &C) -> bool {
        index_fault(self, context.context().root).is_none()
    }
}

impl<T: Choice> Quiet for Checked<T> {
    fn is_quiet<C: HasContext>(&self, _context: &C) -> bool {
        choice_fault(self).is_none()
    }
}

impl Quiet for Stride {
    fn is_quiet<C: HasContext>(&self, _context: &C) -> bool {
        stride_fault(self).is_none()
    }
}

impl Quiet for BTreeMap<Checked<Semantic>, Index<Accessor>> {
    fn is_quiet<C: HasContext>(&self, context: &C) -> bool {
        for (semantic, index) in self {
            if choice_fault(semantic).is_some() || !index.is_quiet(context) {
                return false;
            }
        }
        true
    }
}

/// Whether nothing is wrong in the items of a list.
pub(crate) fn are_quiet<T: Quiet, C: HasContext>(items: &Vec<T>, context: &C) -> bool
    ensures { result ≡ quiet (checklist (ListOf T.kind) (list_tree T.tree items.now.items)
        (C.context context.now) absent) }
{
    for item in items {
        if !item.is_quiet(context) {
            return false;
        }
    }
    true
}

/// Whether nothing is wrong in an object.
pub(crate) fn is_object_quiet<'a, T: Events<'a, Look>, C: HasContext>(
    object: &'a T,
    context: &C,
) -> bool
    ensures { result ≡ quiet (checklist T.kind (T.tree object.now) (C.context context.now) absent) }
{
    let mut number = 0;
    loop {
        match object.event(number, context) {
            Look::Quiet => number += 1,
            Look::Faulty => return false,
            Look::Over => return true,
        }
    }
}
