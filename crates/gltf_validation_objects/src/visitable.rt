//! Values that a walk visits.

ghost use Rattle.std.specs.Prelude.{◌≡◌};
ghost use Rattle.gltf_parts.specs.Buffer.{stride_tree};
ghost use Rattle.gltf_schema.specs.Fields.{attributes_tree, index_tree};
ghost use Rattle.gltf_schema.specs.Kind.{Kind, Attributes, IndexInto, Stride as stride_kind};
ghost use Rattle.gltf_schema.specs.Leaves.{checked_tree, choice_of};
ghost use Rattle.gltf_schema.specs.Tree.{Tree, absent, tree_or_absent};
ghost use Rattle.gltf_base.specs.Lists.{ListName};
ghost use Rattle.gltf_validation_rules.specs.Context.{context_of};
ghost use Rattle.gltf_validation_objects.specs.ValueRefs.{checklist_of};
ghost use Rattle.gltf_validation_objects.specs.ChecklistOf.{checklist};

use crate::value_ref::ValueRef;
use gltf_base::choice::Choice;
use gltf_base::mesh::Semantic;
use gltf_base::validation::Checked;
use gltf_base::{Index, IndexTo, Names};
use gltf_parts::accessor::Accessor;
use gltf_parts::buffer::Stride;
use gltf_root::root::RootItem;
use gltf_validation_rules::{Context, choice_fault, index_fault, stride_fault};
use std::collections::BTreeMap;

/// A value that a walk can visit.
pub trait Visitable {
    /// The kind of such a value in the table.
    ghost kind: { Kind };

    /// The value as the table sees it.
    ghost tree: { Self → Tree };

    /// The value as a borrowed value of a document. This call finds the fault of a place with
    /// nothing below.
    fn value_ref<'a>(&'a self, context: &Context<'_>) -> ValueRef<'a>
        ensures { checklist_of (context_of context.now) result
            ≡ checklist kind (tree self.now) (context_of context.now) absent };
}

impl<T: Visitable> Visitable for Option<T> {
    ghost kind = { T.kind };

    ghost tree = { tree_or_absent T.tree };

    fn value_ref<'a>(&'a self, context: &Context<'_>) -> ValueRef<'a> {
        match self {
            Some(value) => value.value_ref(context),
            None => ValueRef::Leaf(None),
        }
    }
}

impl<P: Names> Visitable for IndexTo<P>
where
    P::Item: RootItem,
{
    ghost kind = { IndexInto P.Item.list };

    ghost tree = { index_tree };

    fn value_ref<'a>(&'a self, context: &Context<'_>) -> ValueRef<'a> {
        ValueRef::Leaf(index_fault(self, context.root))
    }
}

impl<T: Choice> Visitable for Checked<T> {
    ghost kind = { choice_of T.form T.spelling T.listed };

    ghost tree = { checked_tree T.spelling };

    fn value_ref<'a>(&'a self, _context: &Context<'_>) -> ValueRef<'a> {
        ValueRef::Leaf(choice_fault(self))
    }
}

impl Visitable for Stride {
    ghost kind = { stride_kind };

    ghost tree = { stride_tree };

    fn value_ref<'a>(&'a self, _context: &Context<'_>) -> ValueRef<'a> {
        ValueRef::Leaf(stride_fault(self))
    }
}

impl Visitable for BTreeMap<Checked<Semantic>, Index<Accessor>> {
    ghost kind = { Attributes ListName.accessors };

    ghost tree = { attributes_tree };

    fn value_ref<'a>(&'a self, _context: &Context<'_>) -> ValueRef<'a> {
        ValueRef::Attributes(self)
    }
}
