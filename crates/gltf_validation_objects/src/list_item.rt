//! Lists of objects and of indexes.

ghost use Rattle.std.specs.Prelude.{◌≡◌};
ghost use Rattle.gltf_base.specs.Lists.{ListName};
ghost use Rattle.gltf_schema.specs.Fields.{index_tree, list_tree};
ghost use Rattle.gltf_schema.specs.Kind.{IndexInto, ListOf};
ghost use Rattle.gltf_schema.specs.Tree.{absent};
ghost use Rattle.gltf_validation_rules.specs.Context.{Context as SpecContext};
ghost use Rattle.gltf_validation_objects.specs.ValueRefs.{checklist_of};
ghost use Rattle.gltf_validation_objects.specs.ChecklistOf.{checklist};

use crate::quiet::{Quiet, are_quiet};
use crate::value_ref::ValueRef;
use crate::visitable::Visitable;
use gltf_base::Index;
use gltf_scene::scene::Node;
use gltf_validation_rules::{Context, HasContext};

/// What documents have lists of, in which something can be wrong.
pub trait ListItem: Quiet {
    /// A list as a borrowed value of a document.
    fn list_ref<'a>(items: &'a Vec<Self>) -> ValueRef<'a>
        ensures { (context : SpecContext) → checklist_of context result
            ≡ checklist (ListOf Self.kind) (list_tree Self.tree items.now.items) context absent };
}

impl<T: ListItem> Visitable for Vec<T> {
    ghost kind = { ListOf T.kind };

    ghost tree = { λ v. list_tree T.tree v.items };

    fn value_ref<'a>(&'a self, _context: &Context<'_>) -> ValueRef<'a> {
        T::list_ref(self)
    }
}

impl<T: ListItem> Quiet for Vec<T> {
    fn is_quiet<C: HasContext>(&self, context: &C) -> bool {
        are_quiet(self, context)
    }
}

// Not by `ListItem`: of an impl of a trait for `Index<Node>`, whose `Quiet` is generic, the checker
// makes a statement that it refuses itself.
impl Visitable for Vec<Index<Node>> {
    ghost kind = { ListOf (IndexInto ListName.nodes) };

    ghost tree = { λ v. list_tree index_tree v.items };

    fn value_ref<'a>(&'a self, _context: &Context<'_>) -> ValueRef<'a> {
        ValueRef::NodeIndexes(self)
    }
}

impl Quiet for Vec<Index<Node>> {
    fn is_quiet<C: HasContext>(&self, context: &C) -> bool {
        are_quiet(self, context)
    }
}
