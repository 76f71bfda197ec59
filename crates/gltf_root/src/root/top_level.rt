//! What a member of a document itself lists.

#![tactic(auto)]

ghost use Rattle.std.specs.Prelude.{◌≡◌, true, map};
ghost use Rattle.std.proofs.Common.{ap};
ghost use Rattle.std.specs.Borrow.{sem};
ghost use Rattle.gltf_schema.specs.Kind.{Object as object_kind};
ghost use Rattle.gltf_schema.specs.Tree.{Tree, object, trees};
ghost use Rattle.gltf_root.specs.Lending.{lends};
ghost use Rattle.gltf_root.specs.Lists.{is_there, list_in};
ghost use Rattle.gltf_root.specs.Pushed.{item_kind, with_list};
ghost use Rattle.gltf_root.specs.Root.{root_tree};
ghost use Rattle.gltf_root.specs.Undone.{mark_in, undone, without_last_item};
ghost use Rattle.gltf_root.specs.declared.root.mark.Mark.{Mark};
ghost use Rattle.gltf_root.specs.declared.root.mark.Mark.TheVariants.{Listed};

use super::Root;
use super::get::RootItem;
use super::mark::Mark;
use gltf_base::{Index, Listed, PushError};
use gltf_schema::Object;

mod derived;

/// An object whose list is a member of the document itself, and so is always there.
pub trait TopLevel: Listed + Object {
    ghost use Rattle.std.specs.declared.vec.Vec.{Vec};
    ghost use Rattle.std.specs.declared.alloc.Global.{Global};
    ghost use Rattle.gltf_root.specs.declared.root.Root.{Root};
    ghost use Rattle.gltf_root.specs.contracts.root.Root.{the_row};

    ghost held: { Root → Vec Self Global };

    // The same root with another list.
    ghost put: { Vec Self Global → Root → Root };

    /// Returns the list of a root.
    fn list_in(root: &Root) -> &Vec<Self>
        ensures { result.now ≡ held root.now };

    /// Returns the list of a root for writing.
    fn list_in_mut(root: &mut Root) -> &mut Vec<Self>
        ensures* writes_back { sem 𝓛 (lends the_row Self.row put root.entry result) }
        ensures lent { result.now ≡ held root.old };

    // The table has the items of the list by the kind of the object.
    ghost kind_is_item_kind: { object_kind Self.rule Self.rows Self.keeps ≡ item_kind Self.list };

    // The list of the root's tree holds the trees of the items.
    ghost tree_lists_items: { (r : Root)
        → list_in Self.list (root_tree r)
        ≡ trees (map (λ x. object (Self.members x) (Self.unknown x)) (held r).items) };

    // A list put in place is the root's, and all else is as it was.
    ghost put_replaces_list: { (r : Root) (list : Vec Self Global) → (held (put list r) ≡ list)
        × (root_tree (put list r)
        ≡ with_list Self.list (trees (map (λ x. object (Self.members x) (Self.unknown x))
        list.items)) (root_tree r)) };

    // The list that is there changes nothing.
    ghost put_held_changes_nothing: { (r : Root) → put (held r) r ≡ r };

    // No extension object holds the list, so none is missing before a push or goes with it.
    ghost needs_no_extension: { (root : Tree) (mark : Mark)
        → (is_there Self.list root ≡ true) × (mark_in Self.list root ≡ Listed)
        × (undone Self.list mark root ≡ without_last_item Self.list root) };
}

impl<T: TopLevel> RootItem for T {
    ghost tree = { λ x. object (T.members x) (T.unknown x) };

    ghost items = { λ r. (T.held r).items };

    ghost put = { T.put };

    ghost tree_lists_items = { T.tree_lists_items };

    ghost put_replaces_list = { λ r list there. let put = T.put_replaces_list r list
        in (ap (λ held. held.items) put.0, put.1) };

    fn list_of(root: &Root) -> &[T] {
        T::list_in(root).as_slice()
    }

    fn list_of_mut(root: &mut Root) -> Option<&mut Vec<T>> {
        Some(T::list_in_mut(root))
    }

    fn push_onto(root: &mut Root, item: T) -> Result<Index<T>, PushError<T>> {
        Index::push(T::list_in_mut(root), item)
    }

    fn mark_of(_root: &Root) -> Mark {
        Mark::Listed
    }

    fn undo_push_from(root: &mut Root, _mark: Mark) -> Option<T> {
        T::list_in_mut(root).pop()
    }
}
