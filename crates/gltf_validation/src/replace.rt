//! Items that are put in the place of others.

ghost use Rattle.std.specs.Prelude.{◌≡◌, ◌<◌, ◌≤◌, Some, IfOk, length, slice_get, slice_set, true};
ghost use Rattle.gltf_base.specs.Indexes.{index_number};
ghost use Rattle.gltf_root.specs.Lists.{is_there};
ghost use Rattle.gltf_root.specs.Root.{root_tree};
ghost use Rattle.gltf_validation_rules.specs.Context.{rules_of};
ghost use Rattle.gltf_validation.specs.Held.{rules_held, root_held, tree_held};
ghost use Rattle.gltf_validation.specs.Replaced.{IsReplaced, IsSwapped, IsSwappedAt, replaced};

use crate::clean::Clean;
use crate::item::Item;
use crate::refused::Refused;
use crate::report::first_report;
use gltf_base::Index;
use gltf_root::root::Root;
use gltf_validation_rules::Rules;
use std::alloc::AllocError;
use std::mem;

impl<'a> Clean<'a> {
    /// Replaces the item that an index names, and returns the old one, if the document has no
    /// report then. The item may name any item of the document and itself.
    ///
    /// Fails with `NoItem` if the index names no item. Fails with `Faulty` if the document would
    /// have a report, which may be at another item: at a mesh whose positions would have no bounds,
    /// for example. Fails with `Memory` in place of that if out of memory for the path of the
    /// report. Each refusal hands the item back, and leaves the root as it was.
    ///
    /// It validates the whole document, so it takes as long as [`Clean::of`].
    pub fn replace<T: Item>(&mut self, index: Index<T>, item: T) -> Result<T, Refused<T>>
        ensures rules { rules_held self.new ≡ rules_held self.old }
        ensures replaced { IsReplaced (rules_held self.old) T.list (index_number index) item
            (T.RootItem.tree item) (tree_held self.old) result (tree_held self.new) }
        ensures items { IfOk result (λ old.
            (slice_get (T.items (root_held self.old)) (index_number index) ≡ Some old)
            × (T.items (root_held self.new)
            ≡ slice_set (T.items (root_held self.old)) (index_number index) item)) }
    {
        replace_clean(&self.rules, &mut self.root, index, item)
    }
}

/// Puts an item in the place of another in a root, if the root has no report then.
fn replace_clean<T: Item>(
    rules: &Rules<'_>,
    root: &mut Root,
    index: Index<T>,
    item: T,
) -> Result<T, Refused<T>>
    ensures replaced { IsReplaced (rules_of rules.now) T.list (index_number index) item
        (T.RootItem.tree item) (root_tree root.old) result (root_tree root.new) }
    ensures items { IfOk result (λ old.
        (slice_get (T.items root.old) (index_number index) ≡ Some old)
        × (T.items root.new ≡ slice_set (T.items root.old) (index_number index) item)) }
{
    match swap_in(root, index, item) {
        Ok(old) => match first_report(rules, root) {
            Ok(None) => Ok(old),
            Ok(Some(report)) => Err(Refused::Faulty(swap_back(root, index, old), report)),
            Err(AllocError) => Err(Refused::Memory(swap_back(root, index, old))),
        },
        Err(item) => Err(Refused::NoItem(item)),
    }
}

/// Puts an item in the place of the one that an index names, and returns that one; hands the item
/// back if the index names none.
fn swap_in<T: Item>(root: &mut Root, index: Index<T>, item: T) -> Result<T, T>
    ensures { IsSwapped T.list T.RootItem.tree (index_number index) item (T.items root.old)
        (root_tree root.old) result (T.items root.new) (root_tree root.new) }
{
    match T::list_of_mut(root) {
        Some(list) => swap_at(list, index.value(), item),
        None => Err(item),
    }
}

/// Puts an item in the place of the one at a number in a list, and returns that one; hands the item
/// back if the list is shorter.
fn swap_at<T>(list: &mut Vec<T>, number: usize, item: T) -> Result<T, T>
    ensures { IsSwappedAt number item list.old.items result list.new.items }
{
    match list.get_mut(number) {
        Some(place) => Ok(mem::replace(place, item)),
        None => Err(item),
    }
}

/// Puts an item back where another is, and returns that one.
fn swap_back<T: Item>(root: &mut Root, index: Index<T>, old: T) -> T
    requires { index_number index < length (T.items root.old) }
    ensures item { slice_get (T.items root.old) (index_number index) ≡ Some result }
    ensures document { root_tree root.new
        ≡ replaced T.list (index_number index) (T.RootItem.tree old) (root_tree root.old) }
{
    match swap_in(root, index, old) {
        Ok(item) => item,
        // The index names an item.
        Err(_) => unreachable!(),
    }
}
