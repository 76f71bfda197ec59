//! The items of a document's lists, by their indexes.

ghost use Rattle.std.specs.Prelude.{◌≡◌, ◌↔◌, ◌-◌, ◌^◌, ◌≤◌, ◌++◌, ◌∷◌, [], true, false, None, Some, Err, IfOk, IfErr, OnErr, IfSome, IfNone, length, List, slice_get, map};
ghost use Rattle.std.specs.Borrow.{sem};
ghost use Rattle.std.specs.List.{last_or};
ghost use Rattle.std.specs.Option.{option_copied};
ghost use Rattle.gltf_base.specs.Indexes.{index_number};
ghost use Rattle.gltf_base.specs.Lists.{ListName};
ghost use Rattle.gltf_base.specs.Pushes.{IsHandedBack};
ghost use Rattle.gltf_schema.specs.Tree.{Tree, trees};
ghost use Rattle.gltf_root.specs.Lists.{list_in, is_there};
ghost use Rattle.gltf_root.specs.Lending.{lends_list};
ghost use Rattle.gltf_root.specs.Pushed.{pushed, with_list};
ghost use Rattle.gltf_root.specs.Root.{root_tree};
ghost use Rattle.gltf_root.specs.Undone.{mark_in, undone};
ghost use Rattle.gltf_root.specs.declared.root.Root.{Root};
ghost use Rattle.gltf_root.specs.declared.root.mark.Mark.TheVariants.{Listed};

use super::Root;
use super::mark::Mark;
use gltf_base::{Index, Listed, PushError};

/// A document with a list of `T`.
pub trait Get<T> {
    ghost use Rattle.std.specs.declared.vec.Vec.{Vec};
    ghost use Rattle.std.specs.declared.alloc.Global.{Global};

    ghost listed: { Self → List T };

    // The same document with another list of `T`, if it has one.
    ghost put: { Vec T Global → Self → Self };

    ghost named: { ListName };

    ghost document: { Self → Tree };

    ghost item_tree: { T → Tree };

    /// Returns the item that an index names, or `None` if and only if the list is too short.
    fn get(&self, index: Index<T>) -> Option<&T>
        ensures { option_copied result ≡ slice_get (listed self.now) (index_number index) };

    /// Returns the list, which is empty if its extension object is missing.
    fn list(&self) -> &[T]
        ensures { result.now ≡ listed self.now };

    /// Returns the list for writing, or `None` if and only if its extension object is missing.
    /// Nothing is made.
    fn list_mut(&mut self) -> Option<&mut Vec<T>>
        ensures* writes_back { sem 𝓛 (lends_list Self.row T.row put self.entry result) }
        ensures lent { IfSome result (λ list. list.now.items ≡ listed self.old) }
        ensures missing { (result ≡ None) ↔ (is_there named (document self.old) ≡ false) };

    /// Appends an item to the list, and returns its index. Missing extension objects are made,
    /// empty but for the list, once the list has grown. Fails with `Full` if the list has
    /// 4294967295 items or more, before any memory is taken, and with `Memory` if the list can't
    /// grow. Memory is taken by the allocator of the list, or of the list of nodes if the list has
    /// to be made.
    fn push(&mut self, item: T) -> Result<Index<T>, PushError<T>>
        ensures pushed { IfOk result (λ index. (index_number index ≡ length (listed self.old))
            × (document self.new ≡ pushed named (item_tree item) (document self.old))) }
        ensures appended { IfOk result (λ _. listed self.new ≡ listed self.old ++ item ∷ []) }
        ensures full { (result ≡ Err (PushError.Full item))
            ↔ (2 ^ 32 - 1 ≤ length (listed self.old)) }
        ensures handed_back { IfErr result (IsHandedBack item) }
        ensures unchanged { OnErr result (document self.new ≡ document self.old) }
        ensures kept { OnErr result (listed self.new ≡ listed self.old) };

    /// Returns which of the extension objects around the list the document has. Taken before a
    /// push, it shows `undo_push` what the push made.
    fn mark(&self) -> Mark
        ensures { result ≡ mark_in named (document self.now) };

    /// Removes the last item of the list and returns it. If the list is empty, it returns `None`
    /// and changes nothing. What the mark says was missing before the push is missing again. With
    /// the mark of the document before a push, it is that document again.
    fn undo_push(&mut self, mark: Mark) -> Option<T>
        ensures none { (result ≡ None) ↔ (listed self.old ≡ []) }
        ensures unchanged { IfNone result (document self.new ≡ document self.old) }
        ensures kept { IfNone result (listed self.new ≡ listed self.old) }
        ensures taken { IfSome result (λ item. (last_or None (listed self.old) ≡ Some item)
            × (document self.new ≡ undone named mark (document self.old))) }
        ensures rest { mark ≡ Listed
            → IfSome result (λ item. listed self.old ≡ listed self.new ++ item ∷ []) };
}

/// A type that a document lists, and where its list is in a root.
pub trait RootItem: Listed + Drop {
    ghost use Rattle.std.specs.declared.vec.Vec.{Vec};
    ghost use Rattle.std.specs.declared.alloc.Global.{Global};
    ghost use Rattle.gltf_root.specs.declared.root.Root.{Root};
    ghost use Rattle.gltf_root.specs.contracts.root.Root.{the_row};

    // The tree of an item, which is that of the table (`Tabled`) for each type that has this trait.
    ghost tree: { Self → Tree };

    ghost items: { Root → List Self };

    // The same root with another list, if it has one.
    ghost put: { Vec Self Global → Root → Root };

    /// Returns the list of a root.
    fn list_of(root: &Root) -> &[Self]
        ensures { result.now ≡ items root.now };

    /// Returns the list of a root for writing, or `None` if and only if its extension object is
    /// missing.
    fn list_of_mut(root: &mut Root) -> Option<&mut Vec<Self>>
        ensures* writes_back { sem 𝓛 (lends_list the_row Self.row put root.entry result) }
        ensures lent { IfSome result (λ list. list.now.items ≡ items root.old) }
        ensures missing { (result ≡ None) ↔ (is_there Self.list (root_tree root.old) ≡ false) };

    /// Appends an item to the list of a root, and returns its index. Errors and memory are those of
    /// [`Get::push`].
    fn push_onto(root: &mut Root, item: Self) -> Result<Index<Self>, PushError<Self>>
        ensures pushed { IfOk result (λ index. (index_number index ≡ length (items root.old))
            × (root_tree root.new ≡ pushed Self.list (tree item) (root_tree root.old))) }
        ensures appended { IfOk result (λ _. items root.new ≡ items root.old ++ item ∷ []) }
        ensures full { (result ≡ Err (PushError.Full item))
            ↔ (2 ^ 32 - 1 ≤ length (items root.old)) }
        ensures handed_back { IfErr result (IsHandedBack item) }
        ensures unchanged { OnErr result (root_tree root.new ≡ root_tree root.old) }
        ensures kept { OnErr result (items root.new ≡ items root.old) };

    /// Returns which of the extension objects around the list a root has.
    fn mark_of(root: &Root) -> Mark
        ensures { result ≡ mark_in Self.list (root_tree root.now) };

    /// Removes the last item of the list of a root, and with it what was missing by the mark.
    fn undo_push_from(root: &mut Root, mark: Mark) -> Option<Self>
        ensures none { (result ≡ None) ↔ (items root.old ≡ []) }
        ensures unchanged { IfNone result (root_tree root.new ≡ root_tree root.old) }
        ensures kept { IfNone result (items root.new ≡ items root.old) }
        ensures taken { IfSome result (λ item. (last_or None (items root.old) ≡ Some item)
            × (root_tree root.new ≡ undone Self.list mark (root_tree root.old))) }
        ensures rest { mark ≡ Listed
            → IfSome result (λ item. items root.old ≡ items root.new ++ item ∷ []) };

    // The list of the root's tree holds the trees of the items.
    ghost tree_lists_items: { (r : Root) → list_in Self.list (root_tree r)
        ≡ trees (map tree (items r)) };

    // A list put in place is the root's, and all else is as it was.
    ghost put_replaces_list: { (r : Root) (list : Vec Self Global)
        → is_there Self.list (root_tree r) ≡ true
        → (items (put list r) ≡ list.items)
        × (root_tree (put list r)
        ≡ with_list Self.list (trees (map tree list.items)) (root_tree r)) };
}

impl<T: RootItem> Get<T> for Root {
    ghost listed = { T.items };

    ghost put = { T.put };

    ghost named = { T.list };

    ghost document = { root_tree };

    ghost item_tree = { T.tree };

    fn get(&self, index: Index<T>) -> Option<&T>
        ensures { option_copied result ≡ slice_get (T.items self.now) (index_number index) }
    {
        T::list_of(self).get(index.value())
    }

    fn list(&self) -> &[T]
        ensures { result.now ≡ T.items self.now }
    {
        T::list_of(self)
    }

    fn list_mut(&mut self) -> Option<&mut Vec<T>> {
        T::list_of_mut(self)
    }

    fn push(&mut self, item: T) -> Result<Index<T>, PushError<T>> {
        T::push_onto(self, item)
    }

    fn mark(&self) -> Mark {
        T::mark_of(self)
    }

    fn undo_push(&mut self, mark: Mark) -> Option<T> {
        T::undo_push_from(self, mark)
    }
}

impl Root {
    /// Returns the item that an index names, or `None` if and only if its list is too short.
    pub fn get<T>(&self, index: Index<T>) -> Option<&T>
    where
        Root: Get<T>,
        ensures { option_copied result
            ≡ slice_get (⟦<Root as Get<T>>⟧.listed self.now) (index_number index) }
    {
        Get::<T>::get(self, index)
    }

    /// Returns the list of the items of a type; it is empty if its extension object is missing.
    pub fn list<T>(&self) -> &[T]
    where
        Root: Get<T>,
        ensures { result.now ≡ ⟦<Root as Get<T>>⟧.listed self.now }
    {
        Get::<T>::list(self)
    }

    /// Appends an item to its list, and returns its index, as [`Get::push`] does.
    pub fn push<T>(&mut self, item: T) -> Result<Index<T>, PushError<T>>
    where
        Root: Get<T>,
        ensures pushed { IfOk result (λ index. (index_number index
            ≡ length (⟦<Root as Get<T>>⟧.listed self.old))
            × (⟦<Root as Get<T>>⟧.document self.new
            ≡ pushed ⟦<Root as Get<T>>⟧.named (⟦<Root as Get<T>>⟧.item_tree item)
            (⟦<Root as Get<T>>⟧.document self.old))) }
        ensures appended { IfOk result (λ _. ⟦<Root as Get<T>>⟧.listed self.new
            ≡ ⟦<Root as Get<T>>⟧.listed self.old ++ item ∷ []) }
        ensures full { (result ≡ Err (PushError.Full item))
            ↔ (2 ^ 32 - 1 ≤ length (⟦<Root as Get<T>>⟧.listed self.old)) }
        ensures handed_back { IfErr result (IsHandedBack item) }
        ensures unchanged { OnErr result (⟦<Root as Get<T>>⟧.document self.new
            ≡ ⟦<Root as Get<T>>⟧.document self.old) }
        ensures kept { OnErr result (⟦<Root as Get<T>>⟧.listed self.new
            ≡ ⟦<Root as Get<T>>⟧.listed self.old) }
    {
        Get::<T>::push(self, item)
    }
}
