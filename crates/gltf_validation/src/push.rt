//! Roots without reports, and pushes that leave them so.

ghost use Rattle.std.specs.Prelude.{◌≡◌, [], ◌∷◌, ◌++◌, None, Some, Ok, Err, IfOk, IfErr, OnErr, ⊤};
ghost use Rattle.std.specs.List.{last_or};
ghost use Rattle.gltf_root.specs.Root.{root_tree};
ghost use Rattle.gltf_root.specs.Undone.{mark_in, undone};
ghost use Rattle.gltf_schema.specs.Tree.{Tree};
ghost use Rattle.gltf_validation_rules.specs.Context.{Rules as Allowed, rules_of};
ghost use Rattle.gltf_validation.specs.Clean.{IsClean, IsFull, IsPushed, HasRoom};
ghost use Rattle.gltf_validation.specs.Reported.{IsFaultyLast};
ghost use Rattle.gltf_validation.specs.Held.{rules_held, root_held, tree_held, IsHeld};

use crate::clean::Clean;
use crate::fault::{fault_of_last, first_fault};
use crate::item::Item;
use gltf_base::validation::Error;
use gltf_base::{Index, PushError};
use gltf_root::root::{Mark, Root};
use gltf_validation_rules::Rules;
use std::fmt::{self, Debug, Display, Formatter, Write};

/// Why an item was not pushed; each case hands it back.
#[derive(Debug, Drop)]
pub enum CleanError<T> {
    /// The list has 4294967295 items or more.
    Full(T),
    /// Out of memory.
    Memory(T),
    /// The item has a report in the list: its first fault.
    Faulty(T, Error),
}

impl<T> Display for CleanError<T> {
    ghost use Rattle.gltf_validation.specs.ErrorText.{clean_error_text};

    ghost output = { λ error. Some (clean_error_text error) };

    fn fmt<W: Write>(&self, f: &mut Formatter<W>) -> fmt::Result {
        match self {
            CleanError::Full(_) => Display::fmt(&PushError::Full(()), f),
            CleanError::Memory(_) => Display::fmt(&PushError::Memory(()), f),
            CleanError::Faulty(_, error) => Display::fmt(error, f),
        }
    }
}

impl<T: Debug + Drop> std::error::Error for CleanError<T> {}

impl<'a> Clean<'a> {
    /// Returns a `Clean` of the root if it has no report by the rules. If not, it hands the root
    /// back. It takes no memory.
    pub fn of(rules: Rules<'a>, root: Root) -> Result<Clean<'a>, Root>
        ensures { IsHeld (rules_of rules.entry) root result }
    {
        match first_fault(&root, &rules, &root) {
            None => Ok(Clean { rules, root }),
            Some(_) => Err(root),
        }
    }

    /// Returns the root. It takes no memory.
    pub fn root(&self) -> &Root
        ensures held { result.now ≡ root_held self.now }
        ensures clean { IsClean (rules_held self.now) (root_tree result.now) }
    {
        &self.root
    }

    /// Returns the root without its rules. It takes no memory.
    pub fn into_root(self) -> Root
        ensures held { result ≡ root_held self.entry }
        ensures clean { IsClean (rules_held self.entry) (root_tree result) }
    {
        self.root
    }

    /// Appends an item to its list if it has no report there, and returns its index. The item may
    /// name items of the root and itself. Extension objects that are missing are made, as in
    /// `Get::push`.
    ///
    /// Fails with `Full` before any memory is taken, with `Memory` before the item is looked at,
    /// and with `Faulty` if the item has a report. Such an item is in the list while it is looked
    /// at, and is taken out again. Each refusal leaves the root as it was.
    pub fn push<T: Item>(&mut self, item: T) -> Result<Index<T>, CleanError<T>>
        ensures rules { rules_held self.new ≡ rules_held self.old }
        ensures pushed { IsPushed (rules_held self.old) T.list item (T.RootItem.tree item)
            (tree_held self.old) result (tree_held self.new) }
        ensures appended { IfOk result (λ _. T.items (root_held self.new)
            ≡ T.items (root_held self.old) ++ item ∷ []) }
    {
        let (rules, root) = (&self.rules, &mut self.root);
        let mark = T::mark_of(root);
        push_checked(rules, root, mark, item)
    }
}

/// Why an item was not pushed, as a call of `Clean` returns it.
pub(crate) trait NotPushed<T: Item>: Sized {
    // Whether it may be the error of a push of an item onto a document, which stays as it was.
    ghost refuses: { Allowed → T → Tree → Self → Type 0 };

    /// The list is full.
    fn full(item: T) -> Self
        ensures { (rules : Allowed) (root : Tree) → IsFull T.list root
            → refuses rules item root result };

    /// There was no memory for one more item.
    fn memory(item: T) -> Self
        ensures { (rules : Allowed) (root : Tree) → HasRoom T.list root
            → refuses rules item root result };

    /// The item has a report at the end of its list. Takes it out again, as `taken_back` does;
    /// `error` is its first fault.
    fn faulty(rules: &Rules<'_>, root: &mut Root, mark: Mark, error: Error) -> Self
        requires item { (T.items root.old ≡ []) → ⊥ }
        requires faulty { ¬ IsClean (rules_of rules.now) (root_tree root.old) }
        ensures refused { (item : T) (before : Tree)
            → IsFaultyLast (rules_of rules.now) T.list item (T.RootItem.tree item) before
            (T.items root.old) (root_tree root.old) error
            → refuses (rules_of rules.now) item before result }
        ensures document { root_tree root.new ≡ undone T.list mark (root_tree root.old) };
}

impl<T: Item> NotPushed<T> for CleanError<T> {
    ghost refuses = { λ rules item old refusal. IsPushed {P = ⊤} rules T.list item
        (T.RootItem.tree item) old (Err refusal) old };

    fn full(item: T) -> CleanError<T> {
        CleanError::Full(item)
    }

    fn memory(item: T) -> CleanError<T> {
        CleanError::Memory(item)
    }

    fn faulty(_rules: &Rules<'_>, root: &mut Root, mark: Mark, error: Error) -> CleanError<T> {
        CleanError::Faulty(taken_back(root, mark), error)
    }
}

/// Appends an item to its list in a root without reports, if it has no report there. The mark is
/// that of the root.
pub(crate) fn push_checked<T: Item, R: NotPushed<T>>(
    rules: &Rules<'_>,
    root: &mut Root,
    mark: Mark,
    item: T,
) -> Result<Index<T>, R>
    requires mark { mark ≡ mark_in T.list (root_tree root.old) }
    requires clean { IsClean (rules_of rules.now) (root_tree root.old) }
    ensures pushed { IfOk result (λ index. IsPushed (rules_of rules.now) T.list item
        (T.RootItem.tree item) (root_tree root.old) (Ok index) (root_tree root.new)) }
    ensures appended { IfOk result (λ _. T.items root.new ≡ T.items root.old ++ item ∷ []) }
    ensures refused { IfErr result (R.refuses (rules_of rules.now) item (root_tree root.old)) }
    ensures unchanged { OnErr result (root_tree root.new ≡ root_tree root.old) }
{
    match T::push_onto(root, item) {
        Ok(index) => match fault_of_last::<T>(rules, root) {
            None => Ok(index),
            Some(error) => Err(R::faulty(rules, root, mark, error)),
        },
        Err(PushError::Full(item)) => Err(R::full(item)),
        Err(PushError::Memory(item)) => Err(R::memory(item)),
    }
}

/// Takes the last item out of its list again, and with it what was missing by the mark.
pub(crate) fn taken_back<T: Item>(root: &mut Root, mark: Mark) -> T
    requires { (T.items root.old ≡ []) → ⊥ }
    ensures item { last_or None (T.items root.old) ≡ Some result }
    ensures document { root_tree root.new ≡ undone T.list mark (root_tree root.old) }
{
    match T::undo_push_from(root, mark) {
        Some(item) => item,
        // An item was pushed.
        None => unreachable!(),
    }
}
