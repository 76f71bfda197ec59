//! Pushes that return the first report of an item.

ghost use Rattle.std.specs.Prelude.{◌≡◌, [], ◌∷◌, ◌++◌, IfOk};
ghost use Rattle.gltf_validation.specs.Held.{rules_held, root_held, tree_held};
ghost use Rattle.gltf_validation.specs.Reported.{IsPushedOrReported, IsPushRefused};

use crate::clean::Clean;
use crate::item::Item;
use crate::push::{NotPushed, push_checked, taken_back};
use crate::refused::Refused;
use crate::report::first_report;
use gltf_base::Index;
use gltf_base::validation::Error;
use gltf_root::root::{Mark, Root};
use gltf_validation_rules::Rules;
use std::alloc::AllocError;

impl<'a> Clean<'a> {
    /// Appends an item to its list if it has no report there, as [`Clean::push`] does. A faulty
    /// item comes back with its first report, whose path begins at the document.
    ///
    /// `Memory` comes in place of `Faulty` if out of memory for the path. Either takes as long as
    /// validating the whole document; a push that succeeds takes no longer than `Clean::push`.
    pub fn push_or_report<T: Item>(&mut self, item: T) -> Result<Index<T>, Refused<T>>
        ensures rules { rules_held self.new ≡ rules_held self.old }
        ensures pushed { IsPushedOrReported (rules_held self.old) T.list item
            (T.RootItem.tree item) (tree_held self.old) result (tree_held self.new) }
        ensures appended { IfOk result (λ _. T.items (root_held self.new)
            ≡ T.items (root_held self.old) ++ item ∷ []) }
    {
        let (rules, root) = (&self.rules, &mut self.root);
        let mark = T::mark_of(root);
        push_checked(rules, root, mark, item)
    }
}

impl<T: Item> NotPushed<T> for Refused<T> {
    ghost refuses = { λ rules item old refusal. IsPushRefused rules T.list item
        (T.RootItem.tree item) old refusal old };

    fn full(item: T) -> Refused<T> {
        Refused::Full(item)
    }

    fn memory(item: T) -> Refused<T> {
        Refused::Memory(item)
    }

    fn faulty(rules: &Rules<'_>, root: &mut Root, mark: Mark, _error: Error) -> Refused<T> {
        let found = first_report(rules, root);
        let item = taken_back(root, mark);
        match found {
            Ok(Some(report)) => Refused::Faulty(item, report),
            Err(AllocError) => Refused::Memory(item),
            // The root has a report.
            Ok(None) => unreachable!(),
        }
    }
}
