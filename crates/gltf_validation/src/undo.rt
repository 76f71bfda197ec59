//! Pushes that are taken back from documents without reports.

ghost use Rattle.std.specs.Prelude.{◌≡◌};
ghost use Rattle.gltf_root.specs.Root.{root_tree};
ghost use Rattle.gltf_validation_rules.specs.Context.{rules_of};
ghost use Rattle.gltf_validation.specs.Clean.{IsClean};
ghost use Rattle.gltf_validation.specs.Held.{rules_held, root_held, tree_held};
ghost use Rattle.gltf_validation.specs.TakenBack.{IsTakenBack};

use crate::clean::Clean;
use crate::top_level::TopLevelItem;
use gltf_base::validation::Error;
use gltf_root::root::{Root, TopLevel};
use gltf_validation_rules::Rules;

impl<'a> Clean<'a> {
    /// Removes the last item of a list of the document itself, and returns it, if the document has
    /// no report without it: if no index of another item names it. `None` if the list is empty.
    ///
    /// Fails with the first fault that the document would have without the item, and leaves the
    /// document as it was. It takes no memory. It looks only at what has indexes into that list: at
    /// the nodes for a mesh or a skin, for example.
    pub fn undo_push<T: TopLevelItem>(&mut self) -> Result<Option<T>, Error>
        ensures rules { rules_held self.new ≡ rules_held self.old }
        ensures taken_back { IsTakenBack (rules_held self.old) T.list
            (T.held (root_held self.old)).items (tree_held self.old) result (tree_held self.new) }
    {
        undo_clean(&self.rules, &mut self.root)
    }
}

/// Removes the last item of a list of a root without reports, if the root has no report then.
fn undo_clean<T: TopLevelItem>(rules: &Rules<'_>, root: &mut Root) -> Result<Option<T>, Error>
    requires { IsClean (rules_of rules.now) (root_tree root.old) }
    ensures { IsTakenBack (rules_of rules.now) T.list (T.held root.old).items
        (root_tree root.old) result (root_tree root.new) }
{
    let Some(item) = T::list_in_mut(root).pop() else {
        return Ok(None);
    };
    match T::fault_into(rules, root) {
        None => Ok(Some(item)),
        Some(error) => match T::list_in_mut(root).push(item) {
            Ok(()) => Err(error),
            // It had room for the item.
            Err(_) => unreachable!(),
        },
    }
}
