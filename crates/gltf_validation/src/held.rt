//! Documents without reports from nothing or from a root, and what they hold.

ghost use Rattle.std.specs.Prelude.{◌≡◌, IfOk, codes, slice_get};
ghost use Rattle.std.specs.Option.{option_copied};
ghost use Rattle.gltf_base.specs.Indexes.{index_number};
ghost use Rattle.gltf_scene.specs.Asset.{asset_of_version};
ghost use Rattle.gltf_root.specs.Root.{root_members, root_of_asset};
ghost use Rattle.gltf_validation_rules.specs.Context.{rules_of, standard_rules};
ghost use Rattle.gltf_validation.specs.Held.{rules_held, root_held};
ghost use Rattle.gltf_validation.specs.Reported.{IsHeldOrReported};

use crate::clean::Clean;
use crate::item::Item;
use crate::refused::Refused;
use crate::report::first_report;
use gltf_base::Index;
use gltf_root::root::Root;
use gltf_validation_rules::Rules;
use std::alloc::{AllocError, Global};

impl<'a> Clean<'a> {
    /// Returns an empty document of version `2.0`, by the standard rules. Fails only if out of
    /// memory.
    pub fn new(alloc: Global) -> Result<Clean<'a>, AllocError>
        ensures rules { IfOk result (λ clean. rules_held clean ≡ standard_rules) }
        ensures root { IfOk result (λ clean. root_members (root_held clean)
            ≡ root_of_asset (asset_of_version (codes "2.0"))) }
    {
        Clean::with_rules(alloc, Rules::new())
    }

    /// Returns an empty document of version `2.0`, by the caller's rules. It has no report by any
    /// rules. Fails only if out of memory.
    pub fn with_rules(alloc: Global, rules: Rules<'a>) -> Result<Clean<'a>, AllocError>
        ensures rules { IfOk result (λ clean. rules_held clean ≡ rules_of rules.entry) }
        ensures root { IfOk result (λ clean. root_members (root_held clean)
            ≡ root_of_asset (asset_of_version (codes "2.0"))) }
    {
        let root = Root::new(alloc)?;
        Ok(Clean { rules, root })
    }

    /// Returns a `Clean` of the root if it has no report by the rules, as [`Clean::of`] does. If
    /// not, it fails with `Faulty`, which has the root and its first report. It fails with `Memory`
    /// instead if out of memory for the path.
    pub fn of_or_report(rules: Rules<'a>, root: Root) -> Result<Clean<'a>, Refused<Root>>
        ensures { IsHeldOrReported (rules_of rules.entry) root result }
    {
        match first_report(&rules, &root) {
            Ok(None) => Ok(Clean { rules, root }),
            Ok(Some(report)) => Err(Refused::Faulty(root, report)),
            Err(AllocError) => Err(Refused::Memory(root)),
        }
    }

    /// Returns the rules by which the root has no report. It takes no memory.
    pub fn rules(&self) -> Rules<'a>
        ensures { rules_of result ≡ rules_held self.now }
    {
        self.rules
    }

    /// Returns the item that an index names, or `None` if and only if its list is too short. It
    /// takes no memory.
    pub fn get<T: Item>(&self, index: Index<T>) -> Option<&T>
        ensures { option_copied result
            ≡ slice_get (T.items (root_held self.now)) (index_number index) }
    {
        T::list_of(&self.root).get(index.value())
    }
}
