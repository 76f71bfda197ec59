//! The first fault of a value.

ghost use Rattle.std.specs.Prelude.{◌≡◌, ◌≤◌, ◌++◌, ◌∷◌, ℕ, suc, List, []};
ghost use Rattle.gltf_base.specs.Steps.{Step};
ghost use Rattle.gltf_validation_rules.specs.Report.{first_fault_of};
ghost use Rattle.gltf_root.specs.Pushed.{item_kind};
ghost use Rattle.gltf_root.specs.Root.{root_tree};
ghost use Rattle.gltf_validation_rules.specs.Context.{rules_of, under};
ghost use Rattle.gltf_validation_rules.specs.Reports.{reports_by_rules};
ghost use Rattle.gltf_validation.specs.ByType.{reports_by};
ghost use Rattle.gltf_validation.specs.Indexing.{list_reports};

use crate::item::Item;
use crate::validation::{SchemaObject, Validate};
use gltf_base::Steps;
use gltf_base::validation::Error;
use gltf_root::root::{Root, TopLevel};
use gltf_validation_rules::{Rules, Sink, Stop};

/// A sink that refuses the first report with its fault.
#[derive(Drop)]
struct FirstFault;

impl Sink for FirstFault {
    type Refusal = Error;

    // How many reports it took.
    ghost State = { ℕ };

    ghost state = { λ _. 0 };

    ghost next = { λ count _ _. suc count };

    ghost refuses = { λ old _ error refusal new. (old ≡ 0) × (refusal ≡ error) × (new ≡ 0) };

    fn report(&mut self, _path: &Steps<'_>, error: Error) -> Result<(), Error> {
        Err(error)
    }
}

/// Returns the fault of the first report of a value in `root`, or `None` if it has none.
pub(crate) fn first_fault<V: Validate>(value: &V, rules: &Rules<'_>, root: &Root) -> Option<Error>
    requires { V.depth ≤ 11 }
    ensures { result ≡ first_fault_of (reports_by V.kind (V.tree value.now) (V.own value.now)
        (under (rules_of rules.now) (root_tree root.now)) []) }
{
    match value.validate_with(rules, root, &mut Steps::new(), &mut FirstFault) {
        Ok(()) => None,
        Err(Stop::Sink(error)) => Some(error),
        // No value is deeper than a path is long.
        Err(Stop::StepsFull) => unreachable!(),
    }
}

/// Returns the fault of the first report of the items of a list, or `None` if they have none.
pub(crate) fn fault_in_list<T: SchemaObject + TopLevel>(
    rules: &Rules<'_>,
    root: &Root,
) -> Option<Error>
    ensures { result ≡ first_fault_of (list_reports (rules_of rules.now) (root_tree root.now)
        T.list) }
{
    first_fault(T::list_in(root), rules, root)
}

/// Returns the fault of the first report of the last item of a list, or `None` if it has none.
pub(crate) fn fault_of_last<T: Item>(rules: &Rules<'_>, root: &Root) -> Option<Error>
    ensures { (before : List T) (item : T) (base : List Step)
        → T.items root.now ≡ before ++ item ∷ []
        → result ≡ first_fault_of (reports_by_rules (rules_of rules.now) (item_kind T.list)
        (T.RootItem.tree item) (root_tree root.now) base) }
{
    match T::list_of(root).last() {
        Some(item) => first_fault(item, rules, root),
        None => None,
    }
}
