//! Findings of one object, and of all items of a list.

ghost use Rattle.std.specs.Prelude.{◌≡◌, ◌++◌, ℕ, List, OnOk};
ghost use Rattle.gltf_findings_codes.specs.declared.finding.Finding.{Finding as Found};
ghost use Rattle.gltf_findings_codes.specs.Found.{broken, found, findings_from, findings_if};

use crate::code::Code;
use crate::finding::{Finding, Subject};
use std::alloc::AllocError;

/// The finding of a rule, if the rule is broken.
pub fn broken(is_broken: bool, code: Code, place: Subject) -> Option<Finding>
    ensures { result ≡ broken is_broken code place }
{
    // derived
    if is_broken {
        Some(Finding { code, place })
    } else {
        None
    }
}

/// Adds the findings of rules. This and the calls below fail only if out of memory.
pub fn add_found(to: &mut Vec<Finding>, rules: &[Option<Finding>]) -> Result<(), AllocError>
    ensures { OnOk result (to.new.items ≡ to.old.items ++ found rules.now) }
{
    for rule in rules {
        if let Some(finding) = rule {
            to.push(*finding)?;
        }
    }
    Ok(())
}

/// The rules for the items of a list.
pub trait Rules<T> {
    // The findings of the item with a number.
    ghost findings: { Self → ℕ → T → List Found };

    /// Adds the findings of an item.
    fn add(&self, number: usize, item: &T, to: &mut Vec<Finding>) -> Result<(), AllocError>
        ensures { OnOk result (to.new.items ≡ to.old.items ++ findings self.now number item.now) };
}

/// Adds the findings of the items of a list, in order.
pub fn add_all<T, R: Rules<T>>(
    to: &mut Vec<Finding>,
    rules: &R,
    items: &[T],
) -> Result<(), AllocError>
    ensures { OnOk result (to.new.items
        ≡ to.old.items ++ findings_from (R.findings rules.now) 0 items.now) }
{
    for number in 0..items.len() {
        rules.add(number, &items[number], to)?;
    }
    Ok(())
}

/// Adds the findings of what an item with a number may have.
pub fn add_some<T, R: Rules<T>>(
    to: &mut Vec<Finding>,
    rules: &R,
    number: usize,
    item: &Option<T>,
) -> Result<(), AllocError>
    ensures { OnOk result (to.new.items
        ≡ to.old.items ++ findings_if (R.findings rules.now number) item.now) }
{
    match item {
        Some(item) => rules.add(number, item, to),
        None => Ok(()),
    }
}
