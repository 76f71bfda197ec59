//! Elements that stand in a list more than once.

ghost use Rattle.std.specs.Prelude.{◌≡◌, ◌++◌, [], map, OnOk};
ghost use Rattle.gltf_base.specs.Indexes.{index_number};
ghost use Rattle.gltf_findings_codes.specs.Repeats.{repeat_findings};

use crate::code::Code;
use crate::collect::{add_found, broken};
use crate::finding::{Finding, Object, Subject};
use crate::name::Name;
use gltf_base::IndexTo;
use std::alloc::AllocError;
use std::collections::BTreeSet;

/// Adds the findings of the indexes that a member lists again. It takes `n log n` steps. Fails only
/// if out of memory.
pub fn add_repeats<P>(
    to: &mut Vec<Finding>,
    object: Object,
    name: Name,
    indexes: &[IndexTo<P>],
) -> Result<(), AllocError>
    ensures { OnOk result (to.new.items
        ≡ to.old.items ++ repeat_findings object name [] 0 (map index_number indexes.now)) }
{
    let mut before = BTreeSet::new(*to.allocator());
    for number in 0..indexes.len() {
        let is_new = before.insert(indexes[number].number())?;
        let place = Subject::Entry(object, name, number);
        add_found(to, &[broken(!is_new, Code::DuplicateElements, place)])?;
    }
    Ok(())
}
