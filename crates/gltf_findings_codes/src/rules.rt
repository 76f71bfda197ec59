//! Rules that many members share.

ghost use Rattle.std.specs.Prelude.{◌≡◌};
ghost use Rattle.gltf_findings_codes.specs.Rules.{is_invalid, is_some_invalid, is_unresolved, is_some_unresolved, is_empty_list, reference_findings};

use crate::code::Code;
use crate::collect::{Rules, add_found, broken};
use crate::finding::{Finding, Object, Subject};
use crate::name::Name;
use gltf_base::IndexTo;
use gltf_base::validation::Checked;
use std::alloc::AllocError;

/// Whether a value is none that the choice lists.
pub fn is_invalid<T>(value: &Checked<T>) -> bool
    ensures { result ≡ is_invalid value.now }
{
    // derived
    match value {
        Checked::Valid(_) => false,
        Checked::Invalid => true,
    }
}

/// Whether a value is there and none that the choice lists.
pub fn is_some_invalid<T>(value: &Option<Checked<T>>) -> bool
    ensures { result ≡ is_some_invalid value.now }
{
    // derived
    match value {
        Some(value) => is_invalid(value),
        None => false,
    }
}

/// Whether an index names none of so many items.
pub fn is_unresolved<P>(index: IndexTo<P>, count: usize) -> bool
    ensures { result ≡ is_unresolved count index }
{
    // derived
    count <= index.number() as usize
}

/// Whether an index is there and names none of so many items.
pub fn is_some_unresolved<P>(index: Option<IndexTo<P>>, count: usize) -> bool
    ensures { result ≡ is_some_unresolved count index }
{
    // derived
    match index {
        Some(index) => is_unresolved(index, count),
        None => false,
    }
}

/// Whether a list is there and empty.
pub fn is_empty_list<T>(list: &Option<Vec<T>>) -> bool
    ensures { result ≡ is_empty_list list.now }
{
    // derived
    match list {
        Some(list) => list.len() == 0,
        None => false,
    }
}

/// The rule for the indexes that a member lists: each names one of so many items.
#[derive(Clone, Copy)]
pub struct References {
    /// The object that has the member.
    pub object: Object,
    /// The name of the member.
    pub name: Name,
    /// How many items there are.
    pub count: usize,
}

impl<P> Rules<IndexTo<P>> for References {
    ghost findings = { λ s k index. reference_findings s.object s.name s.count k index };

    fn add(
        &self,
        number: usize,
        item: &IndexTo<P>,
        to: &mut Vec<Finding>,
    ) -> Result<(), AllocError> {
        let is_unresolved = is_unresolved(*item, self.count);
        let place = Subject::Entry(self.object, self.name, number);
        add_found(
            to,
            &[broken(is_unresolved, Code::UnresolvedReference, place)],
        )
    }
}
