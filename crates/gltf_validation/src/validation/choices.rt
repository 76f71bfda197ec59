//! Items of choices, whatever the choice.

ghost use Rattle.gltf_validation.specs.ByType.{checked_reports};

use super::Validate;
use gltf_base::Steps;
use gltf_base::validation::Checked;
use gltf_root::root::Root;
use gltf_validation_rules::{Rules, Sink, Stop, choice_fault, tell};

impl<T> Validate for Checked<T> {
    ghost own = { checked_reports };

    /// Reports `Invalid` if the item is invalid.
    fn validate_with<'a, S: Sink>(
        &'a self,
        _rules: &Rules<'_>,
        _root: &Root,
        path: &mut Steps<'a>,
        sink: &mut S,
    ) -> Result<(), Stop<S::Refusal>> {
        tell(path, choice_fault(self), sink)
    }
}
