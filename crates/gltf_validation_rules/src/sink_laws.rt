//! Laws of the definitions that contracts of this crate use. Each is the contract of a function
//! that does nothing.

ghost use Rattle.std.specs.Prelude.{◌≡◌, ◌<◌, ◌+◌, ◌-◌, ◌^◌, ◌++◌, ℕ, List, [], length, map, min};
ghost use Rattle.gltf_base.specs.declared.validation.Error.{Error};
ghost use Rattle.gltf_validation_rules.specs.SinkOutcome.{run};
ghost use Rattle.gltf_validation_rules.specs.Report.{Report};
ghost use Rattle.gltf_validation_rules.specs.Sinks.{as_collected, one_more, with_report};

/// After a run of reports a count holds their number added to what it held before, up to the
/// largest number of 64 bits.
pub fn counts_are_numbers_of_reports()
    ensures from_none { (rs : List Report) → run one_more 0 rs ≡ min (length rs) (2 ^ 64 - 1) }
    ensures from_some { (n : ℕ) (rs : List Report) → n < 2 ^ 64
        → run one_more n rs ≡ min (n + length rs) (2 ^ 64 - 1) }
{}

/// After a run of reports a collection holds each of them, in order, behind those that it held
/// before.
pub fn collections_hold_the_reports()
    ensures from_none { (rs : List Report) → run with_report [] rs ≡ map as_collected rs }
    ensures from_some { (held : List (List ℕ × Error)) (rs : List Report)
        → run with_report held rs ≡ held ++ map as_collected rs }
{}
