//! Ranges of numbers.

ghost use Rattle.std.specs.Prelude.{◌≡◌, ◌++◌, Option, OnOk};
ghost use Rattle.gltf_findings_codes.specs.Found.{findings_from};
ghost use Rattle.gltf_findings_codes.specs.Ranges.{is_within, is_out, is_some_out, range_rule, number_findings, numbers_findings};

use crate::code::Code;
use crate::collect::{Rules, add_all, add_found, broken};
use crate::finding::{Finding, Object, Subject};
use crate::name::Name;
use gltf_base::Real;
use std::alloc::AllocError;
use std::f64::consts::FRAC_PI_2;

/// The numbers that a member may be.
#[derive(Clone, Copy)]
pub enum Range {
    /// From 0 to 1.
    Factor,
    /// From -1 to 1.
    Cosine,
    /// From 0.
    NotNegative,
    /// Above 0.
    Positive,
    /// From 1, or 0.
    RefractionIndex,
    /// From 0 to below a quarter turn.
    InnerAngle,
    /// Above 0, up to a quarter turn.
    OuterAngle,
}

impl Range {
    /// Whether a number is within the range.
    pub fn contains(&self, x: f64) -> bool
        ensures { result ≡ is_within self.now x }
    {
        match self {
            Range::Factor => 0.0 <= x && x <= 1.0,
            Range::Cosine => -x <= 1.0 && x <= 1.0,
            Range::NotNegative => 0.0 <= x,
            Range::Positive => 0.0 < x,
            Range::RefractionIndex => x == 0.0 || 1.0 <= x,
            Range::InnerAngle => 0.0 <= x && x < FRAC_PI_2,
            Range::OuterAngle => 0.0 < x && x <= FRAC_PI_2,
        }
    }

    /// Whether a number is out of the range.
    pub fn excludes(&self, number: &Real) -> bool
        ensures { result ≡ is_out self.now number.now }
    {
        !self.contains(number.as_f64())
    }

    /// Whether a number is there and out of the range.
    pub fn excludes_some(&self, number: &Option<Real>) -> bool
        ensures { result ≡ is_some_out self.now number.now }
    {
        match number {
            Some(number) => self.excludes(number),
            None => false,
        }
    }

    /// Returns the rule for a number that an object may have.
    pub fn rule(&self, object: Object, name: Name, number: &Option<Real>) -> Option<Finding>
        ensures { result ≡ range_rule self.now object name number.now }
    {
        broken(
            self.excludes_some(number),
            Code::ValueNotInRange,
            Subject::Member(object, name),
        )
    }
}

/// The range of the numbers that a member lists.
#[derive(Clone, Copy)]
pub struct Numbers {
    /// The object that has the member.
    pub object: Object,
    /// The name of the member.
    pub name: Name,
    /// The range of each number.
    pub range: Range,
}

impl Rules<Real> for Numbers {
    ghost findings = { λ s k x. number_findings s.object s.name s.range k x };

    fn add(&self, number: usize, item: &Real, to: &mut Vec<Finding>) -> Result<(), AllocError> {
        let is_out = self.range.excludes(item);
        let place = Subject::Entry(self.object, self.name, number);
        add_found(to, &[broken(is_out, Code::ValueNotInRange, place)])
    }
}

impl Numbers {
    /// Adds the findings of a list of numbers, if it is there.
    pub fn add_to<const N: usize>(
        &self,
        to: &mut Vec<Finding>,
        numbers: &Option<[Real; N]>,
    ) -> Result<(), AllocError>
        ensures { OnOk result (to.new.items ≡ to.old.items
            ++ numbers_findings self.now.object self.now.name self.now.range numbers.now) }
    {
        match numbers {
            Some(numbers) => add_all(to, self, numbers),
            None => Ok(()),
        }
    }
}
