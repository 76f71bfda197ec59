//! The calls of a walk: one loop over a stack of frames.

ghost use Rattle.std.specs.Prelude.{◌≡◌, ◌<◌, ◌≤◌, ◌+◌, [], length, IfOk, None, OnErr, false};
ghost use Rattle.gltf_base.specs.Steps.{steps_of};
ghost use Rattle.gltf_root.specs.Root.{root_tree};
ghost use Rattle.gltf_validation_rules.specs.Context.{rules_of, standard_rules};
ghost use Rattle.gltf_validation_rules.specs.Reports.{document_reports, reports_by_rules};
ghost use Rattle.gltf_validation_objects.specs.ValueRefs.{checklist_of};
ghost use Rattle.gltf_schema.specs.Height.{kind_height};
ghost use Rattle.gltf_validation_objects.specs.Checklist.{leaf};
ghost use Rattle.gltf_validation_walk.specs.ToCome.{base_count, depth_in, to_come_in, path_in, to_come, path_of, IsNext, IsNextOf};

use crate::frame::{Frame, begun_in, next_of_last};
use crate::is_quiet;
use crate::walk::{ValueWalk, Walk};
use gltf_base::Steps;
use gltf_base::validation::Error;
use gltf_root::root::Root;
use gltf_validation_objects::{Event, ValueRef, Visitable};
use gltf_validation_rules::{Context, Rules};

/// A path that has no room for one more step.
#[derive(Clone, Copy, Debug, Drop, PartialEq, Eq)]
pub struct StepsFull;

impl<'a> ValueWalk<'a> {
    /// A walk over `value` by `rules` that looks its indexes up in `root`; each of its paths begins
    /// with the steps of `base`.
    pub fn new<T: Visitable>(
        rules: Rules<'a>,
        value: &'a T,
        root: &'a Root,
        base: &Steps<'a>,
    ) -> ValueWalk<'a>
        requires { kind_height T.kind ≤ 10 }
        ensures reports { to_come_in result
            ≡ reports_by_rules (rules_of rules.entry) T.kind (T.tree value.now) (root_tree root.now)
            (steps_of base.now) }
        ensures base { base_count result ≡ length (steps_of base.now) }
        ensures path { path_in result ≡ steps_of base.now }
        ensures depth { depth_in result ≤ kind_height T.kind }
    {
        let start = value.value_ref(&Context {
            rules: &rules,
            root,
        });
        ValueWalk {
            rules,
            root,
            frames: begun_in(start),
            steps: copied(base),
        }
    }

    /// Returns the fault of the next report, whose path is then in `steps`, or `None` if there are
    /// no more. Fails with `StepsFull` only if the steps of the base and those below the value are
    /// more than 16 together.
    pub fn next_report(&mut self) -> Result<Option<Error>, StepsFull>
        ensures next { IfOk result (λ error. IsNextOf self.old error self.new) }
        ensures depth { depth_in self.new ≤ depth_in self.old }
        ensures full { OnErr result (16 < base_count self.old + depth_in self.old) }
    {
        while !self.frames.is_empty() {
            let context = Context {
                rules: &self.rules,
                root: self.root,
            };
            match next_of_last(&mut self.frames, &context) {
                Event::End => {
                    let _ = self.frames.pop();
                    let _ = self.steps.pop();
                }
                Event::Fault(error) => return Ok(Some(error)),
                Event::Enter(_, ValueRef::Leaf(None)) => {}
                // Nothing comes behind its fault.
                Event::Enter(step, ValueRef::Leaf(Some(error))) => {
                    if self.steps.is_full() {
                        return Err(StepsFull);
                    }
                    self.frames.push(Frame::at_start(ValueRef::Leaf(None)));
                    self.steps.push(step);
                    return Ok(Some(error));
                }
                Event::Enter(step, value) => {
                    // Most of what a walk comes to has nothing wrong in it.
                    if !is_quiet(&value, &context) {
                        if self.steps.is_full() {
                            return Err(StepsFull);
                        }
                        self.frames.push(Frame::at_start(value));
                        self.steps.push(step);
                    }
                }
            }
        }
        Ok(None)
    }

    /// Returns the path of the last report.
    pub fn steps(&self) -> &Steps<'a>
        ensures { steps_of result.now ≡ path_in self.now }
    {
        &self.steps
    }
}

impl<'a> Walk<'a> {
    /// Returns a walk over `root` that has not begun.
    pub fn new(root: &'a Root) -> Walk<'a>
        ensures reports { to_come result ≡ document_reports standard_rules (root_tree root.now) }
        ensures path { path_of result ≡ [] }
    {
        Walk::with_rules(Rules::new(), root)
    }

    /// Returns a walk over `root` by the caller's rules that has not begun.
    pub fn with_rules(rules: Rules<'a>, root: &'a Root) -> Walk<'a>
        ensures reports { to_come result
            ≡ document_reports (rules_of rules.entry) (root_tree root.now) }
        ensures path { path_of result ≡ [] }
    {
        Walk {
            inner: ValueWalk::new(rules, root, root, &Steps::new()),
        }
    }

    /// Returns the fault of the next report, whose path is then in `steps`. Returns `None`, with
    /// empty `steps`, if there are no more.
    pub fn next_report(&mut self) -> Option<Error>
        ensures { IsNext (to_come self.old) result (path_of self.new) (to_come self.new) }
    {
        match self.inner.next_report() {
            Ok(error) => error,
            // No document is deeper than a path is long.
            Err(StepsFull) => unreachable!(),
        }
    }

    /// Returns the path of the last report. It is empty before the first one and after the last
    /// one.
    pub fn steps(&self) -> &Steps<'a>
        ensures { steps_of result.now ≡ path_of self.now }
    {
        self.inner.steps()
    }
}

/// The same steps.
fn copied<'a>(base: &Steps<'a>) -> Steps<'a>
    ensures { result.items ≡ base.now.items }
{
    let mut steps = Steps::new();
    // They fit: both have the same room.
    let _ = steps.try_extend_from_slice(base.as_slice());
    steps
}
