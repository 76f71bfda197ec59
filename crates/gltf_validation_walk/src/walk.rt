//! What a walk holds.

ghost use Rattle.std.specs.Prelude.{◌≤◌, ◌-◌, suc, length};
ghost use Rattle.gltf_validation_rules.specs.Context.{rules_of, under};
ghost use Rattle.gltf_root.specs.Root.{root_tree};
ghost use Rattle.gltf_validation_walk.specs.Rest.{checklists_left};
ghost use Rattle.gltf_validation_walk.specs.Stacks.{reach};

use crate::frame::Frame;
use arrayvec::ArrayVec;
use gltf_base::Steps;
use gltf_root::root::Root;
use gltf_validation_rules::Rules;

/// A walk over a value from any place, by any rules, against a document.
// Its calls, and those of `Walk`, are in next_report.rt: their contracts name these types, and a
// file with a ghost field must not import a file that imports it.
#[derive(Drop)]
pub struct ValueWalk<'a> {
    pub(crate) rules: Rules<'a>,
    pub(crate) root: &'a Root,
    /// The values that the walk is in, each below the one before.
    pub(crate) frames: ArrayVec<Frame<'a>, 16>,
    pub(crate) steps: Steps<'a>,
    ghost reach_is_bounded: { reach 0
        (checklists_left (under (rules_of rules) (root_tree root.now)) frames.items)
        ≤ 10 },
    ghost frames_have_steps: { length frames.items ≤ suc (length steps.items) },
}

/// A walk over a document, which returns its reports one at a time.
#[derive(Drop)]
pub struct Walk<'a> {
    pub(crate) inner: ValueWalk<'a>,
    ghost steps_have_frames: { length inner.steps.items ≤ length inner.frames.items - 1 },
}
