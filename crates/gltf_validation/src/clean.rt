//! A document without reports.

ghost use Rattle.gltf_root.specs.Root.{root_tree};
ghost use Rattle.gltf_validation_rules.specs.Context.{rules_of};
ghost use Rattle.gltf_validation.specs.Clean.{IsClean, IsClean-prop};

use gltf_root::root::Root;
use gltf_validation_rules::Rules;

/// A root that has no report by its rules.
// Its calls are in push.rt: their contracts name this type, and a file with a ghost field must not
// import a file that imports it.
#[derive(Drop)]
pub struct Clean<'a> {
    pub(crate) rules: Rules<'a>,
    pub(crate) root: Root,
    ghost is_clean: { IsClean (rules_of rules) (root_tree root) } by { IsClean-prop (rules_of rules) (root_tree root) },
}
