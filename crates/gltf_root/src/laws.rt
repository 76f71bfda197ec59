//! Laws of the definitions that contracts of this crate use. Each is the contract of a function
//! that does nothing.

ghost use Rattle.std.specs.Prelude.{◌≡◌};
ghost use Rattle.gltf_base.specs.Lists.{ListName};
ghost use Rattle.gltf_schema.specs.Tree.{Tree};
ghost use Rattle.gltf_root.specs.Pushed.{pushed};
ghost use Rattle.gltf_root.specs.Root.{root_tree};
ghost use Rattle.gltf_root.specs.Undone.{mark_in, undone};
ghost use Rattle.gltf_root.specs.declared.root.Root.{Root as Document};

pub mod lists;
pub mod rewriting;

/// A push that is taken back, by the mark that the document had before it, leaves that document.
pub fn pushes_are_taken_back()
    ensures { (r : Document) (named : ListName) (x : Tree)
        → undone named (mark_in named (root_tree r)) (pushed named x (root_tree r)) ≡ root_tree r }
{}
