//! Laws of calls that change a document without reports, one after another.

ghost use Rattle.std.specs.Prelude.{ℕ, List, Ok, String};
ghost use Rattle.std.specs.declared.alloc.Global.{Global};
ghost use Rattle.std.specs.declared.vec.Vec.{Vec as Names};
ghost use Rattle.gltf_base.specs.Lists.{ListName};
ghost use Rattle.gltf_base.specs.declared.index.IndexTo.{IndexTo as AnIndex};
ghost use Rattle.gltf_root.specs.Root.{root_tree};
ghost use Rattle.gltf_root.specs.declared.root.Root.{Root as Document};
ghost use Rattle.gltf_schema.specs.Tree.{Tree};
ghost use Rattle.gltf_validation_rules.specs.Context.{Rules as Allowed};
ghost use Rattle.gltf_validation.specs.Changes.{Change, push, replace, set_extensions_required, IsChanged, AreChanged};
ghost use Rattle.gltf_validation.specs.Clean.{IsClean, IsPushed};
ghost use Rattle.gltf_validation.specs.Replaced.{IsReplaced};
ghost use Rattle.gltf_validation.specs.Set.{IsRequired};

/// A document without reports stays one under any list of pushes, replacements and setters that
/// succeed. This holds by any rules, which stay the same from call to call.
pub fn changes_leave_no_reports()
    ensures { (rules : Allowed) (changes : List Change) (old new : Document)
        → AreChanged rules changes old new → IsClean rules (root_tree old)
        → IsClean rules (root_tree new) }
{}

/// Each call of `Clean` that succeeds is one of these changes: a push, a replacement, or names of
/// required extensions. The setters promise their changes as they are.
pub fn calls_that_succeed_are_changes<P, T>()
    ensures pushed { (rules : Allowed) (named : ListName) (item : T) (x : Tree)
        (index : AnIndex P) (old new : Document)
        → IsPushed rules named item x (root_tree old) (Ok index) (root_tree new)
        → IsChanged rules (push named x) old new }
    ensures replaced { (rules : Allowed) (named : ListName) (n : ℕ) (item was : T) (x : Tree)
        (old new : Document)
        → IsReplaced rules named n item x (root_tree old) (Ok was) (root_tree new)
        → IsChanged rules (replace named n x) old new }
    ensures required { (rules : Allowed) (names : Names (String Global) Global)
        (old new : Document) → IsRequired rules names old (Ok tt) new
        → IsChanged rules set_extensions_required old new }
{}
