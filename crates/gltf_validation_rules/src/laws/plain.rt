//! Laws of plain documents.

ghost use Rattle.std.specs.Prelude.{◌≡◌, true};
ghost use Rattle.gltf_base.specs.Lists.{ListName};
ghost use Rattle.gltf_root.specs.Pushed.{item_kind, pushed};
ghost use Rattle.gltf_root.specs.Root.{root_kind, root_tree};
ghost use Rattle.gltf_root.specs.declared.root.Root.{Root as Document};
ghost use Rattle.gltf_schema.specs.Plain.{is_plain};
ghost use Rattle.gltf_schema.specs.Tree.{Tree};

/// A push of a plain item leaves a plain document plain. Each document that was read is plain, and
/// so is each item that was read.
pub fn pushes_leave_documents_plain()
    ensures { (r : Document) (named : ListName) (x : Tree) → is_plain root_kind (root_tree r) ≡ true
        → is_plain (item_kind named) x ≡ true
        → is_plain root_kind (pushed named x (root_tree r)) ≡ true }
{}
