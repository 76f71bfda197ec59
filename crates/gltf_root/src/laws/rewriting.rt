//! Laws of documents that are written, read and written again.

ghost use Rattle.std.specs.Prelude.{◌≡◌, ℕ, List, true};
ghost use Rattle.gltf_schema.specs.Plain.{is_plain};
ghost use Rattle.gltf_root.specs.Answer.{answer, document};
ghost use Rattle.gltf_root.specs.Rewritten.{HoldsNoFloat, IsShallow};
ghost use Rattle.gltf_root.specs.Root.{root_kind, root_tree};
ghost use Rattle.gltf_root.specs.Written.{IsCompactOf, IsPrettyOf};
ghost use Rattle.gltf_root.specs.declared.root.Root.{Root as Document};

/// A document without floats has one compact text, and one pretty-printed text. The digits of a
/// float are only promised to read back: `1.5` and `1.50` would both do.
pub fn documents_have_one_text()
    ensures compact { (r : Document) (first second : List ℕ) → HoldsNoFloat (root_tree r)
        → IsCompactOf (root_tree r) first → IsCompactOf (root_tree r) second → second ≡ first }
    ensures pretty { (r : Document) (first second : List ℕ) → HoldsNoFloat (root_tree r)
        → IsPrettyOf (root_tree r) first → IsPrettyOf (root_tree r) second → second ≡ first }
{}

/// Either text of a plain document reads back as that document, if it isn't nested deeper than 127
/// levels.
pub fn plain_documents_are_read_back()
    ensures compact { (r s : Document) (bytes : List ℕ) → is_plain root_kind (root_tree r) ≡ true
        → IsShallow (root_tree r) → IsCompactOf (root_tree r) bytes
        → answer bytes ≡ document (root_tree s) → root_tree s ≡ root_tree r }
    ensures pretty { (r s : Document) (bytes : List ℕ) → is_plain root_kind (root_tree r) ≡ true
        → IsShallow (root_tree r) → IsPrettyOf (root_tree r) bytes
        → answer bytes ≡ document (root_tree s) → root_tree s ≡ root_tree r }
{}

/// A plain document without floats that is written, read and written again gives the same bytes,
/// if it isn't nested deeper than 127 levels. Each document that was read is plain.
pub fn plain_documents_are_written_again()
    ensures compact { (r s : Document) (first second : List ℕ)
        → is_plain root_kind (root_tree r) ≡ true → IsShallow (root_tree r)
        → HoldsNoFloat (root_tree r) → IsCompactOf (root_tree r) first
        → answer first ≡ document (root_tree s) → IsCompactOf (root_tree s) second
        → second ≡ first }
    ensures pretty { (r s : Document) (first second : List ℕ)
        → is_plain root_kind (root_tree r) ≡ true → IsShallow (root_tree r)
        → HoldsNoFloat (root_tree r) → IsPrettyOf (root_tree r) first
        → answer first ≡ document (root_tree s) → IsPrettyOf (root_tree s) second
        → second ≡ first }
{}
