//! Laws of documents that are written and read back, or stripped.

ghost use Rattle.std.specs.Prelude.{◌≡◌, ℕ, List, Result, true, IsOkAnd};
ghost use Rattle.gltf_validation.specs.Held.{IsHeld, rules_held, tree_held};
ghost use Rattle.gltf_validation.specs.declared.clean.Clean.{Clean};
ghost use Rattle.gltf_root.specs.Answer.{answer, document};
ghost use Rattle.gltf_root.specs.Rewritten.{IsShallow};
ghost use Rattle.gltf_root.specs.Root.{root_kind, root_tree};
ghost use Rattle.gltf_root.specs.Written.{IsCompactOf, IsPrettyOf};
ghost use Rattle.gltf_root.specs.declared.root.Root.{Root as Document};
ghost use Rattle.gltf_schema.specs.Plain.{is_plain};
ghost use Rattle.gltf_schema.specs.Stripped.{stripped};
ghost use Rattle.gltf_schema.specs.Tree.{Tree};
ghost use Rattle.gltf_schema.specs.declared.stripping.Strip.{Strip};
ghost use Rattle.gltf_validation_rules.specs.Context.{Rules};
ghost use Rattle.gltf_validation_rules.specs.Reports.{document_reports};

/// A plain root of a `Clean` that is written, read and handed to `Clean::of` with its rules is held
/// again. It is the same document, if it isn't nested deeper than 127 levels.
///
/// A root that was read is plain. One that was built is plain, unless it has one of these:
/// - a null: `extras`, `min` and `max` of an accessor, or `extensions` of a light;
/// - among the members that are kept, one with the name of a row;
/// - sparse indices with a component type that no index has, as `F32`.
///
/// None of these is reported, so a push may bring each of them in.
pub fn written_roots_are_held_again()
    ensures compact { (c : Clean) (root : Document) (bytes : List ℕ)
        (result : Result Clean Document) → is_plain root_kind (tree_held c) ≡ true
        → IsShallow (tree_held c) → IsCompactOf (tree_held c) bytes
        → answer bytes ≡ document (root_tree root) → IsHeld (rules_held c) root result
        → IsOkAnd result (λ again. tree_held again ≡ tree_held c) }
    ensures pretty { (c : Clean) (root : Document) (bytes : List ℕ)
        (result : Result Clean Document) → is_plain root_kind (tree_held c) ≡ true
        → IsShallow (tree_held c) → IsPrettyOf (tree_held c) bytes
        → answer bytes ≡ document (root_tree root) → IsHeld (rules_held c) root result
        → IsOkAnd result (λ again. tree_held again ≡ tree_held c) }
{}

/// A document that is stripped of its `extras`, or of the unknown members that its objects keep, has
/// the same reports by all rules. After `Root::strip_extras` and `Root::drop_unknown` a document
/// without reports has none.
pub fn stripped_documents_have_the_same_reports()
    ensures { (rules : Rules) (what : Strip) (root : Tree)
        → document_reports rules (stripped what root_kind root) ≡ document_reports rules root }
{}
