//! Laws of documents without reports that are written.

ghost use Rattle.std.specs.Prelude.{◌≡◌, [], false};
ghost use Rattle.gltf_validation_rules.specs.Context.{Rules};
ghost use Rattle.gltf_validation_rules.specs.Reports.{document_reports};
ghost use Rattle.gltf_base.specs.declared.error.Error.{Error};
ghost use Rattle.gltf_root.specs.Root.{root_tree};
ghost use Rattle.gltf_root.specs.Written.{IsOutOfMemory, IsWithheld};
ghost use Rattle.gltf_root.specs.declared.root.Root.{Root as Document};
ghost use Rattle.gltf_schema.specs.Invalid.{holds_invalid};

/// In a document without reports no enum value and no attribute name is invalid. So writing it
/// never fails with `InvalidItem`, but only if out of memory or if the writer fails. This holds for
/// every document, read or built, and by any rules.
pub fn clean_documents_are_written()
    ensures valid { (rules : Rules) (r : Document) → document_reports rules (root_tree r) ≡ []
        → holds_invalid (root_tree r) ≡ false }
    ensures memory { (rules : Rules) (r : Document) (e : Error)
        → document_reports rules (root_tree r) ≡ [] → IsWithheld (root_tree r) e
        → IsOutOfMemory e }
{}
