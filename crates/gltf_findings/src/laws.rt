//! Laws: functions that do nothing, each with a contract that is a fact about definitions.

ghost use Rattle.std.specs.Prelude.{◌≡◌, ◌<◌, ◌^◌, ℕ, List, length, true, slice_get, Some};
ghost use Rattle.gltf_hierarchy.specs.Forest.{IsForest};
ghost use Rattle.gltf_load.specs.Named.{children_named};
ghost use Rattle.gltf_parts.specs.declared.accessor.Accessor.{Accessor};
ghost use Rattle.gltf_root.specs.declared.root.Root.{Root};
ghost use Rattle.gltf_findings_codes.specs.declared.finding.Finding.{Finding};
ghost use Rattle.gltf_findings_codes.specs.Without.{are_without};
ghost use Rattle.gltf_findings.specs.Findings.{AreFindings};
ghost use Rattle.gltf_findings.specs.Absent.{is_of_layout, is_of_hierarchy, LiesInView};
ghost use Rattle.gltf_findings.specs.Digits.{IsVersionText, machine_number};
ghost use Rattle.gltf_findings.specs.Versions.{version_of};

/// If nothing is found of the layout of a document, each accessor has elements of valid types. They
/// lie in the buffer view that the accessor names, and that view in its buffer.
pub fn accessors_without_findings_fit()
    ensures { (r : Root) (all : List Finding) (n : ℕ) (a : Accessor) → AreFindings r all
        → are_without is_of_layout all ≡ true → slice_get r.accessors.items n ≡ Some a
        → LiesInView r a }
{}

/// If nothing is found of the hierarchy of a document with fewer than 2^32 nodes, its nodes are
/// disjoint strict trees.
pub fn nodes_without_findings_are_trees()
    ensures { (r : Root) (all : List Finding) → AreFindings r all → length r.nodes.items < 2 ^ 32
        → are_without is_of_hierarchy all ≡ true → IsForest (children_named r.nodes.items) }
{}

/// A version is what its digits say: a text of digits, a point and digits is the pair of the two
/// numbers, and no other text is a version. A number of more than 64 bits counts as the greatest.
pub fn versions_are_what_their_digits_say()
    ensures read { (text major minor : List ℕ) → IsVersionText text major minor
        → version_of text ≡ Some (machine_number major, machine_number minor) }
    ensures written { (text : List ℕ) (a b : ℕ) → version_of text ≡ Some (a, b)
        → (major minor : List ℕ) × IsVersionText text major minor }
{}
