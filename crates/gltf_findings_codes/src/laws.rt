//! Laws of definitions of whole lists. Each is the contract of a function that does nothing.

ghost use Rattle.std.specs.Prelude.{◌≡◌, ◌<◌, ◌↔◌, ◌⊎◌, ℕ, List, Bool, [], true, false, length, replicate, Contains};
ghost use Rattle.gltf_findings_codes.specs.declared.finding.Object.{Object};
ghost use Rattle.gltf_findings_codes.specs.declared.name.Name.{Name};
ghost use Rattle.gltf_findings_codes.specs.Marks.{is_marked, mark_all};
ghost use Rattle.gltf_findings_codes.specs.Repeats.{repeat_findings, repeat_at, IsRepeat};

/// An item has a mark exactly if an index names it, or if it had one before.
pub fn marks_are_of_named_items()
    ensures unmarked { (count n : ℕ) (ns : List ℕ) → n < count
        → (is_marked (mark_all (replicate count false) ns) n ≡ true) ↔ Contains ns n }
    ensures marked { (marks : List Bool) (n : ℕ) (ns : List ℕ) → n < length marks
        → (is_marked (mark_all marks ns) n ≡ true)
        ↔ ((is_marked marks n ≡ true) ⊎ Contains ns n) }
{}

/// A place in a list is found as a repeat exactly if an equal number stands before it.
pub fn repeats_have_an_equal_one_before()
    ensures { (object : Object) (name : Name) (ns : List ℕ) (j : ℕ)
        → Contains (repeat_findings object name [] 0 ns) (repeat_at object name j)
        ↔ IsRepeat ns j }
{}
