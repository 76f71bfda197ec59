//! Whether a document has a report, in one call.

ghost use Rattle.std.specs.Prelude.{◌≡◌, ◌↔◌, IsTrue};
ghost use Rattle.gltf_root.specs.Root.{root_tree};
ghost use Rattle.gltf_schema.specs.Tree.{Tree};
ghost use Rattle.gltf_validation_rules.specs.Context.{rules_of, standard_rules};
ghost use Rattle.gltf_validation.specs.Clean.{IsClean};

use crate::fault::first_fault;
use gltf_root::root::Root;
use gltf_validation_rules::Rules;

/// A document that tells whether it has a report. It is implemented for [`Root`].
pub trait ValidateRoot {
    /// The document as the table sees it.
    ghost document: { Self → Tree };

    /// Returns whether the document has no report by the standard rules, against itself: whether
    /// `validate` with a new `Count` leaves it at zero. It stops at the first report, and takes no
    /// memory.
    fn is_clean(&self) -> bool
        ensures { IsTrue result ↔ IsClean standard_rules (document self.now) };

    /// Returns the same by the caller's rules.
    fn is_clean_by(&self, rules: &Rules<'_>) -> bool
        ensures { IsTrue result ↔ IsClean (rules_of rules.now) (document self.now) };
}

impl ValidateRoot for Root {
    ghost document = { root_tree };

    fn is_clean(&self) -> bool {
        self.is_clean_by(&Rules::new())
    }

    fn is_clean_by(&self, rules: &Rules<'_>) -> bool {
        first_fault(self, rules, self).is_none()
    }
}
