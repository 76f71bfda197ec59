//! Accessors without data.

ghost use Rattle.std.specs.Prelude.{◌≡◌, List, ◌∷◌, [], ◌++◌, codes};
ghost use Rattle.gltf_base.specs.Steps.{Step, field};
ghost use Rattle.gltf_parts.specs.Accessor.{accessor_members};
ghost use Rattle.gltf_validation_rules.specs.Report.{found_at};
ghost use Rattle.gltf_validation_rules.specs.Rules.{accessor_rule};

use gltf_base::validation::Error;
use gltf_parts::accessor::Accessor;

/// What is wrong with an accessor's data (glTF 2.0, section 3.6.2.3): `Missing`, for `bufferView`,
/// where it has neither a view nor sparse storage.
#[tactic(auto, unfolding(gltf_parts::specs::Accessor::accessor_rows, gltf_parts::specs::Accessor::accessor_members))]
pub fn data_fault(accessor: &Accessor) -> Option<Error>
    ensures { (base : List Step) → found_at result (base ++ field (codes "bufferView") ∷ [])
        ≡ accessor_rule (accessor_members accessor.now) base }
{
    match (&accessor.sparse, &accessor.buffer_view) {
        (None, None) => Some(Error::Missing),
        _ => None,
    }
}
