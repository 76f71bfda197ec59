//! The accessors that attributes name.

ghost use Rattle.std.specs.Prelude.{◌≡◌, map};
ghost use Rattle.std.specs.Map.{lookup};
ghost use Rattle.gltf_base.specs.Keys.{key_eq};
ghost use Rattle.gltf_base.specs.Semantics.{semantic_key};
ghost use Rattle.gltf_schema.specs.Fields.{entry_of};

use gltf_base::Index;
use gltf_base::laws::{orders_agree_with_equality, semantics_are_ordered_as_keys};
use gltf_base::mesh::Semantic;
use gltf_base::validation::Checked;
use gltf_parts::accessor::Accessor;
use std::collections::BTreeMap;

/// The number of the accessor of an attribute (glTF 2.0, section 3.7.2.1).
pub fn accessor_of(
    attributes: &BTreeMap<Checked<Semantic>, Index<Accessor>>,
    semantic: Semantic,
) -> Option<u32>
    ensures { result ≡ lookup (key_eq (semantic_key semantic))
        (map entry_of attributes.now.entries) }
{
    semantics_are_ordered_as_keys();
    orders_agree_with_equality::<Checked<Semantic>>();
    match attributes.get(&Checked::Valid(semantic)) {
        Some(index) => Some(index.number()),
        None => None,
    }
}
