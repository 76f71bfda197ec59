//! Sparse storage: elements that replace those of an accessor's buffer view (glTF 2.0, sections 5.2
//! to 5.4).

ghost use Rattle.std.specs.Prelude.{◌≡◌, [], ◌∷◌, codes};
ghost use Rattle.gltf_base.specs.Choices.{component_type_spelling};
ghost use Rattle.gltf_schema.specs.Tree.{whole, chosen};
ghost use Rattle.gltf_schema.specs.WithDefaults.{with_defaults};
ghost use Rattle.gltf_schema.specs.Fields.{index_tree, closed_object};
ghost use Rattle.gltf_parts.specs.Accessor.{sparse_rows, sparse_indices_rows, sparse_values_rows, sparse_members, sparse_indices_members, sparse_values_members};

use crate::buffer::View;
use crate::extensions;
use crate::extras::Extras;
use gltf_base::Index;
use gltf_base::accessor::{ComponentType, IndexComponentType};
use gltf_base::validation::{Checked, USize64};

mod derived;

/// Elements that replace those of the buffer view.
// What takes longest to drop comes last (docs/DECISIONS.md, "Order of fields").
#[derive(Clone, Debug, Drop)]
pub struct Sparse {
    /// The number of replaced elements.
    pub count: USize64,
    pub extensions: Option<extensions::accessor::sparse::Sparse>,
    pub extras: Extras,
    /// The values that replace them.
    pub values: Values,
    /// The indices of the replaced elements.
    pub indices: Indices,
}

impl Sparse {
    /// Returns sparse storage of `count` elements.
    #[tactic(auto, unfolding(crate::specs::Accessor::sparse_rows, crate::specs::Accessor::sparse_members))]
    pub fn new(count: u64, indices: Indices, values: Values) -> Sparse
        ensures { sparse_members result ≡ with_defaults sparse_rows (
            (codes "count", whole count)
            ∷ (codes "indices", closed_object (sparse_indices_members indices))
            ∷ (codes "values", closed_object (sparse_values_members values))
            ∷ []) }
    {
        Sparse {
            count: USize64(count),
            indices,
            values,
            extensions: None,
            extras: None,
        }
    }
}

/// Where the indices of the replaced elements are stored.
#[derive(Clone, Debug, Drop)]
pub struct Indices {
    /// The buffer view that stores them.
    pub buffer_view: Index<View>,
    /// The offset into the buffer view, in bytes.
    pub byte_offset: USize64,
    /// The data type of the indices.
    pub component_type: Checked<IndexComponentType>,
    pub extensions: Option<extensions::accessor::sparse::Indices>,
    pub extras: Extras,
}

impl Indices {
    /// Returns indices at the start of a buffer view. Their type has to be `U8`, `U16` or `U32`:
    /// any other is written as it is, and read back as invalid.
    #[tactic(auto, unfolding(crate::specs::Accessor::sparse_indices_rows, crate::specs::Accessor::sparse_indices_members))]
    pub fn new(buffer_view: Index<View>, component_type: ComponentType) -> Indices
        ensures { sparse_indices_members result ≡ with_defaults sparse_indices_rows (
            (codes "bufferView", index_tree buffer_view)
            ∷ (codes "componentType", chosen (component_type_spelling component_type))
            ∷ []) }
    {
        Indices {
            buffer_view,
            byte_offset: USize64(0),
            component_type: Checked::Valid(IndexComponentType(component_type)),
            extensions: None,
            extras: None,
        }
    }
}

/// Where the replacing elements are stored.
#[derive(Clone, Debug, Drop)]
pub struct Values {
    /// The buffer view that stores them.
    pub buffer_view: Index<View>,
    /// The offset into the buffer view, in bytes.
    pub byte_offset: USize64,
    pub extensions: Option<extensions::accessor::sparse::Values>,
    pub extras: Extras,
}

impl Values {
    /// Returns values at the start of a buffer view.
    #[tactic(auto, unfolding(crate::specs::Accessor::sparse_values_rows, crate::specs::Accessor::sparse_values_members))]
    pub fn new(buffer_view: Index<View>) -> Values
        ensures { sparse_values_members result ≡ with_defaults sparse_values_rows (
            (codes "bufferView", index_tree buffer_view)
            ∷ []) }
    {
        Values {
            buffer_view,
            byte_offset: USize64(0),
            extensions: None,
            extras: None,
        }
    }
}
