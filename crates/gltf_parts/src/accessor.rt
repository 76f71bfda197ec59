//! Accessors: typed views into buffer views (glTF 2.0, section 5.1).

ghost use Rattle.std.specs.Prelude.{◌≡◌, [], ◌∷◌, false, codes};
ghost use Rattle.gltf_base.specs.Lists.{accessors};
ghost use Rattle.gltf_base.specs.Choices.{component_type_spelling, accessor_type_spelling};
ghost use Rattle.gltf_schema.specs.Tree.{whole, chosen};
ghost use Rattle.gltf_schema.specs.WithDefaults.{with_defaults};
ghost use Rattle.gltf_parts.specs.Accessor.{accessor_rows, accessor_members};

use crate::buffer::View;
use crate::extensions;
use crate::extras::Extras;
pub use gltf_base::accessor::{
    AccessorType, BYTE, ComponentType, FLOAT, GenericComponentType, IndexComponentType, SHORT,
    Type, UNSIGNED_BYTE, UNSIGNED_INT, UNSIGNED_SHORT, VALID_ACCESSOR_TYPES, VALID_COMPONENT_TYPES,
    VALID_INDEX_TYPES,
};
use gltf_base::validation::{Checked, USize64};
use gltf_base::{Index, Listed};
use serde_json::Value;

mod derived;
pub mod sparse;

/// A typed view into a buffer view (glTF 2.0, section 5.1).
// What takes longest to drop comes last (docs/DECISIONS.md, "Order of fields").
#[derive(Clone, Debug)]
pub struct Accessor {
    /// The buffer view with the elements; if absent, they are zeros or come from `sparse`.
    pub buffer_view: Option<Index<View>>,
    /// The offset into the buffer view, in bytes.
    pub byte_offset: Option<USize64>,
    /// The number of elements.
    pub count: USize64,
    /// The data type of the components.
    pub component_type: Checked<GenericComponentType>,
    /// Whether elements are scalars, vectors or matrices.
    pub type_: Checked<AccessorType>,
    /// Whether integer components are normalized.
    pub normalized: bool,
    pub name: Option<String>,
    pub extensions: Option<extensions::accessor::Accessor>,
    pub extras: Extras,
    /// The minimum of each component.
    pub min: Option<Value>,
    /// The maximum of each component.
    pub max: Option<Value>,
    /// Sparse storage of elements that replace those of the buffer view.
    pub sparse: Option<sparse::Sparse>,
}

// Written by tools/derive.py: begin
impl Drop for Accessor {
    #[inline(always)]
    fn drop(self) {
        let Accessor {
            buffer_view: _,
            byte_offset: _,
            count: _,
            component_type: _,
            type_: _,
            normalized: _,
            name: _,
            extensions: _,
            extras: _,
            min: _,
            max: _,
            sparse: _,
        } = self;
    }
}
// Written by tools/derive.py: end

impl Accessor {
    /// Returns an accessor of `count` elements of the given type, without data. It is reported
    /// until `buffer_view` or `sparse` is set.
    #[tactic(auto, unfolding(crate::specs::Accessor::accessor_rows, crate::specs::Accessor::accessor_members))]
    pub fn new(count: u64, component_type: ComponentType, type_: AccessorType) -> Accessor
        ensures { accessor_members result ≡ with_defaults accessor_rows (
            (codes "count", whole count)
            ∷ (codes "componentType", chosen (component_type_spelling component_type))
            ∷ (codes "type", chosen (accessor_type_spelling type_))
            ∷ []) }
    {
        Accessor {
            count: USize64(count),
            component_type: Checked::Valid(GenericComponentType(component_type)),
            type_: Checked::Valid(type_),
            normalized: false,
            buffer_view: None,
            byte_offset: None,
            min: None,
            max: None,
            name: None,
            sparse: None,
            extensions: None,
            extras: None,
        }
    }
}

impl Listed for Accessor {
    ghost list = { accessors };
}
