//! The choices of accessors.

ghost use Rattle.std.specs.Prelude.{◌≡◌, map};
ghost use Rattle.gltf_base.specs.Spelling.{by_number, by_name};
ghost use Rattle.gltf_base.specs.Choices.{generic_component_type_spelling, generic_component_types, index_component_type_spelling, index_component_types, accessor_type_spelling, accessor_types};
ghost use Rattle.gltf_base.specs.Elements.{component_size, component_count};

mod derived;

pub use AccessorType as Type;
pub use derived::{
    BYTE, FLOAT, SHORT, UNSIGNED_BYTE, UNSIGNED_INT, UNSIGNED_SHORT, VALID_ACCESSOR_TYPES,
    VALID_COMPONENT_TYPES, VALID_INDEX_TYPES,
};

/// The data type of a component (glTF 2.0, section 5.1.3).
#[derive(Clone, Copy, Debug, PartialEq, Eq)]
pub enum ComponentType {
    /// A signed integer of 8 bits.
    I8 = 1,
    /// An unsigned integer of 8 bits.
    U8,
    /// A signed integer of 16 bits.
    I16,
    /// An unsigned integer of 16 bits.
    U16,
    /// An unsigned integer of 32 bits.
    U32,
    /// A floating-point number of 32 bits.
    F32,
}

impl ComponentType {
    /// Returns the size of a component in bytes.
    pub fn size(&self) -> usize
        ensures { result ≡ component_size self.now }
    {
        match self {
            ComponentType::I8 | ComponentType::U8 => 1,
            ComponentType::I16 | ComponentType::U16 => 2,
            ComponentType::U32 | ComponentType::F32 => 4,
        }
    }
}

/// A component type of an accessor.
#[derive(Clone, Copy, Debug)]
pub struct GenericComponentType(pub ComponentType);

/// A component type of indices. It may hold any of the six; three of them are read.
#[derive(Clone, Copy, Debug)]
pub struct IndexComponentType(pub ComponentType);

/// Whether elements are scalars, vectors or matrices (glTF 2.0, section 5.1.6).
#[derive(Clone, Copy, Debug, PartialEq, Eq)]
pub enum AccessorType {
    /// A scalar.
    Scalar = 1,
    /// A vector of 2 components.
    Vec2,
    /// A vector of 3 components.
    Vec3,
    /// A vector of 4 components.
    Vec4,
    /// A 2x2 matrix, in column-major order.
    Mat2,
    /// A 3x3 matrix, in column-major order.
    Mat3,
    /// A 4x4 matrix, in column-major order.
    Mat4,
}

impl AccessorType {
    /// Returns the number of components of an element.
    pub fn multiplicity(&self) -> usize
        ensures { result ≡ component_count self.now }
    {
        match self {
            AccessorType::Scalar => 1,
            AccessorType::Vec2 => 2,
            AccessorType::Vec3 => 3,
            AccessorType::Vec4 | AccessorType::Mat2 => 4,
            AccessorType::Mat3 => 9,
            AccessorType::Mat4 => 16,
        }
    }
}

/// The constants of this module are those that the specification lists.
pub fn constants_are_listed()
    ensures numbers { (BYTE ≡ 5120) × (UNSIGNED_BYTE ≡ 5121) × (SHORT ≡ 5122)
        × (UNSIGNED_SHORT ≡ 5123) × (UNSIGNED_INT ≡ 5125) × (FLOAT ≡ 5126) }
    ensures component_types { map by_number VALID_COMPONENT_TYPES.now
        ≡ map generic_component_type_spelling generic_component_types }
    ensures index_types { map by_number VALID_INDEX_TYPES.now
        ≡ map index_component_type_spelling index_component_types }
    ensures types { map (λ name. by_name name.now) VALID_ACCESSOR_TYPES.now
        ≡ map accessor_type_spelling accessor_types }
{}
