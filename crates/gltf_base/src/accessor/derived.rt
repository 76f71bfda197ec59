//! Written by tools/derive.py from crates/gltf_base/src/accessor.rt,
//! crates/gltf_base/specs/Choices.antt and crates/gltf_base/specs/GlNames.antt. Do not edit.

ghost use Rattle.gltf_base.specs.Choices.{accessor_type_spelling, accessor_types, component_type_spelling, generic_component_type_spelling, generic_component_types, index_component_type_spelling, index_component_types};
ghost use Rattle.gltf_base.specs.GlNames.{component_type_name};
ghost use Rattle.gltf_base.specs.Spelling.{by_name, by_number, item_spelled, spelling_text};
ghost use Rattle.gltf_base.specs.declared.choice.Form.TheVariants.{Name, Number};
ghost use Rattle.std.specs.Prelude.{Some, refl, ◌≡◌};

use super::{AccessorType, ComponentType, GenericComponentType, IndexComponentType};
use crate::choice::{Choice, Form, Spelling, item_of};
use crate::validation::Checked;
use std::fmt::{self, Display, Formatter, Write};

/// `GL_BYTE`.
pub const BYTE: u32 = 5120;

/// `GL_UNSIGNED_BYTE`.
pub const UNSIGNED_BYTE: u32 = 5121;

/// `GL_SHORT`.
pub const SHORT: u32 = 5122;

/// `GL_UNSIGNED_SHORT`.
pub const UNSIGNED_SHORT: u32 = 5123;

/// `GL_UNSIGNED_INT`.
pub const UNSIGNED_INT: u32 = 5125;

/// `GL_FLOAT`.
pub const FLOAT: u32 = 5126;

/// The numbers of the component types.
pub const VALID_COMPONENT_TYPES: &[u32] = &[
    BYTE,
    UNSIGNED_BYTE,
    SHORT,
    UNSIGNED_SHORT,
    UNSIGNED_INT,
    FLOAT,
];

/// The numbers of the component types of indices.
pub const VALID_INDEX_TYPES: &[u32] = &[UNSIGNED_BYTE, UNSIGNED_SHORT, UNSIGNED_INT];

/// The names of the accessor types.
pub const VALID_ACCESSOR_TYPES: &[&str] = &[
    "SCALAR", "VEC2", "VEC3", "VEC4", "MAT2", "MAT3", "MAT4",
];

impl Display for ComponentType {
    ghost output = { λ item. Some (spelling_text (component_type_spelling item)) };

    fn fmt<W: Write>(&self, f: &mut Formatter<W>) -> fmt::Result {
        Display::fmt(&self.as_gl_enum(), f)
    }
}

impl ComponentType {
    /// Returns the number that stands for the type in a document.
    pub fn as_gl_enum(self) -> u32
        ensures { by_number result ≡ component_type_spelling self }
    {
        match self {
            ComponentType::I8 => BYTE,
            ComponentType::U8 => UNSIGNED_BYTE,
            ComponentType::I16 => SHORT,
            ComponentType::U16 => UNSIGNED_SHORT,
            ComponentType::U32 => UNSIGNED_INT,
            ComponentType::F32 => FLOAT,
        }
    }

    /// The name that the specification gives to the number that spells it, as `FLOAT`.
    pub fn name(self) -> &'static str
        ensures { result.now ≡ component_type_name self }
    {
        match self {
            ComponentType::I8 => "BYTE",
            ComponentType::U8 => "UNSIGNED_BYTE",
            ComponentType::I16 => "SHORT",
            ComponentType::U16 => "UNSIGNED_SHORT",
            ComponentType::U32 => "UNSIGNED_INT",
            ComponentType::F32 => "FLOAT",
        }
    }
}

impl Choice for GenericComponentType {
    ghost spelling = { generic_component_type_spelling };

    ghost listed = { generic_component_types };

    ghost form = { Number };

    ghost reads_back = { (refl, (refl, (refl, (refl, (refl, (refl, tt)))))) };

    fn form() -> Form {
        Form::Number
    }

    fn listed() -> &'static [GenericComponentType] {
        &[
            GenericComponentType(ComponentType::I8),
            GenericComponentType(ComponentType::U8),
            GenericComponentType(ComponentType::I16),
            GenericComponentType(ComponentType::U16),
            GenericComponentType(ComponentType::U32),
            GenericComponentType(ComponentType::F32),
        ]
    }

    fn spelling(self) -> Spelling<'static> {
        Spelling::Number(u64::from(self.as_gl_enum()))
    }
}

impl Display for GenericComponentType {
    ghost output = { λ item. Some (spelling_text (generic_component_type_spelling item)) };

    fn fmt<W: Write>(&self, f: &mut Formatter<W>) -> fmt::Result {
        Display::fmt(&self.spelling(), f)
    }
}

impl GenericComponentType {
    /// Returns the component type with this number, or `Invalid` if there is none.
    pub fn from_gl_enum(number: u64) -> Checked<GenericComponentType>
        ensures { result ≡ item_spelled generic_component_type_spelling generic_component_types
            (by_number number) }
    {
        item_of::<GenericComponentType>(Spelling::Number(number))
    }

    /// Returns the number that stands for the type in a document.
    pub fn as_gl_enum(self) -> u32
        ensures { by_number result ≡ generic_component_type_spelling self }
    {
        self.0.as_gl_enum()
    }
}

impl Choice for IndexComponentType {
    ghost spelling = { index_component_type_spelling };

    ghost listed = { index_component_types };

    ghost form = { Number };

    ghost reads_back = { (refl, (refl, (refl, tt))) };

    fn form() -> Form {
        Form::Number
    }

    fn listed() -> &'static [IndexComponentType] {
        &[
            IndexComponentType(ComponentType::U8),
            IndexComponentType(ComponentType::U16),
            IndexComponentType(ComponentType::U32),
        ]
    }

    fn spelling(self) -> Spelling<'static> {
        Spelling::Number(u64::from(self.as_gl_enum()))
    }
}

impl Display for IndexComponentType {
    ghost output = { λ item. Some (spelling_text (index_component_type_spelling item)) };

    fn fmt<W: Write>(&self, f: &mut Formatter<W>) -> fmt::Result {
        Display::fmt(&self.spelling(), f)
    }
}

impl IndexComponentType {
    /// Returns the component type of indices with this number, or `Invalid` if there is none.
    pub fn from_gl_enum(number: u64) -> Checked<IndexComponentType>
        ensures { result ≡ item_spelled index_component_type_spelling index_component_types
            (by_number number) }
    {
        item_of::<IndexComponentType>(Spelling::Number(number))
    }

    /// Returns the number that stands for the type in a document, also of one that isn't read.
    pub fn as_gl_enum(self) -> u32
        ensures { by_number result ≡ index_component_type_spelling self }
    {
        self.0.as_gl_enum()
    }
}

impl Choice for AccessorType {
    ghost spelling = { accessor_type_spelling };

    ghost listed = { accessor_types };

    ghost form = { Name };

    ghost reads_back = { (refl, (refl, (refl, (refl, (refl, (refl, (refl, tt))))))) };

    fn form() -> Form {
        Form::Name
    }

    fn listed() -> &'static [AccessorType] {
        &[
            AccessorType::Scalar,
            AccessorType::Vec2,
            AccessorType::Vec3,
            AccessorType::Vec4,
            AccessorType::Mat2,
            AccessorType::Mat3,
            AccessorType::Mat4,
        ]
    }

    fn spelling(self) -> Spelling<'static> {
        Spelling::Name(self.name())
    }
}

impl Display for AccessorType {
    ghost output = { λ item. Some (spelling_text (accessor_type_spelling item)) };

    fn fmt<W: Write>(&self, f: &mut Formatter<W>) -> fmt::Result {
        Display::fmt(&self.spelling(), f)
    }
}

impl AccessorType {
    /// Returns the type with this name, or `Invalid` if there is none.
    pub fn from_name(name: &str) -> Checked<AccessorType>
        ensures { result ≡ item_spelled accessor_type_spelling accessor_types (by_name name.now) }
    {
        item_of::<AccessorType>(Spelling::Name(name))
    }

    /// Returns the name that stands for the type in a document.
    pub fn name(self) -> &'static str
        ensures { by_name result.now ≡ accessor_type_spelling self }
    {
        match self {
            AccessorType::Scalar => "SCALAR",
            AccessorType::Vec2 => "VEC2",
            AccessorType::Vec3 => "VEC3",
            AccessorType::Vec4 => "VEC4",
            AccessorType::Mat2 => "MAT2",
            AccessorType::Mat3 => "MAT3",
            AccessorType::Mat4 => "MAT4",
        }
    }
}
