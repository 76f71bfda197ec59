//! Attributes that the specification defines.

ghost use Rattle.std.specs.Prelude.{◌≡◌, IfOk, map};
ghost use Rattle.std.specs.Map.{lookup};
ghost use Rattle.std.specs.String.{string_bytes};
ghost use Rattle.gltf_base.specs.Keys.{key_text, key_eq};
ghost use Rattle.gltf_base.specs.Semantics.{semantic_key, checked_key};
ghost use Rattle.gltf_schema.specs.Fields.{entry_of};
ghost use Rattle.gltf_findings_codes.specs.Attributes.{attribute_key, attributes_in};

use gltf_base::IndexTo;
use gltf_base::mesh::Semantic;
use gltf_base::validation::Checked;
use std::alloc::{AllocError, Global};
use std::collections::BTreeMap;

/// An attribute that the specification defines (glTF 2.0, section 3.7.2.1), by its set if there can
/// be several.
#[derive(Clone, Copy, Debug, PartialEq, Eq)]
pub enum Attribute {
    /// `POSITION`.
    Positions,
    /// `NORMAL`.
    Normals,
    /// `TANGENT`.
    Tangents,
    /// `COLOR_n`.
    Colors(u32),
    /// `TEXCOORD_n`.
    TexCoords(u32),
    /// `JOINTS_n`.
    Joints(u32),
    /// `WEIGHTS_n`.
    Weights(u32),
}

impl Attribute {
    /// Returns the name of the attribute, such as `TEXCOORD_0`. Fails only if out of memory.
    pub fn text(&self, alloc: Global) -> Result<String, AllocError>
        ensures { IfOk result (λ text. string_bytes text ≡ key_text (attribute_key self.now)) }
    {
        let semantic = self.semantic();
        semantic.to_string(alloc)
    }

    /// The semantic of the attribute.
    fn semantic(&self) -> Semantic
        ensures { semantic_key result ≡ attribute_key self.now }
    {
        match self {
            Attribute::Positions => Semantic::Positions,
            Attribute::Normals => Semantic::Normals,
            Attribute::Tangents => Semantic::Tangents,
            Attribute::Colors(set) => Semantic::Colors(*set),
            Attribute::TexCoords(set) => Semantic::TexCoords(*set),
            Attribute::Joints(set) => Semantic::Joints(*set),
            Attribute::Weights(set) => Semantic::Weights(*set),
        }
    }

    /// Whether a key means the attribute.
    pub fn is_meant_by(&self, semantic: &Checked<Semantic>) -> bool
        ensures { result ≡ key_eq (attribute_key self.now) (checked_key semantic.now) }
    {
        match self {
            Attribute::Positions => matches!(semantic, Checked::Valid(Semantic::Positions)),
            Attribute::Normals => matches!(semantic, Checked::Valid(Semantic::Normals)),
            Attribute::Tangents => matches!(semantic, Checked::Valid(Semantic::Tangents)),
            Attribute::Colors(set) => match semantic {
                Checked::Valid(Semantic::Colors(found)) => *set == *found,
                _ => false,
            },
            Attribute::TexCoords(set) => match semantic {
                Checked::Valid(Semantic::TexCoords(found)) => *set == *found,
                _ => false,
            },
            Attribute::Joints(set) => match semantic {
                Checked::Valid(Semantic::Joints(found)) => *set == *found,
                _ => false,
            },
            Attribute::Weights(set) => match semantic {
                Checked::Valid(Semantic::Weights(found)) => *set == *found,
                _ => false,
            },
        }
    }

    /// The number of the accessor of the attribute, if a primitive has it.
    pub fn accessor_in<P>(
        &self,
        attributes: &BTreeMap<Checked<Semantic>, IndexTo<P>>,
    ) -> Option<u32>
        ensures { result ≡ lookup (key_eq (attribute_key self.now)) (attributes_in attributes.now) }
    {
        for (semantic, index) in attributes {
            if self.is_meant_by(semantic) {
                return Some(index.number());
            }
        }
        None
    }
}
