//! The attributes of a primitive (glTF 2.0, section 3.7.2.1).

ghost use Rattle.std.specs.Prelude.{◌≡◌, ◌++◌, length, OnOk, Option, slice_get};
ghost use Rattle.gltf_base.specs.Indexes.{index_number};
ghost use Rattle.gltf_base.specs.Semantics.{checked_key};
ghost use Rattle.gltf_layout.specs.Sizes.{element_size};
ghost use Rattle.gltf_findings_codes.specs.Attributes.{attributes_in};
ghost use Rattle.gltf_findings_rules.specs.Attributes.{attribute_findings, attribute_rules, attribute_place, attribute_format, vector_format, has_other_format, is_unsigned_extra, lacks_bounds, is_unknown, is_position, is_extra, is_unaligned, is_unaligned_in, is_packed_unaligned};

use crate::counts::{count_at, differ};
use gltf_base::Index;
use gltf_base::accessor::ComponentType;
use gltf_base::mesh::Semantic;
use gltf_base::validation::Checked;
use gltf_findings_codes::{
    AllowedFormat, Attribute, Code, Finding, Name, Object, Subject, add_found, broken, has_bounds,
    is_unresolved, offset_number,
};
use gltf_layout::element_size;
use gltf_parts::accessor::Accessor;
use gltf_parts::buffer::View;
use std::alloc::AllocError;
use std::collections::BTreeMap;

/// The rules for the attributes of a primitive.
#[derive(Clone, Copy)]
pub struct AttributeRules<'a> {
    /// The number of the mesh.
    pub mesh: usize,
    /// The number of the primitive.
    pub primitive: usize,
    /// How many vertices there are, if it is known.
    pub vertices: Option<u64>,
    /// Whether the document uses `KHR_mesh_quantization`.
    pub is_quantized: bool,
    /// The buffer views of the document.
    pub views: &'a [View],
    /// The accessors of the document.
    pub accessors: &'a [Accessor],
}

impl AttributeRules<'_> {
    /// Adds the findings of each attribute, in the order of their meanings. Fails only if out of
    /// memory.
    pub fn add_all(
        &self,
        to: &mut Vec<Finding>,
        attributes: &BTreeMap<Checked<Semantic>, Index<Accessor>>,
    ) -> Result<(), AllocError>
        ensures { OnOk result (to.new.items ≡ to.old.items ++ attribute_findings
            self.now.is_quantized self.now.vertices self.now.views.now self.now.accessors.now
            self.now.mesh self.now.primitive (attributes_in attributes.now)) }
    {
        for (semantic, index) in attributes {
            add_found(to, &self.rules(semantic, *index))?;
        }
        Ok(())
    }

    /// The rules for one attribute.
    fn rules(&self, semantic: &Checked<Semantic>, index: Index<Accessor>) -> [Option<Finding>; 7]
        ensures { result ≡ attribute_rules self.now.is_quantized self.now.vertices
            self.now.views.now self.now.accessors.now self.now.mesh self.now.primitive
            (checked_key semantic.now) (index_number index) }
    {
        let at = attribute_place(self.mesh, self.primitive, semantic);
        [
            broken(
                is_unresolved(index, self.accessors.len()),
                Code::UnresolvedReference,
                at,
            ),
            broken(
                is_unknown(semantic),
                Code::MeshPrimitiveInvalidAttribute,
                at,
            ),
            broken(
                self.has_other_format(semantic, index),
                Code::MeshPrimitiveAttributesAccessorInvalidFormat,
                at,
            ),
            broken(
                is_extra(semantic) && self.is_unsigned_int(index),
                Code::MeshPrimitiveAttributesAccessorUnsignedInt,
                at,
            ),
            broken(
                is_position(semantic) && self.lacks_bounds(index),
                Code::MeshPrimitivePositionAccessorWithoutBounds,
                at,
            ),
            broken(
                differ(
                    self.vertices,
                    count_at(self.accessors, Some(index.number())),
                ),
                Code::MeshPrimitiveUnequalAccessorCount,
                at,
            ),
            broken(
                self.is_unaligned(index),
                Code::MeshPrimitiveAccessorUnaligned,
                at,
            ),
        ]
    }

    /// Whether the accessor of an attribute has a format that the meaning excludes.
    fn has_other_format(&self, semantic: &Checked<Semantic>, index: Index<Accessor>) -> bool
        ensures { result ≡ has_other_format (attribute_format self.now.is_quantized
            (checked_key semantic.now)) (slice_get self.now.accessors.now (index_number index)) }
    {
        // derived
        match (
            attribute_format(self.is_quantized, semantic),
            self.accessors.get(index.value()),
        ) {
            (Some(allowed_format), Some(accessor)) => allowed_format.excludes(accessor),
            _ => false,
        }
    }

    /// Whether an accessor has components of the type UNSIGNED_INT.
    fn is_unsigned_int(&self, index: Index<Accessor>) -> bool
        ensures { result ≡ is_unsigned_extra
            (slice_get self.now.accessors.now (index_number index)) }
    {
        match self.accessors.get(index.value()) {
            Some(accessor) => match accessor.component_type {
                Checked::Valid(component) => matches!(component.0, ComponentType::U32),
                Checked::Invalid => false,
            },
            None => false,
        }
    }

    /// Whether an accessor lacks a bound.
    fn lacks_bounds(&self, index: Index<Accessor>) -> bool
        ensures { result ≡ lacks_bounds
            (slice_get self.now.accessors.now (index_number index)) }
    {
        // derived
        match self.accessors.get(index.value()) {
            Some(accessor) => !has_bounds(accessor),
            None => false,
        }
    }

    /// Whether the elements of an accessor are not aligned to 4 bytes in its view.
    fn is_unaligned(&self, index: Index<Accessor>) -> bool
        ensures { result ≡ is_unaligned self.now.views.now
            (slice_get self.now.accessors.now (index_number index)) }
    {
        // derived
        match self.accessors.get(index.value()) {
            Some(accessor) => match accessor.buffer_view {
                Some(buffer_view) => match self.views.get(buffer_view.value()) {
                    Some(view) => is_unaligned_in(accessor, view),
                    None => false,
                },
                None => false,
            },
            None => false,
        }
    }
}

/// Whether the elements of an accessor are not aligned to 4 bytes in a view.
fn is_unaligned_in(accessor: &Accessor, view: &View) -> bool
    ensures { result ≡ is_unaligned_in accessor.now view.now }
{
    // derived
    offset_number(accessor.byte_offset) % 4 != 0
        || (view.byte_stride.is_none() && is_packed_unaligned(accessor))
}

/// Whether elements that are packed tightly are not aligned to 4 bytes.
fn is_packed_unaligned(accessor: &Accessor) -> bool
    ensures { result ≡ is_packed_unaligned accessor.now.count.0 accessor.now.type_
        accessor.now.component_type }
{
    // derived
    match (accessor.type_, accessor.component_type) {
        (Checked::Valid(type_), Checked::Valid(component_type)) => {
            1 < accessor.count.0 && element_size(type_, component_type.0) % 4 != 0
        }
        _ => false,
    }
}

/// The place of an attribute, or of all of them if it has no name in the specification.
fn attribute_place(mesh: usize, primitive: usize, semantic: &Checked<Semantic>) -> Subject
    ensures { result ≡ attribute_place mesh primitive (checked_key semantic.now) }
{
    // derived
    let at = Object::NestedPart(
        Name::Meshes,
        mesh,
        Name::Primitives,
        primitive,
        Name::Attributes,
    );
    match semantic {
        Checked::Valid(Semantic::Positions) => Subject::Attribute(at, Attribute::Positions),
        Checked::Valid(Semantic::Normals) => Subject::Attribute(at, Attribute::Normals),
        Checked::Valid(Semantic::Tangents) => Subject::Attribute(at, Attribute::Tangents),
        Checked::Valid(Semantic::Colors(set)) => Subject::Attribute(at, Attribute::Colors(*set)),
        Checked::Valid(Semantic::TexCoords(set)) => {
            Subject::Attribute(at, Attribute::TexCoords(*set))
        }
        Checked::Valid(Semantic::Joints(set)) => Subject::Attribute(at, Attribute::Joints(*set)),
        Checked::Valid(Semantic::Weights(set)) => Subject::Attribute(at, Attribute::Weights(*set)),
        _ => Subject::Object(at),
    }
}

/// The format of positions, normals and what is added to them.
pub fn vector_format(is_quantized: bool) -> AllowedFormat
    ensures { result ≡ vector_format is_quantized }
{
    // derived
    if is_quantized {
        AllowedFormat::QuantizedVectors
    } else {
        AllowedFormat::Vectors
    }
}

/// The format of an attribute that the specification defines.
fn attribute_format(is_quantized: bool, semantic: &Checked<Semantic>) -> Option<AllowedFormat>
    ensures { result ≡ attribute_format is_quantized (checked_key semantic.now) }
{
    // derived
    match semantic {
        Checked::Valid(Semantic::Positions | Semantic::Normals) => {
            Some(vector_format(is_quantized))
        }
        Checked::Valid(Semantic::Tangents) => Some(if is_quantized {
            AllowedFormat::QuantizedTangents
        } else {
            AllowedFormat::Tangents
        }),
        Checked::Valid(Semantic::TexCoords(_)) => Some(if is_quantized {
            AllowedFormat::QuantizedTexCoords
        } else {
            AllowedFormat::TexCoords
        }),
        Checked::Valid(Semantic::Colors(_)) => Some(AllowedFormat::Colors),
        Checked::Valid(Semantic::Joints(_)) => Some(AllowedFormat::Joints),
        Checked::Valid(Semantic::Weights(_)) => Some(AllowedFormat::JointWeights),
        _ => None,
    }
}

/// Whether a name has no meaning.
fn is_unknown(semantic: &Checked<Semantic>) -> bool
    ensures { result ≡ is_unknown (checked_key semantic.now) }
{
    // derived
    match semantic {
        Checked::Invalid => true,
        _ => false,
    }
}

/// Whether an attribute is that of positions.
fn is_position(semantic: &Checked<Semantic>) -> bool
    ensures { result ≡ is_position (checked_key semantic.now) }
{
    // derived
    match semantic {
        Checked::Valid(Semantic::Positions) => true,
        _ => false,
    }
}

/// Whether an attribute is one of an application.
fn is_extra(semantic: &Checked<Semantic>) -> bool
    ensures { result ≡ is_extra (checked_key semantic.now) }
{
    // derived
    match semantic {
        Checked::Valid(Semantic::Extras(_)) => true,
        _ => false,
    }
}
