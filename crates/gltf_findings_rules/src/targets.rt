//! Morph targets (glTF 2.0, section 3.7.2.2).

ghost use Rattle.std.specs.Prelude.{◌≡◌, ◌++◌, OnOk, Option, option_map, is_some, is_none};
ghost use Rattle.gltf_base.specs.Indexes.{index_number};
ghost use Rattle.gltf_findings_codes.specs.Found.{found};
ghost use Rattle.gltf_findings_rules.specs.Targets.{target_rules, target_findings};

use crate::attributes::vector_format;
use crate::counts::{count_at, differ, number_of};
use gltf_base::Index;
use gltf_findings_codes::{
    Attribute, Code, Finding, Name, Object, Rules, Subject, add_found, broken, is_some_unresolved,
};
use gltf_parts::accessor::Accessor;
use gltf_scene::mesh::MorphTarget;
use std::alloc::AllocError;

/// The rules for the morph targets of a primitive.
#[derive(Clone, Copy)]
pub struct TargetRules<'a> {
    /// The number of the mesh.
    pub mesh: usize,
    /// The number of the primitive.
    pub primitive: usize,
    /// Whether the document uses `KHR_mesh_quantization`.
    pub is_quantized: bool,
    /// The accessors of the document.
    pub accessors: &'a [Accessor],
    /// The number of the accessor of `POSITION`.
    pub positions: Option<u32>,
    /// The number of the accessor of `NORMAL`.
    pub normals: Option<u32>,
    /// The number of the accessor of `TANGENT`.
    pub tangents: Option<u32>,
}

impl Rules<MorphTarget> for TargetRules<'_> {
    ghost findings = { λ s j target. target_findings s.is_quantized s.accessors.now s.mesh
        s.primitive s.positions s.normals s.tangents j target };

    #[tactic(auto, using(std::proofs::lemmas::List::append_assoc))]
    fn add(
        &self,
        number: usize,
        item: &MorphTarget,
        to: &mut Vec<Finding>,
    ) -> Result<(), AllocError> {
        let positions = self.rules(number, Attribute::Positions, self.positions, item.positions);
        let normals = self.rules(number, Attribute::Normals, self.normals, item.normals);
        let tangents = self.rules(number, Attribute::Tangents, self.tangents, item.tangents);
        add_found(to, &positions)?;
        add_found(to, &normals)?;
        add_found(to, &tangents)
    }
}

impl TargetRules<'_> {
    /// The rules for what a target adds to an attribute, which is at an accessor by itself.
    fn rules(
        &self,
        number: usize,
        attribute: Attribute,
        base: Option<u32>,
        index: Option<Index<Accessor>>,
    ) -> [Option<Finding>; 4]
        ensures { result ≡ target_rules self.now.is_quantized self.now.accessors.now self.now.mesh
            self.now.primitive number attribute base index }
    {
        let primitive = Object::Nested(Name::Meshes, self.mesh, Name::Primitives, self.primitive);
        let at = Subject::EntryAttribute(primitive, Name::Targets, number, attribute);
        [
            broken(
                is_some_unresolved(index, self.accessors.len()),
                Code::UnresolvedReference,
                at,
            ),
            broken(
                vector_format(self.is_quantized).excludes_named(self.accessors, index),
                Code::MeshPrimitiveAttributesAccessorInvalidFormat,
                at,
            ),
            broken(
                index.is_some() && base.is_none(),
                Code::MeshPrimitiveMorphTargetNoBaseAccessor,
                at,
            ),
            broken(
                differ(
                    count_at(self.accessors, base),
                    count_at(self.accessors, number_of(index)),
                ),
                Code::MeshPrimitiveMorphTargetInvalidAttributeCount,
                at,
            ),
        ]
    }
}
