//! Meshes and their primitives (glTF 2.0, sections 3.7.2, 5.23 and 5.24).

ghost use Rattle.std.specs.Prelude.{◌≡◌, ◌++◌, length, Option, OnOk, IfOk};
ghost use Rattle.gltf_findings_codes.specs.Attributes.{attributes_in};
ghost use Rattle.gltf_findings_codes.specs.Found.{found, findings_from, findings_if};
ghost use Rattle.gltf_findings_rules.specs.Meshes.{mesh_findings, mesh_rules, primitive_rules, primitive_findings, named_findings, targets_findings, target_count, targets_of_mesh, joints_of_mesh, is_skinned, has_other_weights};

use crate::attributes::AttributeRules;
use crate::counts::count_at;
use crate::drawing::drawing_rules;
use crate::sets::{Kind, set_rules};
use crate::targets::TargetRules;
use crate::variants::MappingRules;
use gltf_findings_codes::{
    AllowedFormat, Attribute, Code, Finding, Name, Object, Rules, Subject, add_all, add_found,
    broken, is_accessor_strided, is_empty_list, is_invalid, is_some_unresolved,
};
use gltf_parts::accessor::Accessor;
use gltf_parts::buffer::View;
use gltf_parts::material::Material;
use gltf_scene::mesh::{Mesh, Primitive};
use std::alloc::{AllocError, Global};

/// The rules for meshes, which name accessors and materials.
#[derive(Clone, Copy)]
pub struct MeshRules<'a> {
    /// The buffer views of the document.
    pub views: &'a [View],
    /// The accessors of the document.
    pub accessors: &'a [Accessor],
    /// The materials of the document.
    pub materials: &'a [Material],
    /// Whether the document uses `KHR_mesh_quantization`.
    pub is_quantized: bool,
    /// How many variants the document has.
    pub variants: usize,
}

impl Rules<Mesh> for MeshRules<'_> {
    ghost findings = { λ s n mesh. mesh_findings s.is_quantized s.variants s.views.now
        s.accessors.now s.materials.now n mesh };

    #[tactic(auto, using(std::proofs::lemmas::List::append_assoc))]
    fn add(&self, number: usize, item: &Mesh, to: &mut Vec<Finding>) -> Result<(), AllocError> {
        add_found(to, &mesh_rules(number, item))?;
        let primitives = PrimitiveRules {
            mesh: number,
            targets: targets_of_mesh(&item.primitives),
            joints: joints_of_mesh(*to.allocator(), &item.primitives)?,
            views: self.views,
            accessors: self.accessors,
            materials: self.materials,
            is_quantized: self.is_quantized,
            variants: self.variants,
        };
        add_all(to, &primitives, &item.primitives)
    }
}

/// The rules for a mesh by itself.
fn mesh_rules(number: usize, mesh: &Mesh) -> [Option<Finding>; 2]
    ensures { result ≡ mesh_rules number mesh.now }
{
    // derived
    let at = Subject::Member(Object::Item(Name::Meshes, number), Name::Weights);
    [
        broken(is_empty_list(&mesh.weights), Code::EmptyEntity, at),
        broken(has_other_weights(mesh), Code::MeshInvalidWeightsCount, at),
    ]
}

/// Whether a mesh has weights, and not as many as its first primitive has morph targets.
fn has_other_weights(mesh: &Mesh) -> bool
    ensures { result ≡ has_other_weights mesh.now }
{
    // derived
    match &mesh.weights {
        Some(weights) => weights.len() != 0 && weights.len() != targets_of_mesh(&mesh.primitives),
        None => false,
    }
}

/// How many morph targets a primitive has.
fn target_count(primitive: &Primitive) -> usize
    ensures { result ≡ target_count primitive.now }
{
    // derived
    match &primitive.targets {
        Some(targets) => targets.len(),
        None => 0,
    }
}

/// How many morph targets the first primitive has.
pub fn targets_of_mesh(primitives: &[Primitive]) -> usize
    ensures { result ≡ targets_of_mesh primitives.now }
{
    // derived
    match primitives.get(0) {
        Some(primitive) => target_count(primitive),
        None => 0,
    }
}

/// How many sets of joints the first primitive has.
fn joints_of_mesh(alloc: Global, primitives: &[Primitive]) -> Result<usize, AllocError>
    ensures { IfOk result (λ joints. joints ≡ joints_of_mesh primitives.now) }
{
    match primitives.get(0) {
        Some(primitive) => Ok(Kind::Joints.sets_of(alloc, &primitive.attributes)?.len()),
        None => Ok(0),
    }
}

/// Whether each primitive has joints.
pub fn is_skinned(primitives: &[Primitive]) -> bool
    ensures { result ≡ is_skinned primitives.now }
{
    for primitive in primitives {
        if Attribute::Joints(0)
            .accessor_in(&primitive.attributes)
            .is_none()
        {
            return false;
        }
    }
    true
}

/// The rules for the primitives of a mesh.
#[derive(Clone, Copy)]
struct PrimitiveRules<'a> {
    mesh: usize,
    targets: usize,
    joints: usize,
    views: &'a [View],
    accessors: &'a [Accessor],
    materials: &'a [Material],
    is_quantized: bool,
    variants: usize,
}

impl Rules<Primitive> for PrimitiveRules<'_> {
    ghost findings = { λ s k primitive. primitive_findings s.is_quantized s.variants s.targets s.joints
        s.views.now s.accessors.now s.materials.now s.mesh k primitive };

    #[tactic(auto, using(std::proofs::lemmas::List::append_assoc))]
    fn add(
        &self,
        number: usize,
        item: &Primitive,
        to: &mut Vec<Finding>,
    ) -> Result<(), AllocError> {
        let at = Object::Nested(Name::Meshes, self.mesh, Name::Primitives, number);
        let sets = set_rules(*to.allocator(), at, self.joints, &item.attributes)?;
        let drawing = drawing_rules(self.accessors, self.materials, self.mesh, number, item);
        add_found(to, &primitive_rules(self, number, item))?;
        add_found(to, &sets)?;
        add_found(to, &drawing)?;
        self.add_attributes(to, number, item)?;
        self.add_targets(to, number, item)?;
        let mappings = MappingRules {
            materials: self.materials.len(),
            variants: self.variants,
            mesh: self.mesh,
            primitive: number,
        };
        mappings.add_all(to, &item.extensions)
    }
}

impl PrimitiveRules<'_> {
    /// Adds the findings of the attributes of a primitive.
    fn add_attributes(
        &self,
        to: &mut Vec<Finding>,
        number: usize,
        primitive: &Primitive,
    ) -> Result<(), AllocError>
        ensures { OnOk result (to.new.items ≡ to.old.items ++ named_findings
            self.now.is_quantized self.now.views.now self.now.accessors.now self.now.mesh number
            (attributes_in primitive.now.attributes)) }
    {
        let positions = Attribute::Positions.accessor_in(&primitive.attributes);
        let rules = AttributeRules {
            mesh: self.mesh,
            primitive: number,
            vertices: count_at(self.accessors, positions),
            is_quantized: self.is_quantized,
            views: self.views,
            accessors: self.accessors,
        };
        rules.add_all(to, &primitive.attributes)
    }

    /// Adds the findings of the morph targets of a primitive.
    fn add_targets(
        &self,
        to: &mut Vec<Finding>,
        number: usize,
        primitive: &Primitive,
    ) -> Result<(), AllocError>
        ensures { OnOk result (to.new.items ≡ to.old.items ++ targets_findings
            self.now.is_quantized self.now.accessors.now self.now.mesh number
            (attributes_in primitive.now.attributes) primitive.now.targets) }
    {
        match &primitive.targets {
            Some(targets) => {
                let rules = TargetRules {
                    mesh: self.mesh,
                    primitive: number,
                    is_quantized: self.is_quantized,
                    accessors: self.accessors,
                    positions: Attribute::Positions.accessor_in(&primitive.attributes),
                    normals: Attribute::Normals.accessor_in(&primitive.attributes),
                    tangents: Attribute::Tangents.accessor_in(&primitive.attributes),
                };
                add_all(to, &rules, targets)
            }
            None => Ok(()),
        }
    }
}

/// The rules for one primitive.
fn primitive_rules(
    lists: &PrimitiveRules<'_>,
    number: usize,
    primitive: &Primitive,
) -> [Option<Finding>; 7]
    ensures { result ≡ primitive_rules lists.now.targets lists.now.views.now
        lists.now.accessors.now (length lists.now.materials.now) lists.now.mesh number
        primitive.now }
{
    // derived
    let at = Object::Nested(Name::Meshes, lists.mesh, Name::Primitives, number);
    let indices_at = Subject::Member(at, Name::Indices);
    let targets_at = Subject::Member(at, Name::Targets);
    [
        broken(
            is_invalid(&primitive.mode),
            Code::ValueNotInList,
            Subject::Member(at, Name::Mode),
        ),
        broken(
            is_some_unresolved(primitive.material, lists.materials.len()),
            Code::UnresolvedReference,
            Subject::Member(at, Name::Material),
        ),
        broken(
            is_some_unresolved(primitive.indices, lists.accessors.len()),
            Code::UnresolvedReference,
            indices_at,
        ),
        broken(
            AllowedFormat::Indices.excludes_named(lists.accessors, primitive.indices),
            Code::MeshPrimitiveIndicesAccessorInvalidFormat,
            indices_at,
        ),
        broken(
            is_accessor_strided(lists.views, lists.accessors, primitive.indices),
            Code::MeshPrimitiveIndicesAccessorWithBytestride,
            indices_at,
        ),
        broken(
            is_empty_list(&primitive.targets),
            Code::EmptyEntity,
            targets_at,
        ),
        broken(
            target_count(primitive) != lists.targets,
            Code::MeshPrimitivesUnequalTargetsCount,
            targets_at,
        ),
    ]
}
