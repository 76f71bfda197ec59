//! Nodes by the meshes, skins and parents that they have (glTF 2.0, sections 3.7.3.3 and 5.25).

ghost use Rattle.std.specs.Prelude.{◌≡◌, ◌<◌, ◌++◌, length, replicate, false, Option, option_copied, OnOk, IfOk};
ghost use Rattle.gltf_findings_codes.specs.Found.{found};
ghost use Rattle.gltf_findings_rules.specs.Placed.{placed_findings, skin_rules, content_rules, mesh_of, has_other_weights, is_unskinned, is_skinned_mesh, is_empty, is_identity, is_some_identity, is_identity_at, identity_number, is_non_unit, is_some_oblique, are_oblique, dot, float_at, some_float, child_marks, joint_marks, skinned_marks};

use crate::nodes::has_transforms;
use crate::{is_skinned, targets_of_mesh};
use gltf_base::Real;
use gltf_findings_codes::{
    Code, Finding, Name, Object, Rules, Subject, add_found, broken, is_marked, mark_all,
};
use gltf_scene::mesh::Mesh;
use gltf_scene::scene::{Node, UnitQuaternion};
use gltf_scene::skin::Skin;
use std::alloc::{AllocError, Global};

/// The rules for nodes by what they name and what names them.
#[derive(Clone, Copy)]
pub struct PlacedRules<'a> {
    /// The meshes of the document.
    pub meshes: &'a [Mesh],
    /// Which meshes are skinned, by `skinned_marks`.
    pub skinned: &'a [bool],
    /// Which nodes are children.
    pub children: &'a [bool],
    /// Which nodes are joints.
    pub joints: &'a [bool],
    ghost marked: { skinned.now ≡ skinned_marks meshes.now },
}

impl Rules<Node> for PlacedRules<'_> {
    ghost findings = { λ s n node. placed_findings s.meshes.now s.children.now s.joints.now
        n node };

    #[tactic(auto, using(std::proofs::lemmas::List::append_assoc))]
    fn add(&self, number: usize, item: &Node, to: &mut Vec<Finding>) -> Result<(), AllocError> {
        let is_child = is_marked(self.children, number);
        let is_joint = is_marked(self.joints, number);
        add_found(to, &skin_rules(self, is_child, number, item))?;
        add_found(to, &content_rules(is_joint, number, item))
    }
}

/// The rules for the mesh and the skin of a node, which may be a child.
fn skin_rules(
    lists: &PlacedRules<'_>,
    is_child: bool,
    number: usize,
    node: &Node,
) -> [Option<Finding>; 5]
    ensures { result ≡ skin_rules lists.now.meshes.now is_child number node.now }
{
    // derived
    let at = Object::Item(Name::Nodes, number);
    let has_skin = node.skin.is_some();
    let has_mesh = node.mesh.is_some();
    [
        broken(
            has_other_weights(lists.meshes, node),
            Code::NodeWeightsInvalid,
            Subject::Member(at, Name::Weights),
        ),
        broken(
            has_skin && is_unskinned(lists, node),
            Code::NodeSkinWithNonSkinnedMesh,
            Subject::Member(at, Name::Skin),
        ),
        broken(
            !has_skin && is_skinned_mesh(lists, node),
            Code::NodeSkinnedMeshWithoutSkin,
            Subject::Object(at),
        ),
        broken(
            has_skin && has_mesh && is_child,
            Code::NodeSkinnedMeshNonRoot,
            Subject::Object(at),
        ),
        broken(
            has_skin && has_mesh && (node.matrix.is_some() || has_transforms(node)),
            Code::NodeSkinnedMeshLocalTransforms,
            Subject::Object(at),
        ),
    ]
}

/// The rules for what a node holds, which may be a joint.
fn content_rules(is_joint: bool, number: usize, node: &Node) -> [Option<Finding>; 4]
    ensures { result ≡ content_rules is_joint number node.now }
{
    // derived
    let at = Object::Item(Name::Nodes, number);
    let matrix_at = Subject::Member(at, Name::Matrix);
    [
        broken(
            is_empty(node) && !is_joint,
            Code::NodeEmpty,
            Subject::Object(at),
        ),
        broken(
            is_some_identity(&node.matrix),
            Code::NodeMatrixDefault,
            matrix_at,
        ),
        broken(
            is_some_oblique(&node.matrix),
            Code::NodeMatrixNonTrs,
            matrix_at,
        ),
        broken(
            is_non_unit(&node.rotation),
            Code::RotationNonUnit,
            Subject::Member(at, Name::Rotation),
        ),
    ]
}

/// The mesh that a node names.
fn mesh_of<'a>(meshes: &'a [Mesh], node: &Node) -> Option<&'a Mesh>
    ensures { option_copied result ≡ mesh_of meshes.now node.now }
{
    // derived
    match node.mesh {
        Some(mesh) => meshes.get(mesh.value()),
        None => None,
    }
}

/// Whether a node has weights, and not as many as its mesh has morph targets.
fn has_other_weights(meshes: &[Mesh], node: &Node) -> bool
    ensures { result ≡ has_other_weights node.now.weights (mesh_of meshes.now node.now) }
{
    // derived
    match (&node.weights, mesh_of(meshes, node)) {
        (Some(weights), Some(mesh)) => {
            weights.len() != 0 && weights.len() != targets_of_mesh(&mesh.primitives)
        }
        _ => false,
    }
}

/// Whether a node has a mesh with a primitive that has no joints.
fn is_unskinned(lists: &PlacedRules<'_>, node: &Node) -> bool
    ensures { result ≡ is_unskinned (mesh_of lists.now.meshes.now node.now) }
{
    match mesh_of(lists.meshes, node) {
        Some(_) => !is_skinned_mesh(lists, node),
        None => false,
    }
}

/// Whether a node has a mesh whose primitives have joints.
#[tactic(auto, using(crate::proofs::Marked::marked_mesh))]
fn is_skinned_mesh(lists: &PlacedRules<'_>, node: &Node) -> bool
    ensures { result ≡ is_skinned_mesh (mesh_of lists.now.meshes.now node.now) }
{
    match node.mesh {
        Some(mesh) => is_marked(lists.skinned, mesh.value()),
        None => false,
    }
}

/// Whether a node holds nothing.
fn is_empty(node: &Node) -> bool
    ensures { result ≡ is_empty node.now }
{
    // derived
    node.children.is_none()
        && node.mesh.is_none()
        && node.camera.is_none()
        && node.skin.is_none()
        && node.extensions.is_none()
        && node.extras.is_none()
}

/// Whether a matrix is there and the identity.
fn is_some_identity(matrix: &Option<[Real; 16]>) -> bool
    ensures { result ≡ is_some_identity matrix.now }
{
    // derived
    match matrix {
        Some(matrix) => is_identity(matrix),
        None => false,
    }
}

/// Whether a matrix is the identity.
fn is_identity(matrix: &[Real]) -> bool
    ensures { result ≡ is_identity 0 matrix.now }
{
    for number in 0..matrix.len() {
        if !is_identity_at(number, &matrix[number]) {
            return false;
        }
    }
    true
}

/// Whether a number is that of the identity at a place.
fn is_identity_at(place: usize, number: &Real) -> bool
    ensures { result ≡ is_identity_at place number.now }
{
    // derived
    number.as_f64() == identity_number(place)
}

/// A number of the identity matrix.
fn identity_number(number: usize) -> f64
    ensures { result ≡ identity_number number }
{
    // derived
    if number % 5 == 0 { 1.0 } else { 0.0 }
}

/// Whether a matrix is there, and two of its axes are far from a right angle.
fn is_some_oblique(matrix: &Option<[Real; 16]>) -> bool
    ensures { result ≡ is_some_oblique matrix.now }
{
    // derived
    match matrix {
        Some(matrix) => {
            are_oblique(matrix, 0, 4) || are_oblique(matrix, 0, 8) || are_oblique(matrix, 4, 8)
        }
        None => false,
    }
}

/// Whether the cosine between the vectors at two places of a matrix is above 1/64.
fn are_oblique(matrix: &[Real], a: usize, b: usize) -> bool
    requires a { a < 16 }
    requires b { b < 16 }
    ensures { result ≡ are_oblique matrix.now a b }
{
    let product = dot(matrix, a, b);
    dot(matrix, a, a) * dot(matrix, b, b) < product * product * 4096.0
}

/// The scalar product of the vectors of three numbers at two places of a matrix.
fn dot(matrix: &[Real], a: usize, b: usize) -> f64
    requires a { a < 16 }
    requires b { b < 16 }
    ensures { result ≡ dot matrix.now a b }
{
    // derived
    float_at(matrix, a) * float_at(matrix, b)
        + float_at(matrix, a + 1) * float_at(matrix, b + 1)
        + float_at(matrix, a + 2) * float_at(matrix, b + 2)
}

/// The number at a place of a matrix, or 0.
fn float_at(matrix: &[Real], place: usize) -> f64
    ensures { result ≡ float_at matrix.now place }
{
    // derived
    some_float(matrix.get(place))
}

/// The float that a number is, or 0.
fn some_float(number: Option<&Real>) -> f64
    ensures { result ≡ some_float (option_copied number.entry) }
{
    // derived
    match number {
        Some(number) => number.as_f64(),
        None => 0.0,
    }
}

/// Whether a rotation is there and its square is less than 127/128 or more than 129/128.
fn is_non_unit(rotation: &Option<UnitQuaternion>) -> bool
    ensures { result ≡ is_non_unit rotation.now }
{
    match rotation {
        Some(rotation) => {
            let [x, y, z, w] = rotation.values();
            let square = x * x + y * y + z * z + w * w;
            !(0.9921875 <= square && square <= 1.0078125)
        }
        None => false,
    }
}

/// Marks the nodes that are children. Fails only if out of memory.
pub fn child_marks(alloc: Global, nodes: &[Node]) -> Result<Vec<bool>, AllocError>
    ensures { IfOk result (λ marks. marks.items
        ≡ child_marks nodes.now (replicate (length nodes.now) false)) }
{
    let mut marks = vec![in alloc; false; nodes.len()]?;
    for node in nodes {
        if let Some(children) = &node.children {
            mark_all(&mut marks, children);
        }
    }
    Ok(marks)
}

/// Marks the nodes that are joints, of so many. Fails only if out of memory.
pub fn joint_marks(alloc: Global, count: usize, skins: &[Skin]) -> Result<Vec<bool>, AllocError>
    ensures { IfOk result (λ marks. marks.items
        ≡ joint_marks skins.now (replicate count false)) }
{
    let mut marks = vec![in alloc; false; count]?;
    for skin in skins {
        mark_all(&mut marks, &skin.joints);
    }
    Ok(marks)
}

/// Marks the meshes that are skinned, in one pass. Fails only if out of memory.
pub fn skinned_marks(alloc: Global, meshes: &[Mesh]) -> Result<Vec<bool>, AllocError>
    ensures { IfOk result (λ marks. marks.items ≡ skinned_marks meshes.now) }
{
    let mut marks = Vec::new(alloc);
    for mesh in meshes {
        marks.push(is_skinned(&mesh.primitives))?;
    }
    Ok(marks)
}
