//! Nodes and scenes (glTF 2.0, sections 5.25 and 5.27).

ghost use Rattle.std.specs.Prelude.{◌≡◌, ◌++◌, Option, OnOk};
ghost use Rattle.gltf_findings_codes.specs.Found.{found, findings_from, findings_if};
ghost use Rattle.gltf_findings_codes.specs.Ranges.{number_findings};
ghost use Rattle.gltf_findings_codes.specs.Rules.{reference_findings};
ghost use Rattle.gltf_findings_rules.specs.Nodes.{node_findings, node_rules, scene_findings, child_findings, rotation_findings, root_findings, child_repeat_findings, has_transforms, is_light_unresolved};

use gltf_base::Index;
use gltf_findings_codes::{
    Code, Finding, Name, Numbers, Object, Range, References, Rules, Subject, add_all, add_found,
    add_repeats, broken, is_empty_list, is_marked, is_some_unresolved, is_unresolved,
};
use gltf_scene::extensions::scene::Node as Extensions;
use gltf_scene::scene::{Node, Scene, UnitQuaternion};
use std::alloc::AllocError;

/// The rules for nodes, which name some of so many items.
#[derive(Clone, Copy)]
pub struct NodeRules {
    /// How many cameras there are.
    pub cameras: usize,
    /// How many meshes there are.
    pub meshes: usize,
    /// How many skins there are.
    pub skins: usize,
    /// How many lights there are.
    pub lights: usize,
    /// How many nodes there are.
    pub nodes: usize,
}

impl Rules<Node> for NodeRules {
    ghost findings = { λ s n node. node_findings s n node };

    #[tactic(auto, using(std::proofs::lemmas::List::append_assoc))]
    fn add(&self, number: usize, item: &Node, to: &mut Vec<Finding>) -> Result<(), AllocError> {
        add_found(to, &node_rules(self, number, item))?;
        add_children(to, self.nodes, number, &item.children)?;
        add_child_repeats(to, number, &item.children)?;
        add_rotation(to, number, &item.rotation)
    }
}

/// The rules for a node by itself.
fn node_rules(counts: &NodeRules, number: usize, node: &Node) -> [Option<Finding>; 9]
    ensures { result ≡ node_rules counts.now number node.now }
{
    // derived
    let at = Object::Item(Name::Nodes, number);
    let skin_at = Subject::Member(at, Name::Skin);
    let weights_at = Subject::Member(at, Name::Weights);
    let khr_lights_punctual = Object::Inner(
        Name::Nodes,
        number,
        Name::Extensions,
        Name::KhrLightsPunctual,
    );
    let has_mesh = node.mesh.is_some();
    [
        broken(
            is_some_unresolved(node.camera, counts.cameras),
            Code::UnresolvedReference,
            Subject::Member(at, Name::Camera),
        ),
        broken(
            is_some_unresolved(node.mesh, counts.meshes),
            Code::UnresolvedReference,
            Subject::Member(at, Name::Mesh),
        ),
        broken(
            is_some_unresolved(node.skin, counts.skins),
            Code::UnresolvedReference,
            skin_at,
        ),
        broken(
            is_light_unresolved(&node.extensions, counts.lights),
            Code::UnresolvedReference,
            Subject::Member(khr_lights_punctual, Name::Light),
        ),
        broken(
            node.skin.is_some() && !has_mesh,
            Code::UnsatisfiedDependency,
            skin_at,
        ),
        broken(
            node.weights.is_some() && !has_mesh,
            Code::UnsatisfiedDependency,
            weights_at,
        ),
        broken(
            is_empty_list(&node.children),
            Code::EmptyEntity,
            Subject::Member(at, Name::Children),
        ),
        broken(is_empty_list(&node.weights), Code::EmptyEntity, weights_at),
        broken(
            node.matrix.is_some() && has_transforms(node),
            Code::NodeMatrixTrs,
            Subject::Member(at, Name::Matrix),
        ),
    ]
}

/// Whether a node has a translation, a rotation or a scale.
pub fn has_transforms(node: &Node) -> bool
    ensures { result ≡ has_transforms node.now }
{
    // derived
    node.translation.is_some() || node.rotation.is_some() || node.scale.is_some()
}

/// Whether the light of a node is none of so many.
fn is_light_unresolved(extensions: &Option<Extensions>, lights: usize) -> bool
    ensures { result ≡ is_light_unresolved lights extensions.now }
{
    // derived
    match extensions {
        Some(extensions) => match &extensions.khr_lights_punctual {
            Some(khr_lights_punctual) => is_unresolved(khr_lights_punctual.light, lights),
            None => false,
        },
        None => false,
    }
}

/// Adds the findings of the children of a node.
fn add_children(
    to: &mut Vec<Finding>,
    nodes: usize,
    number: usize,
    children: &Option<Vec<Index<Node>>>,
) -> Result<(), AllocError>
    ensures { OnOk result (to.new.items ≡ to.old.items ++ child_findings nodes number children.now) }
{
    match children {
        Some(children) => {
            let rules = References {
                object: Object::Item(Name::Nodes, number),
                name: Name::Children,
                count: nodes,
            };
            add_all(to, &rules, children)
        }
        None => Ok(()),
    }
}

/// Adds the findings of the children that a node lists again.
fn add_child_repeats(
    to: &mut Vec<Finding>,
    number: usize,
    children: &Option<Vec<Index<Node>>>,
) -> Result<(), AllocError>
    ensures { OnOk result (to.new.items
        ≡ to.old.items ++ child_repeat_findings number children.now) }
{
    match children {
        Some(children) => {
            let at = Object::Item(Name::Nodes, number);
            add_repeats(to, at, Name::Children, children)
        }
        None => Ok(()),
    }
}

/// Adds the findings of the rotation of a node.
fn add_rotation(
    to: &mut Vec<Finding>,
    number: usize,
    rotation: &Option<UnitQuaternion>,
) -> Result<(), AllocError>
    ensures { OnOk result (to.new.items ≡ to.old.items ++ rotation_findings number rotation.now) }
{
    match rotation {
        Some(rotation) => {
            let rules = Numbers {
                object: Object::Item(Name::Nodes, number),
                name: Name::Rotation,
                range: Range::Cosine,
            };
            add_all(to, &rules, &rotation.0)
        }
        None => Ok(()),
    }
}

/// The rules for scenes, which name nodes.
#[derive(Clone, Copy)]
pub struct SceneRules<'a> {
    /// How many nodes there are.
    pub nodes: usize,
    /// Which nodes are children.
    pub children: &'a [bool],
}

impl Rules<Scene> for SceneRules<'_> {
    ghost findings = { λ s n scene. scene_findings s.nodes s.children.now n scene };

    #[tactic(auto, using(std::proofs::lemmas::List::append_assoc))]
    fn add(&self, number: usize, item: &Scene, to: &mut Vec<Finding>) -> Result<(), AllocError> {
        let object = Object::Item(Name::Scenes, number);
        let references = References {
            object,
            name: Name::Nodes,
            count: self.nodes,
        };
        let roots = RootRules {
            scene: number,
            children: self.children,
        };
        add_all(to, &references, &item.nodes)?;
        add_all(to, &roots, &item.nodes)?;
        add_repeats(to, object, Name::Nodes, &item.nodes)
    }
}

/// The rule for the nodes of a scene: each is a root node.
#[derive(Clone, Copy)]
struct RootRules<'a> {
    scene: usize,
    children: &'a [bool],
}

impl Rules<Index<Node>> for RootRules<'_> {
    ghost findings = { λ s k node. root_findings s.children.now s.scene k node };

    fn add(
        &self,
        number: usize,
        item: &Index<Node>,
        to: &mut Vec<Finding>,
    ) -> Result<(), AllocError> {
        let is_child = is_marked(self.children, item.value());
        let place = Subject::Entry(Object::Item(Name::Scenes, self.scene), Name::Nodes, number);
        add_found(to, &[broken(is_child, Code::SceneNonRootNode, place)])
    }
}
