//! All findings of a document.

ghost use Rattle.std.specs.Prelude.{◌≡◌, ◌++◌, codes, length, Option, IfOk, OnOk};
ghost use Rattle.gltf_findings.specs.ExtensionNames.{is_listed};
ghost use Rattle.gltf_findings_codes.specs.Found.{found, findings_from};
ghost use Rattle.gltf_findings.specs.Skeletons.{skeleton_findings};
ghost use Rattle.gltf_findings_rules.specs.Nodes.{node_findings};
ghost use Rattle.gltf_findings_rules.specs.Placed.{placed_findings as placed_node_findings};
ghost use Rattle.gltf_findings.specs.Findings.{findings_of, root_rules, stored_findings, shown_findings, staged_findings, placed_findings, marked_findings, document_findings, name_findings, counts_of, lights_of, variant_count};

use crate::extensions::{add_name_repeats, add_required};
use crate::hierarchy::hierarchy_rules;
use crate::names::{NameRules, is_listed, use_rules};
use crate::skeletons::{SkeletonMarks, SkeletonRules, skeleton_marks};
use crate::uses::add_uses;
use crate::version::asset_rules;
use gltf_findings_codes::{
    Code, Finding, Name, Object, Subject, add_all, add_found, broken, is_some_unresolved,
};
use gltf_findings_rules::{
    AccessorRules, AnimationRules, BufferRules, CameraRules, ImageRules, LightRules, MaterialRules,
    MeshRules, NodeRules, PlacedRules, SamplerRules, SceneRules, SkinRules, TextureRules,
    ViewRules, child_marks, joint_marks, skinned_marks,
};
use gltf_root::root::Root;
use gltf_scene::extensions::scene::khr_lights_punctual::Light;
use gltf_scene::mesh::Mesh;
use gltf_scene::scene::Node;
use std::alloc::{AllocError, Global};

/// The findings of a document, in the order of `docs/FINDINGS.md`.
#[derive(Debug, Drop)]
pub struct Findings {
    found: Vec<Finding>,
}

impl Findings {
    ghost use Rattle.std.specs.Prelude.{IfOk};
    ghost use Rattle.gltf_findings.specs.Findings.{found_in, AreFindings};

    /// Returns what is wrong with a document, which may be any. It takes time and memory in
    /// proportion to the document and the findings, and does not recurse. Fails only if out of
    /// memory.
    pub fn of(alloc: Global, root: &Root) -> Result<Findings, AllocError>
        ensures { IfOk result (λ findings. AreFindings root.now (found_in findings)) }
    {
        let hierarchy = hierarchy_rules(alloc, root)?;
        let skeletons = skeleton_marks(alloc, root)?;
        let found = found_by(alloc, root, &hierarchy, &skeletons)?;
        Ok(Findings { found })
    }

    /// Returns the findings in order.
    pub fn as_slice(&self) -> &[Finding]
        ensures { result.now ≡ found_in self.now }
    {
        &self.found
    }
}

/// The findings of a document, and behind them those of some rules and of skins by their marks.
#[tactic(auto, using(std::proofs::lemmas::List::append_assoc))]
fn found_by(
    alloc: Global,
    root: &Root,
    rules: &[Option<Finding>],
    skeletons: &SkeletonMarks,
) -> Result<Vec<Finding>, AllocError>
    ensures { IfOk result (λ all. all.items ≡ findings_of root.now ++ found rules.now
        ++ findings_from (skeleton_findings skeletons.now.apart.items skeletons.now.astray.items) 0
        root.now.skins.items) }
{
    let mut all = Vec::new(alloc);
    add_document(&mut all, root)?;
    add_stored(&mut all, root)?;
    add_shown(&mut all, root)?;
    add_staged(&mut all, root)?;
    add_placed(&mut all, root)?;
    add_uses(&mut all, root)?;
    add_found(&mut all, rules)?;
    add_all(&mut all, &SkeletonRules(skeletons), &root.skins)?;
    Ok(all)
}

/// Adds the findings of the document itself: its metadata and its extensions.
#[tactic(auto, using(std::proofs::lemmas::List::append_assoc))]
fn add_document(to: &mut Vec<Finding>, root: &Root) -> Result<(), AllocError>
    ensures { OnOk result (to.new.items ≡ to.old.items ++ document_findings root.now) }
{
    add_found(to, &root_rules(root))?;
    add_found(to, &asset_rules(&root.asset))?;
    add_found(
        to,
        &use_rules(&root.extensions_used, &root.extensions_required),
    )?;
    add_names(to, &root.extensions_used, &root.extensions_required)
}

/// Adds the findings of the names of extensions that are used, and of those that are required.
#[tactic(auto, using(std::proofs::lemmas::List::append_assoc))]
fn add_names(to: &mut Vec<Finding>, used: &[String], required: &[String]) -> Result<(), AllocError>
    ensures { OnOk result (to.new.items
        ≡ to.old.items ++ name_findings used.now required.now) }
{
    add_all(to, &NameRules, used)?;
    add_required(to, used, required)?;
    add_name_repeats(to, Name::ExtensionsUsed, used)?;
    add_name_repeats(to, Name::ExtensionsRequired, required)
}

/// The rules for a document by itself.
fn root_rules(root: &Root) -> [Option<Finding>; 2]
    ensures { result ≡ root_rules root.now }
{
    // derived
    [
        broken(
            is_some_unresolved(root.scene, root.scenes.len()),
            Code::UnresolvedReference,
            Subject::Member(Object::Document, Name::Scene),
        ),
        broken(
            root.extensions_required.len() != 0 && root.extensions_used.len() == 0,
            Code::UnsatisfiedDependency,
            Subject::Member(Object::Document, Name::ExtensionsRequired),
        ),
    ]
}

/// Adds the findings of what is stored: accessors, buffers and buffer views.
#[tactic(auto, using(std::proofs::lemmas::List::append_assoc))]
fn add_stored(to: &mut Vec<Finding>, root: &Root) -> Result<(), AllocError>
    ensures { OnOk result (to.new.items ≡ to.old.items ++ stored_findings root.now) }
{
    let views = ViewRules(&root.buffers);
    add_all(to, &AccessorRules(&root.buffer_views), &root.accessors)?;
    add_all(to, &BufferRules, &root.buffers)?;
    add_all(to, &views, &root.buffer_views)
}

/// Adds the findings of what is shown: images, materials, meshes, samplers and textures.
#[tactic(auto, using(std::proofs::lemmas::List::append_assoc))]
fn add_shown(to: &mut Vec<Finding>, root: &Root) -> Result<(), AllocError>
    ensures { OnOk result (to.new.items ≡ to.old.items ++ shown_findings root.now) }
{
    let textures = TextureRules {
        samplers: root.samplers.len(),
        images: &root.images,
    };
    add_all(to, &ImageRules(&root.buffer_views), &root.images)?;
    add_all(to, &MaterialRules(root.textures.len()), &root.materials)?;
    add_all(to, &mesh_rules_of(root), &root.meshes)?;
    add_all(to, &SamplerRules, &root.samplers)?;
    add_all(to, &textures, &root.textures)
}

/// The rules for meshes.
fn mesh_rules_of(root: &Root) -> MeshRules<'_>
    ensures views { result.views.now ≡ root.now.buffer_views.items }
    ensures accessors { result.accessors.now ≡ root.now.accessors.items }
    ensures materials { result.materials.now ≡ root.now.materials.items }
    ensures quantized { result.is_quantized
        ≡ is_listed root.now.extensions_used.items (codes "KHR_mesh_quantization") }
    ensures variants { result.variants ≡ variant_count root.now }
{
    MeshRules {
        views: &root.buffer_views,
        accessors: &root.accessors,
        materials: &root.materials,
        is_quantized: is_listed(&root.extensions_used, "KHR_mesh_quantization"),
        variants: variant_count(root),
    }
}

/// Adds the findings of animations, cameras and lights.
#[tactic(auto, using(std::proofs::lemmas::List::append_assoc))]
fn add_staged(to: &mut Vec<Finding>, root: &Root) -> Result<(), AllocError>
    ensures { OnOk result (to.new.items ≡ to.old.items ++ staged_findings root.now) }
{
    let animations = AnimationRules {
        views: &root.buffer_views,
        accessors: &root.accessors,
        nodes: &root.nodes,
        meshes: &root.meshes,
    };
    add_all(to, &animations, &root.animations)?;
    add_all(to, &CameraRules, &root.cameras)?;
    add_all(to, &LightRules, lights_of(root))
}

/// Adds the findings of nodes, scenes and skins.
fn add_placed(to: &mut Vec<Finding>, root: &Root) -> Result<(), AllocError>
    ensures { OnOk result (to.new.items ≡ to.old.items ++ placed_findings root.now) }
{
    let alloc = *to.allocator();
    let children = child_marks(alloc, &root.nodes)?;
    let joints = joint_marks(alloc, root.nodes.len(), &root.skins)?;
    add_marked(to, root, &children, &joints)
}

/// Adds these findings by which nodes are children and which are joints.
#[tactic(auto, using(std::proofs::lemmas::List::append_assoc))]
fn add_marked(
    to: &mut Vec<Finding>,
    root: &Root,
    children: &[bool],
    joints: &[bool],
) -> Result<(), AllocError>
    ensures { OnOk result (to.new.items
        ≡ to.old.items ++ marked_findings root.now children.now joints.now) }
{
    add_nodes(to, root, children, joints)?;
    add_all(to, &scene_rules_of(root, children), &root.scenes)?;
    add_all(to, &skin_rules_of(root), &root.skins)
}

/// Adds the findings of nodes, by which of them are children and which are joints.
fn add_nodes(
    to: &mut Vec<Finding>,
    root: &Root,
    children: &[bool],
    joints: &[bool],
) -> Result<(), AllocError>
    ensures { OnOk result (to.new.items ≡ to.old.items
        ++ findings_from (node_findings (counts_of root.now)) 0 root.now.nodes.items
        ++ findings_from (placed_node_findings root.now.meshes.items children.now joints.now) 0
        root.now.nodes.items) }
{
    add_all(to, &node_rules_of(root), &root.nodes)?;
    add_placed_nodes(to, &root.nodes, &root.meshes, children, joints)
}

/// Adds the findings of nodes by their meshes, and by which of them are children and which joints.
fn add_placed_nodes(
    to: &mut Vec<Finding>,
    nodes: &[Node],
    meshes: &[Mesh],
    children: &[bool],
    joints: &[bool],
) -> Result<(), AllocError>
    ensures { OnOk result (to.new.items ≡ to.old.items
        ++ findings_from (placed_node_findings meshes.now children.now joints.now) 0 nodes.now) }
{
    let skinned = skinned_marks(*to.allocator(), meshes)?;
    let placed = PlacedRules {
        meshes,
        skinned: &skinned,
        children,
        joints,
    };
    add_all(to, &placed, nodes)
}

/// The rules for scenes by which nodes are children.
fn scene_rules_of<'a>(root: &Root, children: &'a [bool]) -> SceneRules<'a>
    ensures nodes { result.nodes ≡ length root.now.nodes.items }
    ensures children { result.children.now ≡ children.now }
{
    SceneRules {
        nodes: root.nodes.len(),
        children,
    }
}

/// The rules for skins.
fn skin_rules_of(root: &Root) -> SkinRules<'_>
    ensures nodes { result.nodes ≡ length root.now.nodes.items }
    ensures views { result.views.now ≡ root.now.buffer_views.items }
    ensures accessors { result.accessors.now ≡ root.now.accessors.items }
{
    SkinRules {
        nodes: root.nodes.len(),
        views: &root.buffer_views,
        accessors: &root.accessors,
    }
}

/// How many items there are that nodes may name.
fn node_rules_of(root: &Root) -> NodeRules
    ensures { result ≡ counts_of root.now }
{
    NodeRules {
        cameras: root.cameras.len(),
        meshes: root.meshes.len(),
        skins: root.skins.len(),
        lights: lights_of(root).len(),
        nodes: root.nodes.len(),
    }
}

/// How many variants a document has.
fn variant_count(root: &Root) -> usize
    ensures { result ≡ variant_count root.now }
{
    // derived
    match &root.extensions {
        Some(extensions) => match &extensions.khr_materials_variants {
            Some(khr_materials_variants) => khr_materials_variants.variants.len(),
            None => 0,
        },
        None => 0,
    }
}

/// The lights of a document.
fn lights_of(root: &Root) -> &[Light]
    ensures { result.now ≡ lights_of root.now }
{
    // derived
    match &root.extensions {
        Some(extensions) => match &extensions.khr_lights_punctual {
            Some(khr_lights_punctual) => &khr_lights_punctual.lights,
            None => &[],
        },
        None => &[],
    }
}
