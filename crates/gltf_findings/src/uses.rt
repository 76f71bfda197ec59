//! What items of a document are used for (glTF 2.0, section 3.6), and items that nothing uses.

ghost use Rattle.std.specs.Prelude.{◌≡◌, ◌++◌, length, IfOk, OnOk};
ghost use Rattle.gltf_findings.specs.Uses.{attribute_marks, index_marks, accessor_marks, view_marks, buffer_marks, texture_marks, image_marks, sampler_marks, material_marks, camera_marks, mesh_marks, default_marks, skin_marks, use_findings, usage_findings, unused_in, stored_use_findings, shown_use_findings, placed_use_findings, views_with, shared_with};
ghost use Rattle.gltf_findings_codes.specs.Found.{findings_from};
ghost use Rattle.gltf_findings_rules.specs.Unused.{unused_findings, weight_findings};
ghost use Rattle.gltf_findings_rules.specs.Usage.{view_usage_findings};

use crate::names::are_supported;
use gltf_findings_codes::{Finding, Name, add_all};
use gltf_findings_rules::{
    Marking, OfAttributes, OfBuffers, OfCameras, OfDefaultWeights, OfImages, OfIndices,
    OfKeyframes, OfMaterials, OfMatrices, OfMeshes, OfSamplers, OfSkins, OfTargets, OfTextures,
    OfViews, UnusedRules, UsageRules, ViewUsageRules, WeightRules, mark_items, view_uses,
};
use gltf_root::root::Root;
use std::alloc::{AllocError, Global};

/// Adds the findings of the uses of accessors and buffer views. Adds those of unused items only if
/// all extensions are known: others may name items. This and the calls below fail only if out of
/// memory.
#[tactic(auto, using(std::proofs::lemmas::List::append_assoc))]
pub fn add_uses(to: &mut Vec<Finding>, root: &Root) -> Result<(), AllocError>
    ensures { OnOk result (to.new.items ≡ to.old.items ++ use_findings root.now) }
{
    let marks = usage_marks(*to.allocator(), root)?;
    add_usages(to, root, &marks.attributes, &marks.indices)?;
    if are_supported(&root.extensions_used) {
        add_unused(to, root, &marks.attributes)
    } else {
        Ok(())
    }
}

/// Adds the findings of unused items, by the marks of attributes.
#[tactic(auto, using(std::proofs::lemmas::List::append_assoc))]
fn add_unused(to: &mut Vec<Finding>, root: &Root, attributes: &[bool]) -> Result<(), AllocError>
    requires { attributes.now ≡ attribute_marks root.now }
    ensures { OnOk result (to.new.items ≡ to.old.items ++ unused_in root.now) }
{
    add_stored_uses(to, root, attributes)?;
    add_shown_uses(to, root)?;
    add_placed_uses(to, root)
}

/// Adds the findings of accessors and buffer views that are used in two ways, by the marks of
/// attributes and of indices.
#[tactic(auto, using(std::proofs::lemmas::List::append_assoc))]
fn add_usages(
    to: &mut Vec<Finding>,
    root: &Root,
    attributes: &[bool],
    indices: &[bool],
) -> Result<(), AllocError>
    requires attributes { attributes.now ≡ attribute_marks root.now }
    requires indices { indices.now ≡ index_marks root.now }
    ensures { OnOk result (to.new.items ≡ to.old.items ++ usage_findings root.now) }
{
    add_all(to, &usage(attributes, indices), &root.accessors)?;
    add_view_usages(to, root, attributes, indices)
}

/// Adds the findings of buffer views by the accessors that are used for attributes and for indices.
fn add_view_usages(
    to: &mut Vec<Finding>,
    root: &Root,
    attributes: &[bool],
    indices: &[bool],
) -> Result<(), AllocError>
    ensures { OnOk result (to.new.items ≡ to.old.items
        ++ findings_from (view_usage_findings (views_with root.now attributes.now)
        (views_with root.now indices.now) (shared_with root.now attributes.now)) 0
        root.now.buffer_views.items) }
{
    let alloc = *to.allocator();
    let count = root.buffer_views.len();
    let uses = view_uses(alloc, count, &root.accessors, attributes, indices)?;
    let views = view_usage(&uses.attributes, &uses.indices, &uses.shared);
    add_all(to, &views, &root.buffer_views)
}

/// The rule for the uses of accessors.
fn usage<'a>(attributes: &'a [bool], indices: &'a [bool]) -> UsageRules<'a>
    ensures attributes { result.attributes.now ≡ attributes.now }
    ensures indices { result.indices.now ≡ indices.now }
{
    UsageRules {
        attributes,
        indices,
    }
}

/// The rules for the uses of buffer views.
fn view_usage<'a>(
    attributes: &'a [bool],
    indices: &'a [bool],
    shared: &'a [bool],
) -> ViewUsageRules<'a>
    ensures attributes { result.attributes.now ≡ attributes.now }
    ensures indices { result.indices.now ≡ indices.now }
    ensures shared { result.shared.now ≡ shared.now }
{
    ViewUsageRules {
        attributes,
        indices,
        shared,
    }
}

/// Which accessors meshes use.
#[derive(Drop)]
struct UsageMarks {
    /// Those of attributes.
    attributes: Vec<bool>,
    /// Those of indices.
    indices: Vec<bool>,
}

/// Marks the accessors of attributes and those of indices, in one pass.
fn usage_marks(alloc: Global, root: &Root) -> Result<UsageMarks, AllocError>
    ensures attributes { IfOk result (λ marks. marks.attributes.items ≡ attribute_marks root.now) }
    ensures indices { IfOk result (λ marks. marks.indices.items ≡ index_marks root.now) }
{
    let mut attributes = vec![in alloc; false; root.accessors.len()]?;
    let mut indices = vec![in alloc; false; root.accessors.len()]?;
    for mesh in &root.meshes {
        OfAttributes.mark(mesh, &mut attributes);
        OfIndices.mark(mesh, &mut indices);
    }
    Ok(UsageMarks {
        attributes,
        indices,
    })
}

/// Adds the findings of accessors, buffers and buffer views that nothing uses, by the marks of
/// attributes.
#[tactic(auto, using(std::proofs::lemmas::List::append_assoc))]
fn add_stored_uses(
    to: &mut Vec<Finding>,
    root: &Root,
    attributes: &[bool],
) -> Result<(), AllocError>
    requires { attributes.now ≡ attribute_marks root.now }
    ensures { OnOk result (to.new.items ≡ to.old.items ++ stored_use_findings root.now) }
{
    let alloc = *to.allocator();
    let accessors = accessor_marks(alloc, root, attributes)?;
    let views = view_marks(alloc, root)?;
    let buffers = buffer_marks(alloc, root)?;
    add_all(to, &unused(Name::Accessors, &accessors), &root.accessors)?;
    add_all(to, &unused(Name::Buffers, &buffers), &root.buffers)?;
    add_all(to, &unused(Name::BufferViews, &views), &root.buffer_views)
}

/// The rule for the items of a list.
fn unused(list: Name, marks: &[bool]) -> UnusedRules<'_>
    ensures list { result.list ≡ list }
    ensures marks { result.marks.now ≡ marks.now }
{
    UnusedRules { list, marks }
}

/// Marks the accessors that something names, in a copy of the marks of attributes.
fn accessor_marks(alloc: Global, root: &Root, attributes: &[bool]) -> Result<Vec<bool>, AllocError>
    requires { attributes.now ≡ attribute_marks root.now }
    ensures { IfOk result (λ marks. marks.items ≡ accessor_marks root.now) }
{
    let mut marks = attributes.to_vec(alloc)?;
    mark_items(&mut marks, &OfTargets, &root.meshes);
    mark_items(&mut marks, &OfIndices, &root.meshes);
    mark_items(&mut marks, &OfMatrices, &root.skins);
    mark_items(&mut marks, &OfKeyframes, &root.animations);
    Ok(marks)
}

/// Marks the buffer views that something names.
fn view_marks(alloc: Global, root: &Root) -> Result<Vec<bool>, AllocError>
    ensures { IfOk result (λ marks. marks.items ≡ view_marks root.now) }
{
    let mut marks = vec![in alloc; false; root.buffer_views.len()]?;
    mark_items(&mut marks, &OfViews, &root.accessors);
    mark_items(&mut marks, &OfViews, &root.images);
    Ok(marks)
}

/// Marks the buffers that buffer views name.
fn buffer_marks(alloc: Global, root: &Root) -> Result<Vec<bool>, AllocError>
    ensures { IfOk result (λ marks. marks.items ≡ buffer_marks root.now) }
{
    let mut marks = vec![in alloc; false; root.buffers.len()]?;
    mark_items(&mut marks, &OfBuffers, &root.buffer_views);
    Ok(marks)
}

/// Adds the findings of images, materials, samplers and textures that nothing uses.
#[tactic(auto, using(std::proofs::lemmas::List::append_assoc))]
fn add_shown_uses(to: &mut Vec<Finding>, root: &Root) -> Result<(), AllocError>
    ensures { OnOk result (to.new.items ≡ to.old.items ++ shown_use_findings root.now) }
{
    let alloc = *to.allocator();
    let images = image_marks(alloc, root)?;
    let materials = material_marks(alloc, root)?;
    let samplers = sampler_marks(alloc, root)?;
    let textures = texture_marks(alloc, root)?;
    add_all(to, &unused(Name::Images, &images), &root.images)?;
    add_all(to, &unused(Name::Materials, &materials), &root.materials)?;
    add_all(to, &unused(Name::Samplers, &samplers), &root.samplers)?;
    add_all(to, &unused(Name::Textures, &textures), &root.textures)
}

/// Marks the images that textures name.
fn image_marks(alloc: Global, root: &Root) -> Result<Vec<bool>, AllocError>
    ensures { IfOk result (λ marks. marks.items ≡ image_marks root.now) }
{
    let mut marks = vec![in alloc; false; root.images.len()]?;
    mark_items(&mut marks, &OfImages, &root.textures);
    Ok(marks)
}

/// Marks the materials that primitives name.
fn material_marks(alloc: Global, root: &Root) -> Result<Vec<bool>, AllocError>
    ensures { IfOk result (λ marks. marks.items ≡ material_marks root.now) }
{
    let mut marks = vec![in alloc; false; root.materials.len()]?;
    mark_items(&mut marks, &OfMaterials, &root.meshes);
    Ok(marks)
}

/// Marks the samplers that textures name.
fn sampler_marks(alloc: Global, root: &Root) -> Result<Vec<bool>, AllocError>
    ensures { IfOk result (λ marks. marks.items ≡ sampler_marks root.now) }
{
    let mut marks = vec![in alloc; false; root.samplers.len()]?;
    mark_items(&mut marks, &OfSamplers, &root.textures);
    Ok(marks)
}

/// Marks the textures that materials name.
fn texture_marks(alloc: Global, root: &Root) -> Result<Vec<bool>, AllocError>
    ensures { IfOk result (λ marks. marks.items ≡ texture_marks root.now) }
{
    let mut marks = vec![in alloc; false; root.textures.len()]?;
    mark_items(&mut marks, &OfTextures, &root.materials);
    Ok(marks)
}

/// Adds the findings of cameras, meshes and skins that no node uses.
#[tactic(auto, using(std::proofs::lemmas::List::append_assoc))]
fn add_placed_uses(to: &mut Vec<Finding>, root: &Root) -> Result<(), AllocError>
    ensures { OnOk result (to.new.items ≡ to.old.items ++ placed_use_findings root.now) }
{
    let marks = node_marks(*to.allocator(), root)?;
    add_camera_uses(to, root, &marks.cameras)?;
    add_mesh_uses(to, root, &marks.meshes, &marks.defaults)?;
    add_skin_uses(to, root, &marks.skins)
}

/// Adds the findings of cameras that no node uses, by their marks.
fn add_camera_uses(to: &mut Vec<Finding>, root: &Root, cameras: &[bool]) -> Result<(), AllocError>
    requires { cameras.now ≡ camera_marks root.now }
    ensures { OnOk result (to.new.items ≡ to.old.items
        ++ findings_from (λ n x. unused_findings Name.Cameras (camera_marks root.now) n) 0
        root.now.cameras.items) }
{
    add_all(to, &unused(Name::Cameras, cameras), &root.cameras)
}

/// Adds the findings of meshes that no node uses, and of weights that none uses, by their marks.
fn add_mesh_uses(
    to: &mut Vec<Finding>,
    root: &Root,
    meshes: &[bool],
    defaults: &[bool],
) -> Result<(), AllocError>
    requires meshes { meshes.now ≡ mesh_marks root.now }
    requires defaults { defaults.now ≡ default_marks root.now }
    ensures { OnOk result (to.new.items ≡ to.old.items
        ++ findings_from (λ n x. unused_findings Name.Meshes (mesh_marks root.now) n) 0
        root.now.meshes.items
        ++ findings_from (weight_findings (mesh_marks root.now) (default_marks root.now)) 0
        root.now.meshes.items) }
{
    add_all(to, &unused(Name::Meshes, meshes), &root.meshes)?;
    add_all(to, &weights(meshes, defaults), &root.meshes)
}

/// Adds the findings of skins that no node uses, by their marks.
fn add_skin_uses(to: &mut Vec<Finding>, root: &Root, skins: &[bool]) -> Result<(), AllocError>
    requires { skins.now ≡ skin_marks root.now }
    ensures { OnOk result (to.new.items ≡ to.old.items
        ++ findings_from (λ n x. unused_findings Name.Skins (skin_marks root.now) n) 0
        root.now.skins.items) }
{
    add_all(to, &unused(Name::Skins, skins), &root.skins)
}

/// The rule for the weights of meshes.
fn weights<'a>(used: &'a [bool], defaults: &'a [bool]) -> WeightRules<'a>
    ensures used { result.used.now ≡ used.now }
    ensures defaults { result.defaults.now ≡ defaults.now }
{
    WeightRules { used, defaults }
}

/// What nodes name.
#[derive(Drop)]
struct NodeMarks {
    /// The cameras.
    cameras: Vec<bool>,
    /// The meshes.
    meshes: Vec<bool>,
    /// The meshes that nodes without weights name.
    defaults: Vec<bool>,
    /// The skins.
    skins: Vec<bool>,
}

/// Marks what nodes name, in one pass.
fn node_marks(alloc: Global, root: &Root) -> Result<NodeMarks, AllocError>
    ensures cameras { IfOk result (λ marks. marks.cameras.items ≡ camera_marks root.now) }
    ensures meshes { IfOk result (λ marks. marks.meshes.items ≡ mesh_marks root.now) }
    ensures defaults { IfOk result (λ marks. marks.defaults.items ≡ default_marks root.now) }
    ensures skins { IfOk result (λ marks. marks.skins.items ≡ skin_marks root.now) }
{
    let mut cameras = vec![in alloc; false; root.cameras.len()]?;
    let mut meshes = vec![in alloc; false; root.meshes.len()]?;
    let mut defaults = vec![in alloc; false; root.meshes.len()]?;
    let mut skins = vec![in alloc; false; root.skins.len()]?;
    for node in &root.nodes {
        OfCameras.mark(node, &mut cameras);
        OfMeshes.mark(node, &mut meshes);
        OfDefaultWeights.mark(node, &mut defaults);
        OfSkins.mark(node, &mut skins);
    }
    Ok(NodeMarks {
        cameras,
        meshes,
        defaults,
        skins,
    })
}
