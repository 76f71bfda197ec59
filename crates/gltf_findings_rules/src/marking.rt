//! Which items others name.

ghost use Rattle.std.specs.Prelude.{◌≡◌, List, Bool};
ghost use Rattle.gltf_base.specs.Indexes.{index_number};
ghost use Rattle.gltf_findings_codes.specs.Attributes.{attributes_in};
ghost use Rattle.gltf_findings_codes.specs.Marks.{mark, mark_some};
ghost use Rattle.gltf_findings_rules.specs.Marking.{marked_by, view_marks, sparse_marks, entry_marks, target_marks, targets_marks, mesh_index_marks, mesh_attribute_marks, mesh_target_marks, mesh_material_marks, variant_marks, sampler_marks, animation_marks, default_weight_marks};

use gltf_base::Index;
use gltf_base::mesh::Semantic;
use gltf_base::validation::Checked;
use gltf_findings_codes::{mark, mark_some};
use gltf_parts::accessor::Accessor;
use gltf_parts::accessor::sparse::Sparse;
use gltf_parts::buffer::View;
use gltf_parts::image::Image;
use gltf_scene::animation::{Animation, Sampler};
use gltf_scene::extensions::mesh::{Mapping, Primitive as Extensions};
use gltf_scene::mesh::{Mesh, MorphTarget, Primitive};
use gltf_scene::scene::Node;
use gltf_scene::skin::Skin;
use std::collections::BTreeMap;

/// What the items of a list name in another list.
pub trait Marking<T> {
    // The marks when those of an item are added.
    ghost marked: { Self → T → List Bool → List Bool };

    /// Marks what an item names.
    fn mark(&self, item: &T, marks: &mut Vec<bool>)
        ensures { marks.new.items ≡ marked self.now item.now marks.old.items };
}

/// Marks what the items of a list name.
pub fn mark_items<T, M: Marking<T>>(marks: &mut Vec<bool>, marking: &M, items: &[T])
    ensures { marks.new.items ≡ marked_by (M.marked marking.now) items.now marks.old.items }
{
    for item in items {
        marking.mark(item, marks);
    }
}

/// Buffers, by buffer views.
#[derive(Clone, Copy)]
pub struct OfBuffers;

impl Marking<View> for OfBuffers {
    ghost marked = { λ s x marks. mark marks (index_number x.buffer) };

    fn mark(&self, item: &View, marks: &mut Vec<bool>) {
        mark(marks, item.buffer.number());
    }
}

/// Buffer views, by accessors and images.
#[derive(Clone, Copy)]
pub struct OfViews;

impl Marking<Accessor> for OfViews {
    ghost marked = { λ s x marks. view_marks x marks };

    fn mark(&self, item: &Accessor, marks: &mut Vec<bool>) {
        mark_some(marks, item.buffer_view);
        mark_sparse(marks, &item.sparse);
    }
}

/// Marks the buffer views of deviating elements.
fn mark_sparse(marks: &mut Vec<bool>, sparse: &Option<Sparse>)
    ensures { marks.new.items ≡ sparse_marks sparse.now marks.old.items }
{
    if let Some(sparse) = sparse {
        mark(marks, sparse.indices.buffer_view.number());
        mark(marks, sparse.values.buffer_view.number());
    }
}

impl Marking<Image> for OfViews {
    ghost marked = { λ s x marks. mark_some marks x.buffer_view };

    fn mark(&self, item: &Image, marks: &mut Vec<bool>) {
        mark_some(marks, item.buffer_view);
    }
}

/// Accessors of attributes, by meshes.
#[derive(Clone, Copy)]
pub struct OfAttributes;

impl Marking<Primitive> for OfAttributes {
    ghost marked = { λ s x marks. entry_marks (attributes_in x.attributes) marks };

    fn mark(&self, item: &Primitive, marks: &mut Vec<bool>) {
        mark_entries(marks, &item.attributes);
    }
}

/// Marks the accessors of attributes.
fn mark_entries(marks: &mut Vec<bool>, attributes: &BTreeMap<Checked<Semantic>, Index<Accessor>>)
    ensures { marks.new.items ≡ entry_marks (attributes_in attributes.now) marks.old.items }
{
    for (_, index) in attributes {
        mark(marks, index.number());
    }
}

impl Marking<Mesh> for OfAttributes {
    ghost marked = { λ s x marks. mesh_attribute_marks x marks };

    fn mark(&self, item: &Mesh, marks: &mut Vec<bool>) {
        mark_items(marks, self, &item.primitives);
    }
}

/// Accessors of morph targets, by meshes.
#[derive(Clone, Copy)]
pub struct OfTargets;

impl Marking<MorphTarget> for OfTargets {
    ghost marked = { λ s x marks. target_marks x marks };

    fn mark(&self, item: &MorphTarget, marks: &mut Vec<bool>) {
        mark_some(marks, item.positions);
        mark_some(marks, item.normals);
        mark_some(marks, item.tangents);
    }
}

impl Marking<Primitive> for OfTargets {
    ghost marked = { λ s x marks. targets_marks x.targets marks };

    fn mark(&self, item: &Primitive, marks: &mut Vec<bool>) {
        if let Some(targets) = &item.targets {
            mark_items(marks, self, targets);
        }
    }
}

impl Marking<Mesh> for OfTargets {
    ghost marked = { λ s x marks. mesh_target_marks x marks };

    fn mark(&self, item: &Mesh, marks: &mut Vec<bool>) {
        mark_items(marks, self, &item.primitives);
    }
}

/// Accessors of indices, by meshes.
#[derive(Clone, Copy)]
pub struct OfIndices;

impl Marking<Primitive> for OfIndices {
    ghost marked = { λ s x marks. mark_some marks x.indices };

    fn mark(&self, item: &Primitive, marks: &mut Vec<bool>) {
        mark_some(marks, item.indices);
    }
}

impl Marking<Mesh> for OfIndices {
    ghost marked = { λ s x marks. mesh_index_marks x marks };

    fn mark(&self, item: &Mesh, marks: &mut Vec<bool>) {
        mark_items(marks, self, &item.primitives);
    }
}

/// Materials, by meshes.
#[derive(Clone, Copy)]
pub struct OfMaterials;

impl Marking<Primitive> for OfMaterials {
    ghost marked = { λ s x marks. variant_marks x.extensions (mark_some marks x.material) };

    fn mark(&self, item: &Primitive, marks: &mut Vec<bool>) {
        mark_some(marks, item.material);
        mark_variants(marks, &item.extensions);
    }
}

impl Marking<Mapping> for OfMaterials {
    ghost marked = { λ s x marks. mark marks x.material };

    fn mark(&self, item: &Mapping, marks: &mut Vec<bool>) {
        mark(marks, item.material);
    }
}

/// Marks the materials of the variants of a primitive.
fn mark_variants(marks: &mut Vec<bool>, extensions: &Option<Extensions>)
    ensures { marks.new.items ≡ variant_marks extensions.now marks.old.items }
{
    if let Some(extensions) = extensions {
        if let Some(variants) = &extensions.khr_materials_variants {
            mark_items(marks, &OfMaterials, &variants.mappings);
        }
    }
}

impl Marking<Mesh> for OfMaterials {
    ghost marked = { λ s x marks. mesh_material_marks x marks };

    fn mark(&self, item: &Mesh, marks: &mut Vec<bool>) {
        mark_items(marks, self, &item.primitives);
    }
}

/// Accessors of inverse bind matrices, by skins.
#[derive(Clone, Copy)]
pub struct OfMatrices;

impl Marking<Skin> for OfMatrices {
    ghost marked = { λ s x marks. mark_some marks x.inverse_bind_matrices };

    fn mark(&self, item: &Skin, marks: &mut Vec<bool>) {
        mark_some(marks, item.inverse_bind_matrices);
    }
}

/// Accessors of times and values, by animations.
#[derive(Clone, Copy)]
pub struct OfKeyframes;

impl Marking<Sampler> for OfKeyframes {
    ghost marked = { λ s x marks. sampler_marks x marks };

    fn mark(&self, item: &Sampler, marks: &mut Vec<bool>) {
        mark(marks, item.input.number());
        mark(marks, item.output.number());
    }
}

impl Marking<Animation> for OfKeyframes {
    ghost marked = { λ s x marks. animation_marks x marks };

    fn mark(&self, item: &Animation, marks: &mut Vec<bool>) {
        mark_items(marks, self, &item.samplers);
    }
}

/// Cameras, by nodes.
#[derive(Clone, Copy)]
pub struct OfCameras;

impl Marking<Node> for OfCameras {
    ghost marked = { λ s x marks. mark_some marks x.camera };

    fn mark(&self, item: &Node, marks: &mut Vec<bool>) {
        mark_some(marks, item.camera);
    }
}

/// Meshes, by nodes.
#[derive(Clone, Copy)]
pub struct OfMeshes;

impl Marking<Node> for OfMeshes {
    ghost marked = { λ s x marks. mark_some marks x.mesh };

    fn mark(&self, item: &Node, marks: &mut Vec<bool>) {
        mark_some(marks, item.mesh);
    }
}

/// Meshes, by nodes that define no weights.
#[derive(Clone, Copy)]
pub struct OfDefaultWeights;

impl Marking<Node> for OfDefaultWeights {
    ghost marked = { λ s x marks. default_weight_marks x marks };

    fn mark(&self, item: &Node, marks: &mut Vec<bool>) {
        if item.weights.is_none() {
            mark_some(marks, item.mesh);
        }
    }
}

/// Skins, by nodes.
#[derive(Clone, Copy)]
pub struct OfSkins;

impl Marking<Node> for OfSkins {
    ghost marked = { λ s x marks. mark_some marks x.skin };

    fn mark(&self, item: &Node, marks: &mut Vec<bool>) {
        mark_some(marks, item.skin);
    }
}
