//! Documents that are read, with elements and matrices that are worked by hand.

ghost use Rattle.std.specs.Prelude.{⊤, None};
ghost use Rattle.gltf_layout.specs.Layouts.{layout_places};
ghost use Rattle.gltf_layout.specs.Places.{ArePlaces};
ghost use Rattle.gltf_load.specs.Documents.{stored_in};

use gltf_base::accessor::{AccessorType, ComponentType};
use gltf_base::animation::Property;
use gltf_load::{
    AccessFault, Accessors, Buffers, Document, Format, FormatFault, Layout, ReadFault, Reader,
    Resolve, Usage, element_size_of, local_matrix,
};
use gltf_parts::accessor::Accessor;
use gltf_root::root::Root;
use gltf_scene::animation::Sampler;
use gltf_scene::mesh::{MorphTarget, Primitive};
use gltf_scene::scene::Node;
use gltf_scene::skin::Skin;
use gltf_vectors::holds;
use std::alloc::{AllocError, Global};
use std::test::Fail;

/// No files.
#[derive(Drop)]
struct NoFiles;

impl Resolve for NoFiles {
    type Error = AllocError;

    ghost gives = { λ _ _ _. ⊤ };

    ghost most = { λ _. None };

    fn bytes(&mut self, _alloc: Global, _uri: &str) -> Result<Vec<u8>, AllocError> {
        Err(AllocError)
    }
}

/// A point at 1, -2, 0.5 with one index, a morph target of zeros, and an animation of its scale.
/// Accessor 2 is no normal: its components are integers.
const POINT: &str = r#"{"asset":{"version":"2.0"},
"buffers":[{"byteLength":17}],
"bufferViews":[{"buffer":0,"byteLength":12},{"buffer":0,"byteOffset":12,"byteLength":5}],
"accessors":[
{"bufferView":0,"componentType":5126,"type":"VEC3","count":1},
{"bufferView":1,"byteOffset":4,"componentType":5121,"type":"SCALAR","count":1},
{"bufferView":1,"componentType":5120,"type":"VEC3","count":1},
{"componentType":5126,"type":"VEC3","count":1},
{"bufferView":1,"componentType":5126,"type":"SCALAR","count":1}],
"skins":[{"joints":[0]}],
"nodes":[{"mesh":0}],
"animations":[{"samplers":[{"input":4,"output":0}],
"channels":[{"sampler":0,"target":{"node":0,"path":"scale"}}]}],
"meshes":[{"primitives":[{"mode":0,"attributes":{"POSITION":0,"NORMAL":2,"TEXCOORD_1":9},
"indices":1,"targets":[{"POSITION":3}]}]}]}"#;

/// 1, -2, 0.5 and 2, and the index 0.
const BIN: [u8; 17] = [
    0, 0, 0x80, 0x3F, 0, 0, 0, 0xC0, 0, 0, 0, 0x3F, 0, 0, 0, 0x40, 0,
];

/// The bytes of the buffers of the document that has only the point.
fn point_buffers(alloc: Global, document: &Document<'_>) -> Result<Buffers<'static>, Fail> {
    Ok(Buffers::of(alloc, document, Some(&BIN), &mut NoFiles)?)
}

/// The accessors of a document, whose own layout this is.
fn accessors_of<'a>(root: &'a Root, layout: &'a Layout, buffers: &'a Buffers<'a>) -> Accessors<'a>
    requires { ArePlaces (stored_in root.now.buffers.items root.now.buffer_views.items
        root.now.accessors.items) (layout_places layout.now) }
{
    let document = Document::of(root);
    Accessors::of(&document, layout, buffers)
}

/// The first primitive of a document.
fn first_primitive(root: &Root) -> Result<&Primitive, &'static str> {
    match root.meshes.first() {
        Some(mesh) => mesh.primitives.first().ok_or("no primitive"),
        None => Err("no mesh"),
    }
}

/// The position of the only vertex.
fn only_position(reader: &Reader<'_>) -> Option<[f32; 3]> {
    match reader.read_positions() {
        Ok(Some(positions)) if positions.is_stored() && positions.len() == 1 => {
            Some(positions.get(0))
        }
        _ => None,
    }
}

/// Whether there are indices, and each is that of one of so many vertices.
fn has_vertices(reader: &Reader<'_>, vertices: u64) -> bool {
    match reader.read_indices() {
        Ok(Some(indices)) => indices.check_vertices(vertices, false).is_ok(),
        _ => false,
    }
}

/// Whether the vertex is at 1, -2, 0.5, and the index is that of it.
fn is_vertex_read(reader: &Reader<'_>) -> bool {
    only_position(reader) == Some([1.0, -2.0, 0.5]) && has_vertices(reader, 1)
}

/// Why accessor 2 has no normals.
const NO_NORMALS: ReadFault = ReadFault::Accessor {
    accessor: 2,
    fault: AccessFault::Format(FormatFault {
        usage: Usage::Normals,
        found: Format {
            type_: AccessorType::Vec3,
            component_type: ComponentType::I8,
            normalized: false,
        },
    }),
};

/// Whether accessor 2 is found to have no normals.
fn are_integers_refused(reader: &Reader<'_>) -> bool {
    reader.read_normals().err() == Some(NO_NORMALS)
}

/// Whether there are texture coordinates.
fn has_tex_coords(reader: &Reader<'_>, set: u32) -> Result<bool, ReadFault> {
    match reader.read_tex_coords(set) {
        Ok(coords) => Ok(coords.is_some()),
        Err(fault) => Err(fault),
    }
}

/// Whether set 1 of texture coordinates is found to name no accessor, and there is no set 0.
fn are_sets_told_apart(reader: &Reader<'_>) -> bool {
    has_tex_coords(reader, 1) == Err(ReadFault::NoSuchAccessor { accessor: 9 })
        && has_tex_coords(reader, 0) == Ok(false)
}

/// What a morph target adds to the only vertex.
fn only_displacement(accessors: &Accessors<'_>, target: &MorphTarget) -> Option<[f32; 3]> {
    match accessors.read_morph_positions(target) {
        Ok(Some(added)) if !added.is_stored() && added.len() == 1 => Some(added.get(0)),
        _ => None,
    }
}

/// Whether a morph target changes normals.
fn has_morph_normals(accessors: &Accessors<'_>, target: &MorphTarget) -> Result<bool, ReadFault> {
    match accessors.read_morph_normals(target) {
        Ok(added) => Ok(added.is_some()),
        Err(fault) => Err(fault),
    }
}

/// Whether a morph target adds zeros to the position, and nothing to normals.
fn are_zeros_added(accessors: &Accessors<'_>, target: &MorphTarget) -> bool {
    only_displacement(accessors, target) == Some([0.0, 0.0, 0.0])
        && has_morph_normals(accessors, target) == Ok(false)
}

/// Whether that is so for the first morph target of a document.
fn is_target_read(root: &Root, reader: &Reader<'_>) -> Result<bool, &'static str> {
    match &first_primitive(root)?.targets {
        Some(targets) => {
            let target = targets.first().ok_or("no morph target")?;
            Ok(are_zeros_added(&reader.accessors(), target))
        }
        None => Err("no morph targets"),
    }
}

/// Tries what the first primitive of the document names.
fn try_primitive(root: &Root, layout: &Layout, buffers: &Buffers<'_>) -> Result<(), Fail>
    requires { ArePlaces (stored_in root.now.buffers.items root.now.buffer_views.items
        root.now.accessors.items) (layout_places layout.now) }
{
    let document = Document::of(root);
    let reader = Reader::of(&document, layout, buffers, first_primitive(root)?);
    holds(is_vertex_read(&reader), "the position and the index")?;
    holds(are_integers_refused(&reader), "integers are no normals")?;
    holds(are_sets_told_apart(&reader), "texture coordinates")?;
    holds(is_target_read(root, &reader)?, "the morph target")
}

#[test]
fn what_a_primitive_names_is_read(rt: HostRuntime) -> Result<(), Fail> {
    let root = Root::from_str(rt.alloc(), POINT)?;
    let document = Document::of(&root);
    let layout = Layout::of(rt.alloc(), &document)?;
    let buffers = point_buffers(rt.alloc(), &document)?;
    try_primitive(&root, &layout, &buffers)
}

/// The first sampler of a document.
fn first_sampler(root: &Root) -> Result<&Sampler, &'static str> {
    match root.animations.first() {
        Some(animation) => animation.samplers.first().ok_or("no sampler"),
        None => Err("no animation"),
    }
}

/// The only keyframe of a sampler.
fn only_input(accessors: &Accessors<'_>, sampler: &Sampler) -> Option<[f32; 1]> {
    match accessors.read_inputs(sampler) {
        Ok(times) if times.len() == 1 => Some(times.get(0)),
        _ => None,
    }
}

/// Whether the output of a sampler is that of a property.
fn has_outputs(accessors: &Accessors<'_>, sampler: &Sampler, property: Property) -> bool {
    accessors.read_outputs(sampler, property).is_ok()
}

/// Whether the keyframe of a sampler is at 2, and its output is a scale and no rotation.
fn is_scale_read(accessors: &Accessors<'_>, sampler: &Sampler) -> bool {
    only_input(accessors, sampler) == Some([2.0])
        && has_outputs(accessors, sampler, Property::Scale)
        && !has_outputs(accessors, sampler, Property::Rotation)
}

/// Whether that is so for the first sampler of a document.
fn is_sampler_read(root: &Root, accessors: &Accessors<'_>) -> Result<bool, &'static str> {
    Ok(is_scale_read(accessors, first_sampler(root)?))
}

/// Whether a skin has matrices.
fn has_matrices(accessors: &Accessors<'_>, skin: &Skin) -> Result<bool, ReadFault> {
    match accessors.read_inverse_bind_matrices(skin) {
        Ok(matrices) => Ok(matrices.is_some()),
        Err(fault) => Err(fault),
    }
}

/// Whether the first skin of a document is found to have no matrices.
fn is_skin_read(root: &Root, accessors: &Accessors<'_>) -> Result<bool, &'static str> {
    let skin = root.skins.first().ok_or("no skin")?;
    Ok(has_matrices(accessors, skin) == Ok(false))
}

/// Tries what samplers and skins of the document name.
fn try_others(root: &Root, layout: &Layout, buffers: &Buffers<'_>) -> Result<(), Fail>
    requires { ArePlaces (stored_in root.now.buffers.items root.now.buffer_views.items
        root.now.accessors.items) (layout_places layout.now) }
{
    let accessors = accessors_of(root, layout, buffers);
    holds(is_sampler_read(root, &accessors)?, "the sampler")?;
    holds(is_skin_read(root, &accessors)?, "the skin")?;
    holds(accessors.data(5).is_none(), "there is no accessor 5")
}

#[test]
fn what_samplers_and_skins_name_is_read(rt: HostRuntime) -> Result<(), Fail> {
    let root = Root::from_str(rt.alloc(), POINT)?;
    let document = Document::of(&root);
    let layout = Layout::of(rt.alloc(), &document)?;
    let buffers = point_buffers(rt.alloc(), &document)?;
    try_others(&root, &layout, &buffers)
}

/// A mesh whose positions are 2^53 zeros, of which the document has no bytes.
const ZEROS: &str = r#"{"asset":{"version":"2.0"},"accessors":[
{"componentType":5126,"count":2,"type":"VEC3"},
{"componentType":5126,"count":9007199254740992,"type":"VEC3"},
{"componentType":5126,"count":3,"type":"VEC3"}],
"meshes":[{"primitives":[{"attributes":{"POSITION":1}}]}]}"#;

/// How many elements the largest accessor without a view has.
fn most_zeros(alloc: Global, text: &str) -> Result<u64, Fail> {
    let root = Root::from_str(alloc, text)?;
    let layout = Layout::of(alloc, &Document::of(&root))?;
    Ok(layout.most_zeros())
}

/// Whether an accessor has a view.
fn is_stored(layout: &Layout, accessor: usize) -> Option<bool> {
    match layout.place(accessor) {
        Some(place) => Some(place.is_stored()),
        None => None,
    }
}

#[test]
fn zeros_without_bytes_are_told(rt: HostRuntime) -> Result<(), Fail> {
    holds(
        most_zeros(rt.alloc(), ZEROS)? == 1 << 53,
        "the most elements without a view",
    )?;
    holds(most_zeros(rt.alloc(), NODES)? == 0, "no accessor")?;
    let root = Root::from_str(rt.alloc(), POINT)?;
    let layout = Layout::of(rt.alloc(), &Document::of(&root))?;
    holds(is_stored(&layout, 0) == Some(true), "one has a view")?;
    holds(is_stored(&layout, 3) == Some(false), "one has none")?;
    holds(layout.most_zeros() == 1, "the one without a view")
}

/// Whether the elements of accessors have these sizes.
fn have_sizes(accessors: &[Accessor], sizes: &[u64]) -> bool {
    if accessors.len() != sizes.len() {
        return false;
    }
    for (accessor, size) in accessors.iter().zip(sizes) {
        if element_size_of(accessor) != Some(*size) {
            return false;
        }
    }
    true
}

#[test]
fn elements_have_their_sizes(rt: HostRuntime) -> Result<(), Fail> {
    let root = Root::from_str(rt.alloc(), POINT)?;
    holds(
        have_sizes(&root.accessors, &[12, 1, 3, 12, 4]),
        "elements have their sizes",
    )
}

/// A node that is moved and scaled, one that is turned by a half about z, one with a matrix, and
/// one with nothing.
const NODES: &str = r#"{"asset":{"version":"2.0"},"nodes":[
{"translation":[1,2,3],"scale":[2,3,4]},
{"translation":[1,0,0],"rotation":[0,0,1,0],"scale":[2,2,2]},
{"matrix":[1,2,3,4,5,6,7,8,9,10,11,12,13,14,15,16]},
{}]}"#;

/// The matrices of these.
const MATRICES: &[[f32; 16]] = &[
    [
        2.0, 0.0, 0.0, 0.0, 0.0, 3.0, 0.0, 0.0, 0.0, 0.0, 4.0, 0.0, 1.0, 2.0, 3.0, 1.0,
    ],
    [
        -2.0, 0.0, 0.0, 0.0, 0.0, -2.0, 0.0, 0.0, 0.0, 0.0, 2.0, 0.0, 1.0, 0.0, 0.0, 1.0,
    ],
    [
        1.0, 2.0, 3.0, 4.0, 5.0, 6.0, 7.0, 8.0, 9.0, 10.0, 11.0, 12.0, 13.0, 14.0, 15.0, 16.0,
    ],
    [
        1.0, 0.0, 0.0, 0.0, 0.0, 1.0, 0.0, 0.0, 0.0, 0.0, 1.0, 0.0, 0.0, 0.0, 0.0, 1.0,
    ],
];

/// Whether nodes have these matrices.
fn have_matrices(nodes: &[Node], matrices: &[[f32; 16]]) -> bool {
    if nodes.len() != matrices.len() {
        return false;
    }
    for (node, matrix) in nodes.iter().zip(matrices) {
        if local_matrix(node) != *matrix {
            return false;
        }
    }
    true
}

#[test]
fn matrices_of_nodes_are_local(rt: HostRuntime) -> Result<(), Fail> {
    let root = Root::from_str(rt.alloc(), NODES)?;
    holds(
        have_matrices(&root.nodes, MATRICES),
        "matrices of nodes are local",
    )
}
