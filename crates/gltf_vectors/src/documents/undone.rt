//! Pushes that are taken back from documents without reports.

use crate::holds;
use crate::samples::NEW;
use gltf_json::Root;
use gltf_json::accessor::Accessor;
use gltf_json::animation::Animation;
use gltf_json::buffer::{Buffer, View};
use gltf_json::camera::Camera;
use gltf_json::image::Image;
use gltf_json::material::Material;
use gltf_json::mesh::Mesh;
use gltf_json::scene::{Node, Scene};
use gltf_json::skin::Skin;
use gltf_json::texture::{Sampler, Texture};
use gltf_json::validation::{Clean, Error, Rules, TopLevelItem};
use std::alloc::Global;
use std::test::Fail;

/// Whether a node that a scene names stays.
fn stays_while_named(clean: &mut Clean<'_>) -> bool {
    let refused = clean.undo_push::<Node>().err() == Some(Error::IndexOutOfBounds);
    refused && clean.root().nodes.len() == 1
}

/// Whether a node is taken back once no scene names it.
fn is_taken_back(clean: &mut Clean<'_>) -> Result<bool, Error> {
    let scene = clean.undo_push::<Scene>()?;
    let node = clean.undo_push::<Node>()?;
    Ok(scene.is_some() && node.is_some() && clean.undo_push::<Node>()?.is_none())
}

/// A document with a node, and a scene of it.
fn node_and_scene<'a>(alloc: Global) -> Result<Clean<'a>, Fail> {
    let mut clean = Clean::new(alloc)?;
    let node = clean.push(Node::new())?;
    let mut nodes = Vec::new(alloc);
    nodes.push(node)?;
    clean.push(Scene::new(nodes))?;
    Ok(clean)
}

#[test]
fn items_that_nothing_names_are_taken_back(rt: HostRuntime) -> Result<(), Fail> {
    let mut clean = node_and_scene(rt.alloc())?;
    holds(
        stays_while_named(&mut clean),
        "a node that a scene names stays",
    )?;
    holds(
        is_taken_back(&mut clean)?,
        "a node that none names is taken back",
    )?;
    let text = clean.root().to_string(rt.alloc())?;
    holds(text.as_str() == NEW, "the document is as it was")
}

const BUFFER: &str = "\"buffers\":[{\"byteLength\":4}]";

const VIEW: &str = "\"bufferViews\":[{\"buffer\":0,\"byteLength\":4}]";

const ACCESSOR: &str = "\"accessors\":[{\"bufferView\":0,\"componentType\":5126,\"count\":1,\
    \"type\":\"VEC3\",\"min\":[0,0,0],\"max\":[0,0,0]}]";

const IMAGE: &str = "\"images\":[{\"bufferView\":0,\"mimeType\":\"image/png\"}]";

const TEXTURE: &str = "\"textures\":[{\"source\":0,\"sampler\":0}],\"samplers\":[{}]";

const MESH: &str =
    "\"meshes\":[{\"primitives\":[{\"attributes\":{\"POSITION\":0},\"material\":0}]}]";

/// Materials without an index, and with one.
const MATERIAL: &str = "\"materials\":[{}]";

const COATED: &str = "\"materials\":[{\"normalTexture\":{\"index\":0}}]";

/// A document with these members, if it has no report.
fn clean_of<'a>(alloc: Global, members: &[&str]) -> Result<Clean<'a>, Fail> {
    let mut text = String::from_str(alloc, "{\"asset\":{\"version\":\"2.0\"}")?;
    for member in members {
        text.push(',')?;
        text.push_str(member)?;
    }
    text.push('}')?;
    let root = Root::from_str(alloc, &text)?;
    match Clean::of(Rules::new(), root) {
        Ok(clean) => Ok(clean),
        Err(_) => Err(Fail::from("the document has a report")),
    }
}

/// Holds if the last item of a list stays, because something in these members names it.
fn stays<T: TopLevelItem>(alloc: Global, members: &[&str]) -> Result<(), Fail> {
    let mut clean = clean_of(alloc, members)?;
    let before = clean.root().to_string(alloc)?;
    let refused = clean.undo_push::<T>().err() == Some(Error::IndexOutOfBounds);
    let after = clean.root().to_string(alloc)?;
    holds(
        refused && before.as_str() == after.as_str(),
        "an item that is named stays",
    )
}

/// Holds if the last item of a list goes, because nothing in these members names it.
fn goes<T: TopLevelItem>(alloc: Global, members: &[&str]) -> Result<(), Fail> {
    let mut clean = clean_of(alloc, members)?;
    let taken = clean.undo_push::<T>()?;
    let again = clean.undo_push::<T>()?;
    holds(
        taken.is_some() && again.is_none(),
        "an item that nothing names goes",
    )
}

#[test]
fn items_that_another_list_names_stay(rt: HostRuntime) -> Result<(), Fail> {
    let alloc = rt.alloc();
    let animation = "\"animations\":[{\"channels\":[],\"samplers\":[{\"input\":0,\"output\":0}]}]";
    let skin = "\"skins\":[{\"inverseBindMatrices\":0,\"joints\":[]}]";
    stays::<Accessor>(alloc, &[animation, ACCESSOR, VIEW, BUFFER])?;
    stays::<Accessor>(alloc, &[MESH, MATERIAL, ACCESSOR, VIEW, BUFFER])?;
    stays::<Accessor>(alloc, &[skin, ACCESSOR, VIEW, BUFFER])?;
    stays::<View>(alloc, &[ACCESSOR, VIEW, BUFFER])?;
    stays::<View>(alloc, &[IMAGE, VIEW, BUFFER])?;
    stays::<Buffer>(alloc, &[VIEW, BUFFER])?;
    stays::<Image>(alloc, &[TEXTURE, IMAGE, VIEW, BUFFER])?;
    stays::<Sampler>(alloc, &[TEXTURE, IMAGE, VIEW, BUFFER])?;
    stays::<Texture>(alloc, &[COATED, TEXTURE, IMAGE, VIEW, BUFFER])?;
    stays::<Material>(alloc, &[MESH, MATERIAL, ACCESSOR, VIEW, BUFFER])
}

#[test]
fn items_that_a_node_or_a_scene_names_stay(rt: HostRuntime) -> Result<(), Fail> {
    let alloc = rt.alloc();
    let cameras =
        "\"cameras\":[{\"type\":\"perspective\",\"perspective\":{\"yfov\":1,\"znear\":1}}]";
    let meshes = "\"meshes\":[{\"primitives\":[]}]";
    let nodes = "\"nodes\":[{}]";
    stays::<Camera>(alloc, &["\"nodes\":[{\"camera\":0}]", cameras])?;
    stays::<Mesh>(alloc, &["\"nodes\":[{\"mesh\":0}]", meshes])?;
    stays::<Skin>(
        alloc,
        &["\"nodes\":[{\"skin\":0}]", "\"skins\":[{\"joints\":[]}]"],
    )?;
    stays::<Node>(alloc, &["\"nodes\":[{\"children\":[1]},{}]"])?;
    stays::<Node>(alloc, &["\"scenes\":[{\"nodes\":[0]}]", nodes])?;
    stays::<Node>(alloc, &["\"skins\":[{\"joints\":[0]}]", nodes])?;
    let moved = "\"animations\":[{\"channels\":[{\"sampler\":0,\"target\":{\"node\":0,\
        \"path\":\"scale\"}}],\"samplers\":[{\"input\":0,\"output\":0}]}]";
    stays::<Node>(alloc, &[moved, nodes, ACCESSOR, VIEW, BUFFER])?;
    stays::<Scene>(alloc, &["\"scene\":0", "\"scenes\":[{\"nodes\":[]}]"])
}

#[test]
fn items_that_nothing_names_go(rt: HostRuntime) -> Result<(), Fail> {
    let alloc = rt.alloc();
    goes::<Animation>(
        alloc,
        &["\"animations\":[{\"channels\":[],\"samplers\":[]}]"],
    )?;
    goes::<Accessor>(alloc, &[ACCESSOR, VIEW, BUFFER])?;
    goes::<Material>(alloc, &[MATERIAL])?;
    goes::<Node>(alloc, &["\"nodes\":[{\"children\":[0]}]"])?;
    goes::<Texture>(alloc, &[TEXTURE, IMAGE, VIEW, BUFFER])
}
