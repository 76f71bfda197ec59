//! Written by tools/derive.py from the rows and the structs of all objects and
//! tools/derive_exceptions.py. Do not edit.

use crate::material::MaterialFaults;
use crate::member_name::MemberName;
use crate::references::ReferenceState;
use gltf_base::Index;
use gltf_base::mesh::Semantic;
use gltf_base::validation::{Checked, Error};
use gltf_parts::accessor::Accessor;
use gltf_parts::accessor::sparse::{Indices, Sparse, Values};
use gltf_parts::buffer::View;
use gltf_parts::image::Image;
use gltf_parts::texture::Texture;
use gltf_scene::animation::{Animation, Channel, Target};
use gltf_scene::camera::Camera;
use gltf_scene::extensions::scene::khr_lights_punctual::Light;
use gltf_scene::mesh::{Mesh, MorphTarget, Primitive};
use gltf_scene::scene::Scene;
use gltf_scene::skin::Skin;
use gltf_validation_rules::PositionFaults;
use std::collections::BTreeMap;

/// A value that a walk comes to: an object, a list or a map in which something can be wrong. It may
/// also be a place that an object's rule names, or a place with nothing below.
#[derive(Clone, Copy, Drop)]
pub enum ValueRef<'a> {
    /// A place with nothing below, and the fault there.
    Leaf(Option<Error>),
    /// The names of the extensions that a document requires, and one of them.
    RequiredExtensions(&'a Vec<String>),
    RequiredExtension(&'a String),
    /// The channels of an animation, and one of them with the animation whose samplers it names.
    Channels(&'a Animation),
    Channel(&'a Channel, &'a Animation),
    /// What is wrong in the members of a material, with its extensions; or extensions alone. One
    /// variant has both, because the compiler limits what references reach (docs/DECISIONS.md,
    /// "What references may reach").
    Material(Option<MaterialFaults>, &'a gltf_parts::extensions::material::Material),
    /// What is wrong in the members of a material without extensions.
    PlainMaterial(MaterialFaults),
    TextureReference(ReferenceState),
    /// An object in which only references to textures can be wrong: one or two, with their names.
    OneTexture(ReferenceState, MemberName),
    TwoTextures(ReferenceState, ReferenceState, MemberName, MemberName),
    Attributes(&'a BTreeMap<Checked<Semantic>, Index<Accessor>>),
    /// The faults of an attribute's key and of its index.
    Attribute(Option<Error>, Option<Error>),
    /// The attributes as their primitive's rule looks at them, and the positions in them.
    AtPositions(PositionFaults),
    Positions(PositionFaults),
    NodeIndexes(&'a Vec<Index<gltf_scene::scene::Node>>),
    SparseIndices(&'a Indices),
    SparseValues(&'a Values),
    Sparse(&'a Sparse),
    Accessors(&'a Vec<Accessor>),
    Accessor(&'a Accessor),
    Views(&'a Vec<View>),
    View(&'a View),
    Images(&'a Vec<Image>),
    Image(&'a Image),
    Materials(&'a Vec<gltf_parts::material::Material>),
    Samplers(&'a Vec<gltf_parts::texture::Sampler>),
    Sampler(&'a gltf_parts::texture::Sampler),
    Textures(&'a Vec<Texture>),
    Texture(&'a Texture),
    Root(&'a gltf_root::root::Root),
    RootLights(&'a gltf_root::extensions::root::KhrLightsPunctual),
    RootExtensions(&'a gltf_root::extensions::root::Root),
    AnimationSamplers(&'a Vec<gltf_scene::animation::Sampler>),
    AnimationSampler(&'a gltf_scene::animation::Sampler),
    AnimationTarget(&'a Target),
    Animations(&'a Vec<Animation>),
    Animation(&'a Animation),
    Cameras(&'a Vec<Camera>),
    Camera(&'a Camera),
    NodeLight(&'a gltf_scene::extensions::scene::khr_lights_punctual::KhrLightsPunctual),
    Lights(&'a Vec<Light>),
    Light(&'a Light),
    MorphTargets(&'a Vec<MorphTarget>),
    MorphTarget(&'a MorphTarget),
    Primitives(&'a Vec<Primitive>),
    Primitive(&'a Primitive),
    Meshes(&'a Vec<Mesh>),
    Mesh(&'a Mesh),
    NodeExtensions(&'a gltf_scene::extensions::scene::Node),
    Nodes(&'a Vec<gltf_scene::scene::Node>),
    Node(&'a gltf_scene::scene::Node),
    Scenes(&'a Vec<Scene>),
    Scene(&'a Scene),
    Skins(&'a Vec<Skin>),
    Skin(&'a Skin),
}
