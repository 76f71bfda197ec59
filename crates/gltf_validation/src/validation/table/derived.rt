//! Written by tools/derive.py from the rows and the structs of all objects. Do not edit.

ghost use Rattle.std.proofs.Common.{lit≤};
ghost use Rattle.std.specs.Prelude.{refl};

use super::{SchemaObject, SchemaType};
use gltf_parts::accessor::Accessor;
use gltf_parts::accessor::sparse::{Indices, Sparse, Values};
use gltf_parts::buffer::{Buffer, View};
use gltf_parts::extensions::material::{
    AttenuationColor, AttenuationDistance, EmissiveStrength, EmissiveStrengthFactor,
    IndexOfRefraction, Ior, PbrDiffuseFactor, PbrSpecularFactor, PbrSpecularGlossiness, Specular,
    SpecularColorFactor, SpecularFactor, ThicknessFactor, Transmission, TransmissionFactor, Volume,
};
use gltf_parts::extensions::texture::{
    TextureTransform, TextureTransformOffset, TextureTransformRotation, TextureTransformScale,
};
use gltf_parts::image::Image;
use gltf_parts::material::{
    EmissiveFactor, NormalTexture, OcclusionTexture, PbrBaseColorFactor, PbrMetallicRoughness,
    StrengthFactor,
};
use gltf_parts::texture::Texture;
use gltf_scene::animation::{Animation, Target};
use gltf_scene::asset::Asset;
use gltf_scene::camera::{Camera, Orthographic, Perspective};
use gltf_scene::extensions::mesh::Mapping;
use gltf_scene::extensions::scene::khr_lights_punctual::{Light, Spot};
use gltf_scene::extensions::scene::khr_materials_variants::Variant;
use gltf_scene::mesh::{Mesh, MorphTarget};
use gltf_scene::scene::Scene;
use gltf_scene::skin::Skin;

impl SchemaObject for Indices {
    ghost same_kind = { refl };

    ghost same_tree = { λ _. refl };
}

impl SchemaObject for Values {
    ghost same_kind = { refl };

    ghost same_tree = { λ _. refl };
}

impl SchemaObject for Sparse {
    ghost same_kind = { refl };

    ghost same_tree = { λ _. refl };
}

impl SchemaObject for Accessor {
    ghost same_kind = { refl };

    ghost same_tree = { λ _. refl };
}

impl SchemaObject for Buffer {
    ghost same_kind = { refl };

    ghost same_tree = { λ _. refl };
}

impl SchemaObject for View {
    ghost same_kind = { refl };

    ghost same_tree = { λ _. refl };
}

impl SchemaObject for Image {
    ghost same_kind = { refl };

    ghost same_tree = { λ _. refl };
}

impl SchemaObject for PbrMetallicRoughness {
    ghost same_kind = { refl };

    ghost same_tree = { λ _. refl };
}

impl SchemaObject for NormalTexture {
    ghost same_kind = { refl };

    ghost same_tree = { λ _. refl };
}

impl SchemaObject for OcclusionTexture {
    ghost same_kind = { refl };

    ghost same_tree = { λ _. refl };
}

impl SchemaObject for gltf_parts::material::Material {
    ghost same_kind = { refl };

    ghost same_tree = { λ _. refl };
}

impl SchemaObject for PbrSpecularGlossiness {
    ghost same_kind = { refl };

    ghost same_tree = { λ _. refl };
}

impl SchemaObject for Transmission {
    ghost same_kind = { refl };

    ghost same_tree = { λ _. refl };
}

impl SchemaObject for Volume {
    ghost same_kind = { refl };

    ghost same_tree = { λ _. refl };
}

impl SchemaObject for Specular {
    ghost same_kind = { refl };

    ghost same_tree = { λ _. refl };
}

impl SchemaObject for Ior {
    ghost same_kind = { refl };

    ghost same_tree = { λ _. refl };
}

impl SchemaObject for EmissiveStrength {
    ghost same_kind = { refl };

    ghost same_tree = { λ _. refl };
}

impl SchemaObject for gltf_parts::extensions::material::Material {
    ghost same_kind = { refl };

    ghost same_tree = { λ _. refl };
}

impl SchemaObject for gltf_parts::texture::Sampler {
    ghost same_kind = { refl };

    ghost same_tree = { λ _. refl };
}

impl SchemaObject for Texture {
    ghost same_kind = { refl };

    ghost same_tree = { λ _. refl };
}

impl SchemaObject for TextureTransform {
    ghost same_kind = { refl };

    ghost same_tree = { λ _. refl };
}

impl SchemaObject for gltf_parts::extensions::texture::Info {
    ghost same_kind = { refl };

    ghost same_tree = { λ _. refl };
}

impl SchemaObject for gltf_parts::texture::Info {
    ghost same_kind = { refl };

    ghost same_tree = { λ _. refl };
}

impl SchemaObject for gltf_root::root::Root {
    ghost same_kind = { refl };

    ghost same_tree = { λ _. refl };
}

impl SchemaObject for gltf_root::extensions::root::KhrLightsPunctual {
    ghost same_kind = { refl };

    ghost same_tree = { λ _. refl };
}

impl SchemaObject for gltf_root::extensions::root::KhrMaterialsVariants {
    ghost same_kind = { refl };

    ghost same_tree = { λ _. refl };
}

impl SchemaObject for gltf_root::extensions::root::Root {
    ghost same_kind = { refl };

    ghost same_tree = { λ _. refl };
}

impl SchemaObject for gltf_scene::animation::Sampler {
    ghost same_kind = { refl };

    ghost same_tree = { λ _. refl };
}

impl SchemaObject for Target {
    ghost same_kind = { refl };

    ghost same_tree = { λ _. refl };
}

impl SchemaObject for Animation {
    ghost same_kind = { refl };

    ghost same_tree = { λ _. refl };
}

impl SchemaObject for Asset {
    ghost same_kind = { refl };

    ghost same_tree = { λ _. refl };
}

impl SchemaObject for Orthographic {
    ghost same_kind = { refl };

    ghost same_tree = { λ _. refl };
}

impl SchemaObject for Perspective {
    ghost same_kind = { refl };

    ghost same_tree = { λ _. refl };
}

impl SchemaObject for Camera {
    ghost same_kind = { refl };

    ghost same_tree = { λ _. refl };
}

impl SchemaObject for gltf_scene::extensions::scene::khr_lights_punctual::KhrLightsPunctual {
    ghost same_kind = { refl };

    ghost same_tree = { λ _. refl };
}

impl SchemaObject for Spot {
    ghost same_kind = { refl };

    ghost same_tree = { λ _. refl };
}

impl SchemaObject for Light {
    ghost same_kind = { refl };

    ghost same_tree = { λ _. refl };
}

impl SchemaObject for Variant {
    ghost same_kind = { refl };

    ghost same_tree = { λ _. refl };
}

impl SchemaObject for Mapping {
    ghost same_kind = { refl };

    ghost same_tree = { λ _. refl };
}

impl SchemaObject for gltf_scene::extensions::mesh::KhrMaterialsVariants {
    ghost same_kind = { refl };

    ghost same_tree = { λ _. refl };
}

impl SchemaObject for gltf_scene::extensions::mesh::Primitive {
    ghost same_kind = { refl };

    ghost same_tree = { λ _. refl };
}

impl SchemaObject for MorphTarget {
    ghost same_kind = { refl };

    ghost same_tree = { λ _. refl };
}

impl SchemaObject for gltf_scene::mesh::Primitive {
    ghost same_kind = { refl };

    ghost same_tree = { λ _. refl };
}

impl SchemaObject for Mesh {
    ghost same_kind = { refl };

    ghost same_tree = { λ _. refl };
}

impl SchemaObject for gltf_scene::extensions::scene::Node {
    ghost same_kind = { refl };

    ghost same_tree = { λ _. refl };
}

impl SchemaObject for gltf_scene::scene::Node {
    ghost same_kind = { refl };

    ghost same_tree = { λ _. refl };
}

impl SchemaObject for Scene {
    ghost same_kind = { refl };

    ghost same_tree = { λ _. refl };
}

impl SchemaObject for Skin {
    ghost same_kind = { refl };

    ghost same_tree = { λ _. refl };
}

impl SchemaType for PbrBaseColorFactor {
    ghost depth_bounds_kind = { (lit≤ tt, lit≤ tt) };
}

impl SchemaType for StrengthFactor {
    ghost depth_bounds_kind = { (lit≤ tt, lit≤ tt) };
}

impl SchemaType for EmissiveFactor {
    ghost depth_bounds_kind = { (lit≤ tt, lit≤ tt) };
}

impl SchemaType for PbrDiffuseFactor {
    ghost depth_bounds_kind = { (lit≤ tt, lit≤ tt) };
}

impl SchemaType for PbrSpecularFactor {
    ghost depth_bounds_kind = { (lit≤ tt, lit≤ tt) };
}

impl SchemaType for TransmissionFactor {
    ghost depth_bounds_kind = { (lit≤ tt, lit≤ tt) };
}

impl SchemaType for ThicknessFactor {
    ghost depth_bounds_kind = { (lit≤ tt, lit≤ tt) };
}

impl SchemaType for AttenuationDistance {
    ghost depth_bounds_kind = { (lit≤ tt, lit≤ tt) };
}

impl SchemaType for AttenuationColor {
    ghost depth_bounds_kind = { (lit≤ tt, lit≤ tt) };
}

impl SchemaType for SpecularFactor {
    ghost depth_bounds_kind = { (lit≤ tt, lit≤ tt) };
}

impl SchemaType for SpecularColorFactor {
    ghost depth_bounds_kind = { (lit≤ tt, lit≤ tt) };
}

impl SchemaType for IndexOfRefraction {
    ghost depth_bounds_kind = { (lit≤ tt, lit≤ tt) };
}

impl SchemaType for EmissiveStrengthFactor {
    ghost depth_bounds_kind = { (lit≤ tt, lit≤ tt) };
}

impl SchemaType for TextureTransformOffset {
    ghost depth_bounds_kind = { (lit≤ tt, lit≤ tt) };
}

impl SchemaType for TextureTransformRotation {
    ghost depth_bounds_kind = { (lit≤ tt, lit≤ tt) };
}

impl SchemaType for TextureTransformScale {
    ghost depth_bounds_kind = { (lit≤ tt, lit≤ tt) };
}
