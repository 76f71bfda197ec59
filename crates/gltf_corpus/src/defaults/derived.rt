//! Written by tools/derive.py from crates/*/specs and crates/*/src. Do not edit.

use gltf_json::extensions::material::{
    AttenuationColor, EmissiveStrengthFactor, IndexOfRefraction, PbrDiffuseFactor,
    PbrSpecularFactor, SpecularColorFactor, SpecularFactor, ThicknessFactor, TransmissionFactor,
};
use gltf_json::extensions::scene::khr_lights_punctual::{Light, Spot};
use gltf_json::extensions::texture::{
    TextureTransformOffset, TextureTransformRotation, TextureTransformScale,
};
use gltf_json::material::{
    AlphaCutoff, EmissiveFactor, NormalTexture, PbrBaseColorFactor, StrengthFactor,
};
use gltf_json::scene::Node;

/// What one absent number means.
pub const NUMBERS: &[(&str, f64)] = &[
    (
        "EmissiveStrength.emissiveStrength",
        EmissiveStrengthFactor::DEFAULT,
    ),
    ("Ior.ior", IndexOfRefraction::DEFAULT),
    ("Light.intensity", Light::DEFAULT_INTENSITY),
    ("Material.alphaCutoff", AlphaCutoff::DEFAULT),
    ("NormalTexture.scale", NormalTexture::DEFAULT_SCALE),
    ("OcclusionTexture.strength", StrengthFactor::DEFAULT),
    (
        "PbrMetallicRoughness.metallicFactor",
        StrengthFactor::DEFAULT,
    ),
    (
        "PbrMetallicRoughness.roughnessFactor",
        StrengthFactor::DEFAULT,
    ),
    (
        "PbrSpecularGlossiness.glossinessFactor",
        StrengthFactor::DEFAULT,
    ),
    ("Specular.specularFactor", SpecularFactor::DEFAULT),
    ("Spot.innerConeAngle", Spot::DEFAULT_INNER_CONE_ANGLE),
    ("Spot.outerConeAngle", Spot::DEFAULT_OUTER_CONE_ANGLE),
    (
        "TextureTransform.rotation",
        TextureTransformRotation::DEFAULT,
    ),
    (
        "Transmission.transmissionFactor",
        TransmissionFactor::DEFAULT,
    ),
    ("Volume.thicknessFactor", ThicknessFactor::DEFAULT),
];

/// What absent arrays of numbers mean.
pub const ARRAYS: &[(&str, &[f64])] = &[
    ("Light.color", &Light::DEFAULT_COLOR),
    ("Material.emissiveFactor", &EmissiveFactor::DEFAULT),
    ("Node.rotation", &Node::DEFAULT_ROTATION),
    ("Node.scale", &Node::DEFAULT_SCALE),
    ("Node.translation", &Node::DEFAULT_TRANSLATION),
    (
        "PbrMetallicRoughness.baseColorFactor",
        &PbrBaseColorFactor::DEFAULT,
    ),
    (
        "PbrSpecularGlossiness.diffuseFactor",
        &PbrDiffuseFactor::DEFAULT,
    ),
    (
        "PbrSpecularGlossiness.specularFactor",
        &PbrSpecularFactor::DEFAULT,
    ),
    (
        "Specular.specularColorFactor",
        &SpecularColorFactor::DEFAULT,
    ),
    ("TextureTransform.offset", &TextureTransformOffset::DEFAULT),
    ("TextureTransform.scale", &TextureTransformScale::DEFAULT),
    ("Volume.attenuationColor", &AttenuationColor::DEFAULT),
];
