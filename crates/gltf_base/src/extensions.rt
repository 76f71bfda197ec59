//! The choices of extensions, and which extensions a document may require.

ghost use Rattle.std.specs.Prelude.{◌≡◌, map};
ghost use Rattle.gltf_base.specs.ExtensionNames.{enabled_extensions};

pub mod scene;

/// The names of the extensions that the standard rules enable: a document may require them without
/// a report. Reading doesn't depend on it: an extension that isn't listed, such as
/// `KHR_materials_volume`, is read too. The list is the ported crate's.
pub const ENABLED_EXTENSIONS: &[&str] = &[
    "KHR_lights_punctual",
    "KHR_materials_pbrSpecularGlossiness",
    "KHR_materials_unlit",
    "KHR_texture_transform",
    "KHR_materials_transmission",
    "KHR_materials_ior",
    "KHR_materials_emissive_strength",
];

/// The extensions that the features of the ported crate can enable. They are the same names,
/// because no feature of this library leaves any out. Nothing uses this list.
pub const SUPPORTED_EXTENSIONS: &[&str] = ENABLED_EXTENSIONS;

/// The constants of this module are the names in their order.
pub fn constants_are_listed()
    ensures enabled { map (λ name. name.now) ENABLED_EXTENSIONS.now ≡ enabled_extensions }
    ensures supported { map (λ name. name.now) SUPPORTED_EXTENSIONS.now ≡ enabled_extensions }
{}
