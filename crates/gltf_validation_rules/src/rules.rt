//! The rules that a caller may set.

ghost use Rattle.std.specs.Prelude.{◌≡◌, map};
ghost use Rattle.gltf_validation_rules.specs.Context.{rules_of, standard_rules, enabled_with_empty_textures};

use gltf_base::extensions::ENABLED_EXTENSIONS;

/// What a caller allows when a document is validated.
#[derive(Clone, Copy, Debug, Drop, PartialEq, Eq)]
pub struct Rules<'a> {
    /// Whether a texture may be without an image. If so, the number 4294967295 at its `source`,
    /// which means none, is no fault.
    pub empty_texture: bool,
    /// The names of the extensions that a document may require, each compared whole.
    pub enabled: &'a [&'a str],
}

/// The names to enable if textures may be without an image: those of `ENABLED_EXTENSIONS`, and the
/// extensions that give a texture an image of another format. Give it as `enabled` beside
/// `empty_texture`; nothing uses it otherwise.
pub const ENABLED_WITH_EMPTY_TEXTURES: &[&str] = &[
    "KHR_lights_punctual",
    "KHR_materials_pbrSpecularGlossiness",
    "KHR_materials_unlit",
    "KHR_texture_transform",
    "KHR_materials_transmission",
    "KHR_materials_ior",
    "KHR_materials_emissive_strength",
    "KHR_texture_basisu",
    "EXT_texture_webp",
    "MSFT_texture_dds",
];

/// `ENABLED_WITH_EMPTY_TEXTURES` holds the names that the table lists as enabled with it, in their
/// order.
pub fn constant_is_listed()
    ensures { map (λ name. name.now) ENABLED_WITH_EMPTY_TEXTURES.now ≡ enabled_with_empty_textures }
{}

impl<'a> Rules<'a> {
    /// Returns the standard rules: each texture needs an image, and a document may require what
    /// `ENABLED_EXTENSIONS` lists.
    pub fn new() -> Rules<'a>
        ensures { rules_of result ≡ standard_rules }
    {
        Rules {
            empty_texture: false,
            enabled: ENABLED_EXTENSIONS,
        }
    }
}
