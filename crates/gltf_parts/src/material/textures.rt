//! The textures of a material, as one list.

ghost use Rattle.std.specs.Prelude.{◌≡◌, [], ◌∷◌, map, option_map};
ghost use Rattle.gltf_base.specs.Indexes.{index_number};
ghost use Rattle.gltf_parts.specs.Textures.{info_index, material_textures, diffuse, specular_glossiness, transmission, thickness, specular, specular_color};

use super::Material;
use crate::extensions;
use crate::texture::{Info, Texture};
use gltf_base::Index;

impl Material {
    /// Returns each member of the material that may refer to a texture: its JSON name, and the
    /// index of the texture, or `None` if the member or its extension is absent. The members are in
    /// the order of the table, those of the extensions last. No name occurs twice.
    pub fn textures(&self) -> [(&'static str, Option<Index<Texture>>); 11]
        ensures { map (λ t. (t.0.now, option_map index_number t.1)) result
            ≡ material_textures self.now }
    {
        let pbr = &self.pbr_metallic_roughness;
        let extended = match &self.extensions {
            Some(extensions) => extended(extensions),
            None => [None; 6],
        };
        [
            ("baseColorTexture", index_of(&pbr.base_color_texture)),
            (
                "metallicRoughnessTexture",
                index_of(&pbr.metallic_roughness_texture),
            ),
            (
                "normalTexture",
                self.normal_texture.as_ref().map(|t| t.index),
            ),
            (
                "occlusionTexture",
                self.occlusion_texture.as_ref().map(|t| t.index),
            ),
            ("emissiveTexture", index_of(&self.emissive_texture)),
            ("diffuseTexture", extended[0]),
            ("specularGlossinessTexture", extended[1]),
            ("transmissionTexture", extended[2]),
            ("thicknessTexture", extended[3]),
            ("specularTexture", extended[4]),
            ("specularColorTexture", extended[5]),
        ]
    }
}

/// The index of the texture that a reference names, if it is there.
fn index_of(reference: &Option<Info>) -> Option<Index<Texture>>
    ensures { option_map index_number result ≡ info_index reference.now }
{
    match reference {
        Some(reference) => Some(reference.index),
        None => None,
    }
}

/// The textures of the extensions, in the order of the table.
fn extended(extensions: &extensions::material::Material) -> [Option<Index<Texture>>; 6]
    ensures { map (option_map index_number) result
        ≡ diffuse extensions.now ∷ specular_glossiness extensions.now
        ∷ transmission extensions.now ∷ thickness extensions.now ∷ specular extensions.now
        ∷ specular_color extensions.now ∷ [] }
{
    let (diffuse, glossiness) = match &extensions.pbr_specular_glossiness {
        Some(model) => (
            index_of(&model.diffuse_texture),
            index_of(&model.specular_glossiness_texture),
        ),
        None => (None, None),
    };
    let transmission = match &extensions.transmission {
        Some(transmission) => index_of(&transmission.transmission_texture),
        None => None,
    };
    let thickness = match &extensions.volume {
        Some(volume) => index_of(&volume.thickness_texture),
        None => None,
    };
    let (strength, color) = match &extensions.specular {
        Some(specular) => (
            index_of(&specular.specular_texture),
            index_of(&specular.specular_color_texture),
        ),
        None => (None, None),
    };
    [
        diffuse,
        glossiness,
        transmission,
        thickness,
        strength,
        color,
    ]
}
