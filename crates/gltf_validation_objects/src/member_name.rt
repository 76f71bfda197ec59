//! Written by tools/derive.py from the rows of the objects that refer to textures. Do not edit.

ghost use Rattle.gltf_validation_objects.specs.MemberNames.{member_text};
ghost use Rattle.std.specs.Prelude.{◌≡◌};

/// The members that refer to textures, of the parameters and the extension objects of materials.
#[derive(Clone, Copy, Drop)]
pub enum MemberName {
    BaseColorTexture,
    MetallicRoughnessTexture,
    DiffuseTexture,
    SpecularGlossinessTexture,
    TransmissionTexture,
    ThicknessTexture,
    SpecularTexture,
    SpecularColorTexture,
}

impl MemberName {
    /// The name in a document.
    pub(crate) fn text(self) -> &'static str
        ensures { result.now ≡ member_text self }
    {
        match self {
            MemberName::BaseColorTexture => "baseColorTexture",
            MemberName::MetallicRoughnessTexture => "metallicRoughnessTexture",
            MemberName::DiffuseTexture => "diffuseTexture",
            MemberName::SpecularGlossinessTexture => "specularGlossinessTexture",
            MemberName::TransmissionTexture => "transmissionTexture",
            MemberName::ThicknessTexture => "thicknessTexture",
            MemberName::SpecularTexture => "specularTexture",
            MemberName::SpecularColorTexture => "specularColorTexture",
        }
    }
}
