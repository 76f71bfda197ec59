//! Names of members.

mod derived;

/// The name of a member that a finding is about, or of an object that holds it.
#[derive(Clone, Copy, Debug, PartialEq, Eq)]
pub enum Name {
    /// `accessors`.
    Accessors,
    /// `alphaCutoff`.
    AlphaCutoff,
    /// `alphaMode`.
    AlphaMode,
    /// `animations`.
    Animations,
    /// `aspectRatio`.
    AspectRatio,
    /// `asset`.
    Asset,
    /// `attenuationColor`.
    AttenuationColor,
    /// `attenuationDistance`.
    AttenuationDistance,
    /// `attributes`.
    Attributes,
    /// `baseColorFactor`.
    BaseColorFactor,
    /// `baseColorTexture`.
    BaseColorTexture,
    /// `buffer`.
    Buffer,
    /// `bufferView`.
    BufferView,
    /// `bufferViews`.
    BufferViews,
    /// `buffers`.
    Buffers,
    /// `byteLength`.
    ByteLength,
    /// `byteOffset`.
    ByteOffset,
    /// `byteStride`.
    ByteStride,
    /// `camera`.
    Camera,
    /// `cameras`.
    Cameras,
    /// `channels`.
    Channels,
    /// `children`.
    Children,
    /// `color`.
    Color,
    /// `componentType`.
    ComponentType,
    /// `count`.
    Count,
    /// `diffuseFactor`.
    DiffuseFactor,
    /// `diffuseTexture`.
    DiffuseTexture,
    /// `emissiveFactor`.
    EmissiveFactor,
    /// `emissiveStrength`.
    EmissiveStrength,
    /// `emissiveTexture`.
    EmissiveTexture,
    /// `extensions`.
    Extensions,
    /// `extensionsRequired`.
    ExtensionsRequired,
    /// `extensionsUsed`.
    ExtensionsUsed,
    /// `glossinessFactor`.
    GlossinessFactor,
    /// `images`.
    Images,
    /// `index`.
    Index,
    /// `indices`.
    Indices,
    /// `innerConeAngle`.
    InnerConeAngle,
    /// `input`.
    Input,
    /// `intensity`.
    Intensity,
    /// `interpolation`.
    Interpolation,
    /// `inverseBindMatrices`.
    InverseBindMatrices,
    /// `ior`.
    Ior,
    /// `joints`.
    Joints,
    /// `KHR_lights_punctual`.
    KhrLightsPunctual,
    /// `KHR_materials_emissive_strength`.
    KhrMaterialsEmissiveStrength,
    /// `KHR_materials_ior`.
    KhrMaterialsIor,
    /// `KHR_materials_pbrSpecularGlossiness`.
    KhrMaterialsPbrSpecularGlossiness,
    /// `KHR_materials_specular`.
    KhrMaterialsSpecular,
    /// `KHR_materials_transmission`.
    KhrMaterialsTransmission,
    /// `KHR_materials_volume`.
    KhrMaterialsVolume,
    /// `light`.
    Light,
    /// `magFilter`.
    MagFilter,
    /// `material`.
    Material,
    /// `materials`.
    Materials,
    /// `matrix`.
    Matrix,
    /// `max`.
    Max,
    /// `mesh`.
    Mesh,
    /// `meshes`.
    Meshes,
    /// `metallicFactor`.
    MetallicFactor,
    /// `metallicRoughnessTexture`.
    MetallicRoughnessTexture,
    /// `mimeType`.
    MimeType,
    /// `min`.
    Min,
    /// `minFilter`.
    MinFilter,
    /// `minVersion`.
    MinVersion,
    /// `mode`.
    Mode,
    /// `node`.
    Node,
    /// `nodes`.
    Nodes,
    /// `normalTexture`.
    NormalTexture,
    /// `normalized`.
    Normalized,
    /// `occlusionTexture`.
    OcclusionTexture,
    /// `orthographic`.
    Orthographic,
    /// `outerConeAngle`.
    OuterConeAngle,
    /// `output`.
    Output,
    /// `path`.
    Path,
    /// `pbrMetallicRoughness`.
    PbrMetallicRoughness,
    /// `perspective`.
    Perspective,
    /// `primitives`.
    Primitives,
    /// `range`.
    Range,
    /// `rotation`.
    Rotation,
    /// `roughnessFactor`.
    RoughnessFactor,
    /// `sampler`.
    Sampler,
    /// `samplers`.
    Samplers,
    /// `scene`.
    Scene,
    /// `scenes`.
    Scenes,
    /// `skeleton`.
    Skeleton,
    /// `skin`.
    Skin,
    /// `skins`.
    Skins,
    /// `source`.
    Source,
    /// `sparse`.
    Sparse,
    /// `specularColorFactor`.
    SpecularColorFactor,
    /// `specularColorTexture`.
    SpecularColorTexture,
    /// `specularFactor`.
    SpecularFactor,
    /// `specularGlossinessTexture`.
    SpecularGlossinessTexture,
    /// `specularTexture`.
    SpecularTexture,
    /// `spot`.
    Spot,
    /// `strength`.
    Strength,
    /// `target`.
    Target,
    /// `targets`.
    Targets,
    /// `textures`.
    Textures,
    /// `thicknessFactor`.
    ThicknessFactor,
    /// `thicknessTexture`.
    ThicknessTexture,
    /// `transmissionFactor`.
    TransmissionFactor,
    /// `transmissionTexture`.
    TransmissionTexture,
    /// `type`.
    Type,
    /// `uri`.
    Uri,
    /// `values`.
    Values,
    /// `variants`.
    Variants,
    /// `version`.
    Version,
    /// `weights`.
    Weights,
    /// `wrapS`.
    WrapS,
    /// `wrapT`.
    WrapT,
    /// `xmag`.
    Xmag,
    /// `yfov`.
    Yfov,
    /// `ymag`.
    Ymag,
    /// `zfar`.
    Zfar,
    /// `znear`.
    Znear,
}
