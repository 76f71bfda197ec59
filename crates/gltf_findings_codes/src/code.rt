//! What a finding is about: codes and severities.

ghost use Rattle.std.specs.Prelude.{◌≡◌};

use std::fmt::{self, Display, Formatter, Write};

mod derived;

/// How severe a finding is.
#[derive(Clone, Copy, Debug, PartialEq, Eq)]
pub enum Severity {
    /// The document is invalid.
    Error,
    /// The document is valid, and may not look as intended.
    Warning,
    /// Something of note.
    Information,
    /// Something that could be better.
    Hint,
}

impl Severity {
    ghost use Rattle.gltf_findings_codes.specs.Codes.{severity_name};

    /// Returns the name of the severity, in lowercase letters.
    pub fn name(&self) -> &'static str
        ensures { result.now ≡ severity_name self.now }
    {
        match self {
            Severity::Error => "error",
            Severity::Warning => "warning",
            Severity::Information => "information",
            Severity::Hint => "hint",
        }
    }
}

/// What is wrong, by a code of the Khronos glTF-Validator.
#[derive(Clone, Copy, Debug, PartialEq, Eq)]
pub enum Code {
    /// A list or an object that must not be empty is empty.
    EmptyEntity,
    /// Exactly one of two members must be defined.
    OneOfMismatch,
    /// A required member is missing.
    UndefinedProperty,
    /// A member is defined without one that it depends on.
    UnsatisfiedDependency,
    /// A number is not a multiple of 4.
    ValueMultipleOf,
    /// A value is none of those that are listed.
    ValueNotInList,
    /// A number is out of its range.
    ValueNotInRange,
    /// A matrix is not aligned to 4 bytes.
    AccessorMatrixAlignment,
    /// Only components of 8 or 16 bits can be normalized.
    AccessorNormalizedInvalid,
    /// The offset is not a multiple of the size of a component.
    AccessorOffsetAlignment,
    /// More elements deviate than there are.
    AccessorSparseCountOutOfRange,
    /// A buffer view of indices has a stride.
    BufferViewInvalidByteStride,
    /// The stride is greater than the buffer view.
    BufferViewTooBigByteStride,
    /// A magnification is negative.
    CameraXmagYmagNegative,
    /// A magnification is zero.
    CameraXmagYmagZero,
    /// The field of view is not less than a half turn.
    CameraYfovGequalPi,
    /// The far plane is not behind the near plane.
    CameraZfarLequalZnear,
    /// The outer angle is not greater than the inner angle.
    KhrLightsPunctualLightSpotAngles,
    /// A volume has a double-sided material.
    KhrMaterialsVolumeDoubleSided,
    /// A volume lets no light through.
    KhrMaterialsVolumeNoTransmission,
    /// An alpha cutoff has an effect in the mode MASK alone.
    MaterialAlphaCutoffInvalidMode,
    /// The number of weights is not that of the morph targets.
    MeshInvalidWeightsCount,
    /// The primitives of a mesh have different numbers of morph targets.
    MeshPrimitivesUnequalTargetsCount,
    /// The node has a matrix and another transform.
    NodeMatrixTrs,
    /// The stride of the buffer view is less than an element.
    AccessorSmallBytestride,
    /// The accessor ends behind its buffer view.
    AccessorTooLong,
    /// The offset in the buffer is not a multiple of the size of a component.
    AccessorTotalOffsetAlignment,
    /// A channel animates a transform of a node that has a matrix.
    AnimationChannelTargetNodeMatrix,
    /// A channel animates a transform of a node that has a skin.
    AnimationChannelTargetNodeSkin,
    /// The buffer view of times or values has a stride.
    AnimationSamplerAccessorWithBytestride,
    /// The times are no scalar floats.
    AnimationSamplerInputAccessorInvalidFormat,
    /// The accessor of the times has no bounds.
    AnimationSamplerInputAccessorWithoutBounds,
    /// A spline has fewer than two times.
    AnimationSamplerInputAccessorTooFewElements,
    /// The values have a format that the animated property excludes.
    AnimationSamplerOutputAccessorInvalidFormat,
    /// The buffer view ends behind its buffer.
    BufferViewTooLong,
    /// The buffer view of an image has a stride.
    ImageBufferViewWithBytestride,
    /// There are fewer inverse bind matrices than joints.
    InvalidIbmAccessorCount,
    /// Indices are no scalars of an unsigned type.
    MeshPrimitiveIndicesAccessorInvalidFormat,
    /// The buffer view of indices has a stride.
    MeshPrimitiveIndicesAccessorWithBytestride,
    /// The node is below itself.
    NodeLoop,
    /// The node already has a parent.
    NodeParentOverride,
    /// The buffer view of inverse bind matrices has a stride.
    SkinIbmAccessorWithBytestride,
    /// The inverse bind matrices are no 4x4 matrices of floats.
    SkinIbmInvalidFormat,
    /// An index names nothing.
    UnresolvedReference,
    /// A text does not have the form that is required.
    PatternMismatch,
    /// The major version is not 2.
    UnknownAssetMajorVersion,
    /// The minor version is later than 0.
    UnknownAssetMinorVersion,
    /// The minimum version is greater than the version.
    AssetMinVersionGreaterThanVersion,
    /// The name of an extension has no prefix of capital letters.
    InvalidExtensionNameFormat,
    /// An element is listed twice.
    DuplicateElements,
    /// A list has not as many numbers as it must have.
    ArrayLengthNotInList,
    /// A scene lists a node that has a parent.
    SceneNonRootNode,
    /// An attribute has a format that its semantic excludes.
    MeshPrimitiveAttributesAccessorInvalidFormat,
    /// An attribute has components of 32-bit integers.
    MeshPrimitiveAttributesAccessorUnsignedInt,
    /// Attributes have different numbers of elements.
    MeshPrimitiveUnequalAccessorCount,
    /// A morph target has an attribute that the primitive lacks.
    MeshPrimitiveMorphTargetNoBaseAccessor,
    /// A morph target has another number of elements than the attribute.
    MeshPrimitiveMorphTargetInvalidAttributeCount,
    /// The numbers of sets are not consecutive from 0 on.
    MeshPrimitiveIndexedSemanticContinuity,
    /// There are not as many sets of joints as of weights.
    MeshPrimitiveJointsWeightsMismatch,
    /// The primitive has no positions.
    MeshPrimitiveNoPosition,
    /// The accessor of positions has no bounds.
    MeshPrimitivePositionAccessorWithoutBounds,
    /// An attribute has a name without a meaning.
    MeshPrimitiveInvalidAttribute,
    /// The number of vertices does not fit the mode.
    MeshPrimitiveIncompatibleMode,
    /// A texture needs texture coordinates that the primitive lacks.
    MeshPrimitiveTooFewTexcoords,
    /// A normal texture needs tangents that the primitive lacks.
    MeshPrimitiveGeneratedTangentSpace,
    /// The primitive has tangents and no normals.
    MeshPrimitiveTangentWithoutNormal,
    /// Points have tangents.
    MeshPrimitiveTangentPoints,
    /// The material does not use the tangents.
    UnusedMeshTangent,
    /// Vertex attributes are not aligned to 4 bytes.
    MeshPrimitiveAccessorUnaligned,
    /// The primitives of a mesh have different numbers of sets of joints.
    MeshPrimitivesUnequalJointsCount,
    /// The number of weights is not that of the morph targets of the mesh.
    NodeWeightsInvalid,
    /// A node has a skin, and its mesh has a primitive without joints.
    NodeSkinWithNonSkinnedMesh,
    /// A node has no skin, and its mesh has joints.
    NodeSkinnedMeshWithoutSkin,
    /// A node with a skinned mesh has a parent.
    NodeSkinnedMeshNonRoot,
    /// A node with a skinned mesh has a transform.
    NodeSkinnedMeshLocalTransforms,
    /// The node is empty.
    NodeEmpty,
    /// The matrix is the identity.
    NodeMatrixDefault,
    /// The axes of the matrix are not at right angles.
    NodeMatrixNonTrs,
    /// The rotation is no unit quaternion.
    RotationNonUnit,
    /// Two channels animate the same property of a node.
    AnimationDuplicateTargets,
    /// There are not as many values as the times need.
    AnimationSamplerOutputAccessorInvalidCount,
    /// A channel animates weights of a node without morph targets.
    AnimationChannelTargetNodeWeightsNoMorphs,
    /// Nothing refers to the object.
    UnusedObject,
    /// The weights of the mesh are never used.
    UnusedMeshWeights,
    /// The accessor is used in two ways.
    AccessorUsageOverride,
    /// The buffer view is used in two ways.
    BufferViewTargetOverride,
    /// A buffer view of vertices or indices has no target.
    BufferViewTargetMissing,
    /// Several attributes share a buffer view without a stride.
    MeshPrimitiveAccessorWithoutBytestride,
    /// A texture names an image that is neither PNG nor JPEG.
    TextureInvalidImageMimeType,
    /// The rules do not know the extension.
    UnsupportedExtension,
    /// An extension must be required.
    NonRequiredExtension,
    /// The emissive strength has no effect.
    KhrMaterialsEmissiveStrengthZeroFactor,
    /// The file ends within its header.
    GlbUnexpectedEndOfHeader,
    /// The file does not begin with glTF.
    GlbInvalidMagic,
    /// The version of the container is not 2.
    GlbInvalidVersion,
    /// The length in the header has no room for a chunk.
    GlbLengthTooSmall,
    /// The file is shorter than its header says.
    GlbLengthMismatch,
    /// The file is longer than its header says.
    GlbExtraData,
    /// The file ends within the header of a chunk.
    GlbUnexpectedEndOfChunkHeader,
    /// The file ends within the data of a chunk.
    GlbUnexpectedEndOfChunkData,
    /// The length of a chunk is not a multiple of 4.
    GlbChunkLengthUnaligned,
    /// A chunk ends behind the length in the header.
    GlbChunkTooBig,
    /// A chunk is neither JSON nor BIN.
    GlbUnknownChunkType,
    /// A chunk has the type of an earlier one.
    GlbDuplicateChunk,
    /// The first chunk is not JSON.
    GlbUnexpectedFirstChunk,
    /// A JSON chunk is empty.
    GlbEmptyChunk,
    /// A BIN chunk is not the second chunk.
    GlbUnexpectedBinChunk,
    /// A BIN chunk is empty.
    GlbEmptyBinChunk,
    /// The buffer has no URI, and the file has no BIN chunk.
    BufferMissingGlbData,
    /// The BIN chunk is more than 3 bytes longer than the buffer.
    BufferGlbChunkTooBig,
    /// The text is not a URI reference.
    InvalidUri,
    /// The URI is not relative.
    NonRelativeUri,
    /// The document of a .glb file refers to another file.
    UriGlb,
    /// The document of a .glb file has a data URI.
    DataUriGlb,
    /// The data URI has a media type that is not one of buffers.
    BufferDataUriMimeTypeInvalid,
    /// The joints have no common root.
    SkinNoCommonRoot,
    /// The skeleton is not a common root of the joints.
    SkinSkeletonInvalid,
    /// An extension is required and not used.
    UnusedExtensionRequired,
    /// A member is defined that has no effect.
    ExtraProperty,
    /// An item of a list is of another kind of JSON than is wanted.
    ArrayTypeMismatch,
    /// An index is no whole number below 2^32.
    InvalidIndex,
    /// A value is of another kind of JSON than is wanted.
    TypeMismatch,
    /// The format has no member of this name.
    UnexpectedProperty,
    /// Extras are no object.
    NonObjectExtras,
    /// `extensionsUsed` does not list the extension.
    UndeclaredExtension,
    /// The extension has no meaning in this object.
    UnexpectedExtensionObject,
}

impl Display for Code {
    ghost use Rattle.std.specs.Prelude.{Some};
    ghost use Rattle.gltf_findings_codes.specs.Codes.{code_name};

    ghost output = { λ code. Some (code_name code) };

    fn fmt<W: Write>(&self, f: &mut Formatter<W>) -> fmt::Result {
        f.write_str(self.name())
    }
}
