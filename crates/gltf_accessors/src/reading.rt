//! Reading of accessors for what they are used for.

ghost use Rattle.std.specs.Prelude.{◌≡◌, IfOk, IfErr};
ghost use Rattle.gltf_buffers.specs.Buffered.{bytes_at};
ghost use Rattle.gltf_accessors.specs.declared.format.Usage.TheVariants as usages;
ghost use Rattle.gltf_accessors.specs.Formats.{Allows, usage_of};
ghost use Rattle.gltf_accessors.specs.Data.{format_of, IsAccessorAt};
ghost use Rattle.gltf_accessors.specs.Reads.{ReadsData, IsFormatFault, IsFloatsFault, IsVectorsAt, IsVectorsFault, IsColorsAt, IsColorsFault, IsJointsAt, IsJointsFault, IsIndicesAt, IsPrimitiveIndicesFault, IsOutputsAt, IsOutputsFault};

use crate::Accessor;
use crate::attributes::{Colors, Joints};
use crate::data::{AccessorData, accessor_at};
use crate::fault::{AccessFault, AccessorDataFault};
use crate::format::{FormatFault, Usage};
use crate::outputs::Outputs;
use crate::primitive_indices::PrimitiveIndices;
use crate::vectors::Vectors;
use gltf_base::accessor::{AccessorType, ComponentType};
use gltf_base::animation::Property;

/// Each call fails with `Format` if the usage doesn't allow the format of the accessor, and with
/// `Data` if its data is not what it says. It takes time in proportion to the components, and no
/// memory.
impl<'a> AccessorData<'a> {
    /// Returns the elements as positions (glTF 2.0, section 3.7.2.1).
    pub fn positions(&self) -> Result<Accessor<'a, f32, 3>, AccessFault>
        ensures { ReadsData usages.Positions IsAccessorAt (IsFloatsFault 3) self.now result }
    {
        self.floats(Usage::Positions)
    }

    /// Returns the elements as normals.
    pub fn normals(&self) -> Result<Accessor<'a, f32, 3>, AccessFault>
        ensures { ReadsData usages.Normals IsAccessorAt (IsFloatsFault 3) self.now result }
    {
        self.floats(Usage::Normals)
    }

    /// Returns the elements as tangents: x, y, z, and the handedness.
    pub fn tangents(&self) -> Result<Accessor<'a, f32, 4>, AccessFault>
        ensures { ReadsData usages.Tangents IsAccessorAt (IsFloatsFault 4) self.now result }
    {
        self.floats(Usage::Tangents)
    }

    /// Returns the elements as texture coordinates.
    pub fn tex_coords(&self) -> Result<Vectors<'a, 2>, AccessFault>
        ensures { ReadsData usages.TexCoords IsVectorsAt (IsVectorsFault 2) self.now result }
    {
        self.vectors(Usage::TexCoords)
    }

    /// Returns the elements as colors.
    pub fn colors(&self) -> Result<Colors<'a>, AccessFault>
        ensures { ReadsData usages.Colors IsColorsAt IsColorsFault self.now result }
    {
        if let Err(fault) = self.check(Usage::Colors) {
            return Err(AccessFault::Format(fault));
        }
        match self.place.type_ {
            AccessorType::Vec3 => match self.stored_vectors() {
                Ok(colors) => Ok(Colors::Rgb(colors)),
                Err(fault) => Err(AccessFault::Data(fault)),
            },
            _ => match self.stored_vectors() {
                Ok(colors) => Ok(Colors::Rgba(colors)),
                Err(fault) => Err(AccessFault::Data(fault)),
            },
        }
    }

    /// Returns the elements as joints.
    pub fn joints(&self) -> Result<Joints<'a>, AccessFault>
        ensures { ReadsData usages.Joints IsJointsAt IsJointsFault self.now result }
    {
        if let Err(fault) = self.check(Usage::Joints) {
            return Err(AccessFault::Format(fault));
        }
        match self.place.component_type {
            ComponentType::U8 => match accessor_at(self) {
                Ok(joints) => Ok(Joints::U8(joints)),
                Err(fault) => Err(AccessFault::Data(fault)),
            },
            _ => match accessor_at(self) {
                Ok(joints) => Ok(Joints::U16(joints)),
                Err(fault) => Err(AccessFault::Data(fault)),
            },
        }
    }

    /// Returns the elements as weights of joints.
    pub fn weights(&self) -> Result<Vectors<'a, 4>, AccessFault>
        ensures { ReadsData usages.Weights IsVectorsAt (IsVectorsFault 4) self.now result }
    {
        self.vectors(Usage::Weights)
    }

    /// Returns the elements as what a morph target adds (section 3.7.2.2).
    pub fn displacements(&self) -> Result<Accessor<'a, f32, 3>, AccessFault>
        ensures { ReadsData usages.Displacements IsAccessorAt (IsFloatsFault 3) self.now result }
    {
        self.floats(Usage::Displacements)
    }

    /// Returns the elements as indices of a primitive (section 5.24.2).
    pub fn indices(&self) -> Result<PrimitiveIndices<'a>, AccessFault>
        ensures { ReadsData usages.Indices IsIndicesAt IsPrimitiveIndicesFault self.now result }
    {
        if let Err(fault) = self.check(Usage::Indices) {
            return Err(AccessFault::Format(fault));
        }
        match self.place.component_type {
            ComponentType::U8 => match accessor_at(self) {
                Ok(indices) => Ok(PrimitiveIndices::U8(indices)),
                Err(fault) => Err(AccessFault::Data(fault)),
            },
            ComponentType::U16 => match accessor_at(self) {
                Ok(indices) => Ok(PrimitiveIndices::U16(indices)),
                Err(fault) => Err(AccessFault::Data(fault)),
            },
            _ => match accessor_at(self) {
                Ok(indices) => Ok(PrimitiveIndices::U32(indices)),
                Err(fault) => Err(AccessFault::Data(fault)),
            },
        }
    }

    /// Returns the elements as inverse bind matrices, column by column (section 5.28.1).
    pub fn inverse_bind_matrices(&self) -> Result<Accessor<'a, f32, 16>, AccessFault>
        ensures { ReadsData usages.InverseBindMatrices IsAccessorAt (IsFloatsFault 16) self.now
            result }
    {
        self.floats(Usage::InverseBindMatrices)
    }

    /// Returns the elements as times of keyframes, in seconds (section 5.8.1).
    pub fn inputs(&self) -> Result<Accessor<'a, f32, 1>, AccessFault>
        ensures { ReadsData usages.Inputs IsAccessorAt (IsFloatsFault 1) self.now result }
    {
        self.floats(Usage::Inputs)
    }

    /// Returns the elements as values of a property at keyframes (section 3.11).
    pub fn outputs(&self, property: Property) -> Result<Outputs<'a>, AccessFault>
        ensures { ReadsData (usage_of property) (IsOutputsAt property) (IsOutputsFault property)
            self.now result }
    {
        if let Err(fault) = self.check(Usage::of(property)) {
            return Err(AccessFault::Format(fault));
        }
        match property {
            Property::Translation => match accessor_at(self) {
                Ok(floats) => Ok(Outputs::Translations(floats)),
                Err(fault) => Err(AccessFault::Data(fault)),
            },
            Property::Rotation => match self.stored_vectors() {
                Ok(vectors) => Ok(Outputs::Rotations(vectors)),
                Err(fault) => Err(AccessFault::Data(fault)),
            },
            Property::Scale => match accessor_at(self) {
                Ok(floats) => Ok(Outputs::Scales(floats)),
                Err(fault) => Err(AccessFault::Data(fault)),
            },
            Property::MorphTargetWeights => match self.stored_vectors() {
                Ok(vectors) => Ok(Outputs::MorphWeights(vectors)),
                Err(fault) => Err(AccessFault::Data(fault)),
            },
        }
    }

    /// Checks that a usage allows the format.
    fn check(&self, usage: Usage) -> Result<(), FormatFault>
        ensures allowed { IfOk result (λ _. Allows usage
            (format_of self.now.place.now self.now.normalized)) }
        ensures fault { IfErr result (IsFormatFault usage
            (format_of self.now.place.now self.now.normalized)) }
    {
        let found = self.format();
        if usage.allows(found) {
            Ok(())
        } else {
            Err(FormatFault { usage, found })
        }
    }

    /// The elements as N floats, if the usage allows the format.
    fn floats<const N: usize>(&self, usage: Usage) -> Result<Accessor<'a, f32, N>, AccessFault>
        ensures { ReadsData usage IsAccessorAt (IsFloatsFault N) self.now result }
    {
        if let Err(fault) = self.check(usage) {
            return Err(AccessFault::Format(fault));
        }
        match accessor_at(self) {
            Ok(floats) => Ok(floats),
            Err(fault) => Err(AccessFault::Data(fault)),
        }
    }

    /// The elements as N floats, which may be stored as normalized integers, if the usage allows
    /// the format.
    fn vectors<const N: usize>(&self, usage: Usage) -> Result<Vectors<'a, N>, AccessFault>
        ensures { ReadsData usage IsVectorsAt (IsVectorsFault N) self.now result }
    {
        if let Err(fault) = self.check(usage) {
            return Err(AccessFault::Format(fault));
        }
        match self.stored_vectors() {
            Ok(vectors) => Ok(vectors),
            Err(fault) => Err(AccessFault::Data(fault)),
        }
    }

    /// The elements as N floats, by how they are stored.
    fn stored_vectors<const N: usize>(&self) -> Result<Vectors<'a, N>, AccessorDataFault>
        ensures vectors { IfOk result (IsVectorsAt (bytes_at self.now.buffers.now)
            self.now.place.now) }
        ensures fault { IfErr result (IsVectorsFault N (bytes_at self.now.buffers.now)
            self.now.place.now) }
    {
        match self.place.component_type {
            ComponentType::F32 => match accessor_at(self) {
                Ok(vectors) => Ok(Vectors::F32(vectors)),
                Err(fault) => Err(fault),
            },
            ComponentType::I8 => match accessor_at(self) {
                Ok(vectors) => Ok(Vectors::I8(vectors)),
                Err(fault) => Err(fault),
            },
            ComponentType::U8 => match accessor_at(self) {
                Ok(vectors) => Ok(Vectors::U8(vectors)),
                Err(fault) => Err(fault),
            },
            ComponentType::I16 => match accessor_at(self) {
                Ok(vectors) => Ok(Vectors::I16(vectors)),
                Err(fault) => Err(fault),
            },
            ComponentType::U16 | ComponentType::U32 => match accessor_at(self) {
                Ok(vectors) => Ok(Vectors::U16(vectors)),
                Err(fault) => Err(fault),
            },
        }
    }
}
