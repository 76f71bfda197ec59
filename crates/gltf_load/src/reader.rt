//! The attributes and the indices of a primitive.

ghost use Rattle.std.specs.Prelude.{◌≡◌, option_map};
ghost use Rattle.gltf_base.specs.Indexes.{index_number};
ghost use Rattle.gltf_base.specs.Keys.{positions, normals, tangents, tex_coords, colors, joints, weights, key_eq};
ghost use Rattle.gltf_base.specs.Semantics.{semantic_key};
ghost use Rattle.gltf_accessors.specs.declared.format.Usage.TheVariants as usages;
ghost use Rattle.gltf_accessors.specs.Data.{IsAccessorAt};
ghost use Rattle.gltf_accessors.specs.Reads.{IsFloatsFault, IsVectorsAt, IsVectorsFault, IsColorsAt, IsColorsFault, IsJointsAt, IsJointsFault, IsIndicesAt, IsPrimitiveIndicesFault};
ghost use Rattle.gltf_load.specs.Read.{IsLayoutOf, ReadsNamed, attribute_at};

use crate::Document;
use crate::accessors::{Accessors, optional_with_number};
use crate::attribute::accessor_of;
use crate::fault::ReadFault;
use gltf_accessors::{Accessor, Colors, Joints, PrimitiveIndices, Vectors};
use gltf_base::mesh::Semantic;
use gltf_buffers::Buffers;
use gltf_layout::Layout;
use gltf_scene::mesh::Primitive;

/// Reads the attributes and the indices of a primitive (glTF 2.0, section 3.7.2.1). Each call
/// returns `None` if the primitive has no such attribute. It fails if there is no such accessor, if
/// the accessor's format is none of those that the attribute may have, or if its data is not what
/// it says. It takes time in proportion to the components, and no memory.
#[derive(Clone, Copy)]
pub struct Reader<'a> {
    pub(crate) accessors: Accessors<'a>,
    pub(crate) primitive: &'a Primitive,
}

impl<'a> Reader<'a> {
    /// Returns a reader of a primitive of a document, with the document's own layout, as
    /// `Layout::of` returns it, and the bytes of its buffers.
    pub fn of(
        document: &Document<'a>,
        layout: &'a Layout,
        buffers: &'a Buffers<'a>,
        primitive: &'a Primitive,
    ) -> Reader<'a>
        requires { IsLayoutOf document.now layout.now }
        ensures accessors { result.accessors.accessors.now ≡ document.now.accessors.now }
        ensures layout { result.accessors.layout.now ≡ layout.now }
        ensures buffers { result.accessors.buffers.now ≡ buffers.now }
        ensures primitive { result.primitive.now ≡ primitive.now }
    {
        Accessors::of(document, layout, buffers).reader(primitive)
    }

    /// The accessors of the document.
    pub fn accessors(&self) -> Accessors<'a>
        ensures { result ≡ self.now.accessors }
    {
        self.accessors
    }

    /// Returns the positions of the vertices.
    #[tactic(auto, using(crate::proofs::Reading::named_err))]
    pub fn read_positions(&self) -> Result<Option<Accessor<'a, f32, 3>>, ReadFault>
        ensures { ReadsNamed usages.Positions IsAccessorAt (IsFloatsFault 3) self.now.accessors
            (attribute_at positions self.now.primitive.now) result }
    {
        let Some(number) = accessor_of(&self.primitive.attributes, Semantic::Positions) else {
            return Ok(None);
        };
        match self.accessors.named(number) {
            Ok(data) => optional_with_number(number, data.positions()),
            Err(fault) => Err(fault),
        }
    }

    /// Returns the normals of the vertices.
    #[tactic(auto, using(crate::proofs::Reading::named_err))]
    pub fn read_normals(&self) -> Result<Option<Accessor<'a, f32, 3>>, ReadFault>
        ensures { ReadsNamed usages.Normals IsAccessorAt (IsFloatsFault 3) self.now.accessors
            (attribute_at normals self.now.primitive.now) result }
    {
        let Some(number) = accessor_of(&self.primitive.attributes, Semantic::Normals) else {
            return Ok(None);
        };
        match self.accessors.named(number) {
            Ok(data) => optional_with_number(number, data.normals()),
            Err(fault) => Err(fault),
        }
    }

    /// Returns the tangents of the vertices: x, y, z, and the handedness.
    #[tactic(auto, using(crate::proofs::Reading::named_err))]
    pub fn read_tangents(&self) -> Result<Option<Accessor<'a, f32, 4>>, ReadFault>
        ensures { ReadsNamed usages.Tangents IsAccessorAt (IsFloatsFault 4) self.now.accessors
            (attribute_at tangents self.now.primitive.now) result }
    {
        let Some(number) = accessor_of(&self.primitive.attributes, Semantic::Tangents) else {
            return Ok(None);
        };
        match self.accessors.named(number) {
            Ok(data) => optional_with_number(number, data.tangents()),
            Err(fault) => Err(fault),
        }
    }

    /// Returns texture coordinates of a set.
    #[tactic(auto, using(crate::proofs::Reading::named_err))]
    pub fn read_tex_coords(&self, set: u32) -> Result<Option<Vectors<'a, 2>>, ReadFault>
        ensures { ReadsNamed usages.TexCoords IsVectorsAt (IsVectorsFault 2) self.now.accessors
            (attribute_at (tex_coords set) self.now.primitive.now) result }
    {
        let Some(number) = accessor_of(&self.primitive.attributes, Semantic::TexCoords(set)) else {
            return Ok(None);
        };
        match self.accessors.named(number) {
            Ok(data) => optional_with_number(number, data.tex_coords()),
            Err(fault) => Err(fault),
        }
    }

    /// Returns the colors of a set.
    #[tactic(auto, using(crate::proofs::Reading::named_err))]
    pub fn read_colors(&self, set: u32) -> Result<Option<Colors<'a>>, ReadFault>
        ensures { ReadsNamed usages.Colors IsColorsAt IsColorsFault self.now.accessors
            (attribute_at (colors set) self.now.primitive.now) result }
    {
        let Some(number) = accessor_of(&self.primitive.attributes, Semantic::Colors(set)) else {
            return Ok(None);
        };
        match self.accessors.named(number) {
            Ok(data) => optional_with_number(number, data.colors()),
            Err(fault) => Err(fault),
        }
    }

    /// Returns the joints of a set.
    #[tactic(auto, using(crate::proofs::Reading::named_err))]
    pub fn read_joints(&self, set: u32) -> Result<Option<Joints<'a>>, ReadFault>
        ensures { ReadsNamed usages.Joints IsJointsAt IsJointsFault self.now.accessors
            (attribute_at (joints set) self.now.primitive.now) result }
    {
        let Some(number) = accessor_of(&self.primitive.attributes, Semantic::Joints(set)) else {
            return Ok(None);
        };
        match self.accessors.named(number) {
            Ok(data) => optional_with_number(number, data.joints()),
            Err(fault) => Err(fault),
        }
    }

    /// Returns the weights of the joints of a set.
    #[tactic(auto, using(crate::proofs::Reading::named_err))]
    pub fn read_weights(&self, set: u32) -> Result<Option<Vectors<'a, 4>>, ReadFault>
        ensures { ReadsNamed usages.Weights IsVectorsAt (IsVectorsFault 4) self.now.accessors
            (attribute_at (weights set) self.now.primitive.now) result }
    {
        let Some(number) = accessor_of(&self.primitive.attributes, Semantic::Weights(set)) else {
            return Ok(None);
        };
        match self.accessors.named(number) {
            Ok(data) => optional_with_number(number, data.weights()),
            Err(fault) => Err(fault),
        }
    }

    /// Returns the indices. If there are none, the vertices are used in order (section 5.24.2).
    #[tactic(auto, using(crate::proofs::Reading::named_err))]
    pub fn read_indices(&self) -> Result<Option<PrimitiveIndices<'a>>, ReadFault>
        ensures { ReadsNamed usages.Indices IsIndicesAt IsPrimitiveIndicesFault self.now.accessors
            (option_map index_number self.now.primitive.now.indices) result }
    {
        let Some(index) = self.primitive.indices else {
            return Ok(None);
        };
        match self.accessors.named(index.number()) {
            Ok(data) => optional_with_number(index.number(), data.indices()),
            Err(fault) => Err(fault),
        }
    }
}
