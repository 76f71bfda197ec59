//! The accessors of a document, and their data.

ghost use Rattle.std.specs.Prelude.{◌≡◌, IfOk, IfErr, IfSome, None, option_map};
ghost use Rattle.gltf_base.specs.Indexes.{index_number};
ghost use Rattle.gltf_accessors.specs.declared.data.AccessorData.{AccessorData};
ghost use Rattle.gltf_accessors.specs.declared.format.Usage.TheVariants as usages;
ghost use Rattle.gltf_accessors.specs.Data.{IsAccessorAt};
ghost use Rattle.gltf_accessors.specs.Formats.{usage_of};
ghost use Rattle.gltf_accessors.specs.Reads.{IsFloatsFault, IsOutputsAt, IsOutputsFault};
ghost use Rattle.gltf_load.specs.Read.{IsLayoutOf, IsDataOf, IsMissing, IsMissingFault, ReadsAt, ReadsNamed, with_number, optional_with_number};

use crate::Document;
use crate::fault::ReadFault;
use crate::reader::Reader;
use gltf_accessors::{AccessFault, AccessorData, Outputs};
use gltf_base::Index;
use gltf_base::animation::Property;
use gltf_buffers::Buffers;
use gltf_layout::Layout;
use gltf_parts::accessor::Accessor;
use gltf_scene::animation::Sampler;
use gltf_scene::mesh::{MorphTarget, Primitive};
use gltf_scene::skin::Skin;

/// Elements of N floats.
type Floats<'a, const N: usize> = gltf_accessors::Accessor<'a, f32, N>;

/// The accessors of a document, where their elements lie, and the bytes in which they do. Each call
/// that reads one fails if there is no such accessor, if its usage doesn't allow its format, or if
/// its data is not what it says.
#[derive(Clone, Copy)]
pub struct Accessors<'a> {
    accessors: &'a [Accessor],
    layout: &'a Layout,
    buffers: &'a Buffers<'a>,
}

impl<'a> Accessors<'a> {
    /// Returns the accessors of a document, with its own layout, as `Layout::of` returns it, and
    /// the bytes of its buffers.
    pub fn of(
        document: &Document<'a>,
        layout: &'a Layout,
        buffers: &'a Buffers<'a>,
    ) -> Accessors<'a>
        requires { IsLayoutOf document.now layout.now }
        ensures accessors { result.accessors.now ≡ document.now.accessors.now }
        ensures layout { result.layout.now ≡ layout.now }
        ensures buffers { result.buffers.now ≡ buffers.now }
    {
        Accessors {
            accessors: document.accessors,
            layout,
            buffers,
        }
    }

    /// Returns a reader of a primitive of the document.
    pub fn reader(&self, primitive: &'a Primitive) -> Reader<'a>
        ensures accessors { result.accessors ≡ self.now }
        ensures primitive { result.primitive.now ≡ primitive.now }
    {
        Reader {
            accessors: *self,
            primitive,
        }
    }

    /// Returns an accessor with its data. `None` if there is no such accessor.
    pub fn data(&self, accessor: u32) -> Option<AccessorData<'a>>
        ensures found { IfSome result (IsDataOf self.now accessor) }
        ensures none { result ≡ None → IsMissing self.now accessor }
    {
        let Some(found) = self.accessors.get(accessor as usize) else {
            return None;
        };
        let Some(place) = self.layout.place(accessor as usize) else {
            return None;
        };
        Some(AccessorData {
            place,
            normalized: found.normalized,
            buffers: self.buffers,
        })
    }

    /// Returns what a morph target adds to positions (glTF 2.0, section 3.7.2.2). `None` if it adds
    /// nothing.
    pub fn read_morph_positions(
        &self,
        target: &MorphTarget,
    ) -> Result<Option<Floats<'a, 3>>, ReadFault>
        ensures { ReadsNamed usages.Displacements IsAccessorAt (IsFloatsFault 3) self.now
            (option_map index_number target.now.positions) result }
    {
        self.read_displacements(target.positions)
    }

    /// Returns what a morph target adds to normals. `None` if it adds nothing.
    pub fn read_morph_normals(
        &self,
        target: &MorphTarget,
    ) -> Result<Option<Floats<'a, 3>>, ReadFault>
        ensures { ReadsNamed usages.Displacements IsAccessorAt (IsFloatsFault 3) self.now
            (option_map index_number target.now.normals) result }
    {
        self.read_displacements(target.normals)
    }

    /// Returns what a morph target adds to tangents. `None` if it adds nothing.
    pub fn read_morph_tangents(
        &self,
        target: &MorphTarget,
    ) -> Result<Option<Floats<'a, 3>>, ReadFault>
        ensures { ReadsNamed usages.Displacements IsAccessorAt (IsFloatsFault 3) self.now
            (option_map index_number target.now.tangents) result }
    {
        self.read_displacements(target.tangents)
    }

    /// Returns the inverse bind matrix of each joint of a skin, column by column (section 5.28.1).
    /// `None` if the skin has none: each is the identity.
    #[tactic(auto, using(crate::proofs::Reading::named_err))]
    pub fn read_inverse_bind_matrices(
        &self,
        skin: &Skin,
    ) -> Result<Option<Floats<'a, 16>>, ReadFault>
        ensures { ReadsNamed usages.InverseBindMatrices IsAccessorAt (IsFloatsFault 16) self.now
            (option_map index_number skin.now.inverse_bind_matrices) result }
    {
        let Some(index) = skin.inverse_bind_matrices else {
            return Ok(None);
        };
        match self.named(index.number()) {
            Ok(data) => optional_with_number(index.number(), data.inverse_bind_matrices()),
            Err(fault) => Err(fault),
        }
    }

    /// Returns the times of the keyframes of a sampler, in seconds (section 5.8.1).
    #[tactic(auto, using(crate::proofs::Reading::at_err))]
    pub fn read_inputs(&self, sampler: &Sampler) -> Result<Floats<'a, 1>, ReadFault>
        ensures { ReadsAt usages.Inputs IsAccessorAt (IsFloatsFault 1) self.now
            (index_number sampler.now.input) result }
    {
        let number = sampler.input.number();
        match self.named(number) {
            Ok(data) => with_number(number, data.inputs()),
            Err(fault) => Err(fault),
        }
    }

    /// Returns the values of a property at the keyframes of a sampler (sections 3.11 and 5.8.3).
    #[tactic(auto, using(crate::proofs::Reading::at_err))]
    pub fn read_outputs(
        &self,
        sampler: &Sampler,
        property: Property,
    ) -> Result<Outputs<'a>, ReadFault>
        ensures { ReadsAt (usage_of property) (IsOutputsAt property) (IsOutputsFault property)
            self.now (index_number sampler.now.output) result }
    {
        let number = sampler.output.number();
        match self.named(number) {
            Ok(data) => with_number(number, data.outputs(property)),
            Err(fault) => Err(fault),
        }
    }

    /// The accessor that a morph target names.
    #[tactic(auto, using(crate::proofs::Reading::named_err))]
    fn read_displacements(
        &self,
        index: Option<Index<Accessor>>,
    ) -> Result<Option<Floats<'a, 3>>, ReadFault>
        ensures { ReadsNamed usages.Displacements IsAccessorAt (IsFloatsFault 3) self.now
            (option_map index_number index) result }
    {
        let Some(index) = index else {
            return Ok(None);
        };
        match self.named(index.number()) {
            Ok(data) => optional_with_number(index.number(), data.displacements()),
            Err(fault) => Err(fault),
        }
    }

    /// The data of an accessor that the document names.
    pub(crate) fn named(&self, accessor: u32) -> Result<AccessorData<'a>, ReadFault>
        ensures found { IfOk result (IsDataOf self.now accessor) }
        ensures none { IfErr result (IsMissingFault self.now accessor) }
    {
        match self.data(accessor) {
            Some(data) => Ok(data),
            None => Err(ReadFault::NoSuchAccessor { accessor }),
        }
    }
}

/// What was read of an accessor, with its number in a fault.
pub fn with_number<X>(accessor: u32, read: Result<X, AccessFault>) -> Result<X, ReadFault>
    ensures { result ≡ with_number accessor read }
{
    match read {
        Ok(elements) => Ok(elements),
        Err(fault) => Err(ReadFault::Accessor { accessor, fault }),
    }
}

/// The same for an accessor that needn't be named.
pub fn optional_with_number<X>(
    accessor: u32,
    read: Result<X, AccessFault>,
) -> Result<Option<X>, ReadFault>
    ensures { result ≡ optional_with_number accessor read }
{
    match read {
        Ok(elements) => Ok(Some(elements)),
        Err(fault) => Err(ReadFault::Accessor { accessor, fault }),
    }
}
