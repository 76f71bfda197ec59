//! The indices of a primitive.

ghost use Rattle.std.specs.Prelude.{◌≡◌, ◌<◌, ◌↔◌, IsTrue, IfErr, IfOk};
ghost use Rattle.gltf_accessors.specs.Indices.{IsVertex};
ghost use Rattle.gltf_accessors.specs.Vectors.{indices_len, indices_type, IsIndex, NamesVertex, NamesNoVertex, NameVertices, IsVertexFault};

use crate::{Accessor, IndexType, VertexFault};

/// The indices of a primitive, by how they are stored (glTF 2.0, section 5.24.2).
#[derive(Debug, Drop)]
pub enum PrimitiveIndices<'a> {
    /// Numbers of 8 bits.
    U8(Accessor<'a, u8, 1>),
    /// Numbers of 16 bits.
    U16(Accessor<'a, u16, 1>),
    /// Numbers of 32 bits.
    U32(Accessor<'a, u32, 1>),
}

impl<'a> PrimitiveIndices<'a> {
    /// How many indices there are.
    #[inline(always)]
    pub fn len(&self) -> u64
        ensures { result ≡ indices_len self.now }
    {
        match self {
            PrimitiveIndices::U8(indices) => indices.len(),
            PrimitiveIndices::U16(indices) => indices.len(),
            PrimitiveIndices::U32(indices) => indices.len(),
        }
    }

    /// The type as which they are stored.
    #[inline(always)]
    pub fn index_type(&self) -> IndexType
        ensures { result ≡ indices_type self.now }
    {
        match self {
            PrimitiveIndices::U8(_) => IndexType::U8,
            PrimitiveIndices::U16(_) => IndexType::U16,
            PrimitiveIndices::U32(_) => IndexType::U32,
        }
    }

    /// An index.
    #[inline(always)]
    pub fn get(&self, place: u64) -> u32
        requires { place < indices_len self.now }
        ensures { IsIndex self.now place result }
    {
        match self {
            PrimitiveIndices::U8(indices) => u32::from(indices.get(place)[0]),
            PrimitiveIndices::U16(indices) => u32::from(indices.get(place)[0]),
            PrimitiveIndices::U32(indices) => indices.get(place)[0],
        }
    }

    /// Checks that every index names one of so many vertices. If `restarts`, the greatest value of
    /// the type is let through, which restarts a primitive. Fails with the first other index.
    pub fn check_vertices(&self, vertices: u64, restarts: bool) -> Result<(), VertexFault>
        ensures vertices { IfOk result (λ _. NameVertices self.now restarts vertices
            (indices_len self.now)) }
        // What the fault says is so, and every index before names a vertex.
        ensures fault { IfErr result (IsVertexFault self.now restarts vertices) }
    {
        for place in 0..self.len() {
            if let Err(fault) = self.check_vertex(place, vertices, restarts) {
                return Err(fault);
            }
        }
        Ok(())
    }

    /// Checks one index.
    #[inline(always)]
    fn check_vertex(&self, place: u64, vertices: u64, restarts: bool) -> Result<(), VertexFault>
        requires { place < indices_len self.now }
        ensures vertex { IfOk result (λ _. NamesVertex self.now restarts vertices place) }
        ensures place { IfErr result (λ f. f.place ≡ place) }
        ensures fault { IfErr result (NamesNoVertex self.now restarts vertices) }
    {
        let index = self.get(place);
        if is_vertex(self.index_type(), index, vertices, restarts) {
            Ok(())
        } else {
            Err(VertexFault { place, index })
        }
    }
}

/// Whether an index names one of so many vertices, or restarts a primitive if it may.
#[inline(always)]
fn is_vertex(index_type: IndexType, index: u32, vertices: u64, restarts: bool) -> bool
    ensures { IsTrue result ↔ IsVertex index_type restarts vertices index }
{
    (index as u64) < vertices || (restarts && index == index_type.restart())
}
