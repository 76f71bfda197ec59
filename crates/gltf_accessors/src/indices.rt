//! Indices as numbers.

ghost use Rattle.std.specs.Prelude.{◌≡◌, ◌<◌, ◌↔◌, ℕ, IsTrue, IfOk, IfErr, IsOk};
ghost use Rattle.gltf_accessors.specs.declared.index_type.IndexType.{IndexType};
ghost use Rattle.gltf_accessors.specs.Indices.{IsIndexType, IsIndicesFault, index_size, index_at, IsVertex, AreVertices, IsVertexFault};

use crate::component::Component;
use crate::elements::Elements;
use crate::fault::{IndicesFault, VertexFault};
use crate::index_type::IndexType;
use gltf_base::accessor::ComponentType;

/// Elements that are indices.
#[derive(Clone, Copy, Debug)]
pub struct Indices<'a> {
    pub(crate) elements: Elements<'a>,
    pub(crate) kind: IndexType,
    pub(crate) ghost size: { elements.span.size ≡ index_size kind },
}

impl<'a> Indices<'a> {
    /// Returns elements as indices. Fails if indices have no such type, or if an element has
    /// another size.
    pub fn of(
        elements: Elements<'a>,
        component_type: ComponentType,
    ) -> Result<Indices<'a>, IndicesFault>
        ensures elements { IfOk result (λ x. x.elements ≡ elements.entry) }
        ensures kind { IfOk result (λ x. IsIndexType component_type x.kind) }
        // What the fault says is so.
        ensures fault { IfErr result
            (IsIndicesFault component_type elements.entry.span.size) }
        // Elements of the type's size are returned.
        ensures only { (t : IndexType) → IsIndexType component_type t
            → elements.entry.span.size ≡ index_size t → IsOk result }
    {
        let kind = match component_type {
            ComponentType::U8 => IndexType::U8,
            ComponentType::U16 => IndexType::U16,
            ComponentType::U32 => IndexType::U32,
            _ => return Err(IndicesFault::NoIndexType),
        };
        if elements.size() != kind.size() {
            return Err(IndicesFault::Size);
        }
        Ok(Indices { elements, kind })
    }

    /// How many indices there are.
    #[inline(always)]
    pub fn len(&self) -> u64
        ensures { result ≡ self.now.elements.span.count }
    {
        self.elements.len()
    }

    /// An index.
    #[inline(always)]
    pub fn get(&self, place: u64) -> u32
        requires { place < self.now.elements.span.count }
        ensures { result ≡ index_at self.now.kind self.now.elements.bytes.now
            self.now.elements.span place }
    {
        let start = self.elements.start(place);
        match self.kind {
            IndexType::U8 => <u8 as Component>::read(self.elements.bytes, start) as u32,
            IndexType::U16 => <u16 as Component>::read(self.elements.bytes, start) as u32,
            IndexType::U32 => <u32 as Component>::read(self.elements.bytes, start),
        }
    }
}

/// Checks that every index names one of so many vertices. If `restarts`, the greatest value of the
/// type is let through, which restarts a primitive. Fails with the first other index.
pub fn indices_are_vertices(
    indices: &Indices<'_>,
    vertices: u64,
    restarts: bool,
) -> Result<(), VertexFault>
    ensures only { IsOk result ↔ AreVertices indices.now.kind indices.now.elements.bytes.now
        indices.now.elements.span restarts vertices }
    // What the fault says is so, and every index before names a vertex.
    ensures fault { IfErr result (IsVertexFault indices.now.kind indices.now.elements.bytes.now
        indices.now.elements.span restarts vertices) }
{
    for place in 0..indices.len() {
        let index = indices.get(place);
        if !is_vertex(indices.kind, index, vertices, restarts) {
            return Err(VertexFault { place, index });
        }
    }
    Ok(())
}

/// Whether an index names one of so many vertices, or restarts a primitive if it may.
#[inline(always)]
fn is_vertex(kind: IndexType, index: u32, vertices: u64, restarts: bool) -> bool
    ensures { IsTrue result ↔ IsVertex kind restarts vertices index }
{
    (index as u64) < vertices || (restarts && index == kind.restart())
}
