//! What the meshes of a document hold, as the Khronos glTF-Validator counts it.

ghost use Rattle.std.specs.Prelude.{◌≡◌};
ghost use Rattle.gltf_base.specs.Semantics.{checked_key};
ghost use Rattle.gltf_findings_lines.specs.Geometry.{corner_count, count_at, count_if, geometry_of, no_geometry, sets_of, triangle_count, with_attribute, with_primitive, with_primitives};

use gltf_base::Index;
use gltf_base::mesh::{Mode, Semantic};
use gltf_base::validation::Checked;
use gltf_parts::accessor::Accessor;
use gltf_scene::mesh::{Mesh, Primitive};

/// What the meshes of a document hold. A number stops at the largest of 64 bits.
#[derive(Clone, Copy)]
pub struct Geometry {
    /// How many primitives there are.
    pub draw_calls: u64,
    /// How many vertices they have: elements of the accessors of their positions.
    pub vertices: u64,
    /// How many triangles they are made of.
    pub triangles: u64,
    /// The most attributes of a primitive.
    pub attributes: usize,
    /// The most sets of texture coordinates of a primitive.
    pub tex_coords: u64,
    /// The most joints that a vertex may have: four for each set.
    pub influences: u64,
    pub has_morph_targets: bool,
}

impl Geometry {
    /// What meshes hold.
    pub fn of(meshes: &[Mesh], accessors: &[Accessor]) -> Geometry
        ensures { result ≡ geometry_of accessors.now meshes.now }
    {
        let mut geometry = Geometry::new();
        for mesh in meshes {
            geometry.add_all(&mesh.primitives, accessors);
        }
        geometry
    }

    /// No primitive.
    fn new() -> Geometry
        ensures { result ≡ no_geometry }
    {
        Geometry {
            draw_calls: 0,
            vertices: 0,
            triangles: 0,
            attributes: 0,
            tex_coords: 0,
            influences: 0,
            has_morph_targets: false,
        }
    }

    /// Adds primitives.
    fn add_all(&mut self, primitives: &[Primitive], accessors: &[Accessor])
        ensures { self.new ≡ with_primitives accessors.now self.old primitives.now }
    {
        for primitive in primitives {
            *self = self.with(primitive, accessors);
        }
    }

    /// What there is with one more primitive.
    fn with(&self, primitive: &Primitive, accessors: &[Accessor]) -> Geometry
        ensures { result ≡ with_primitive accessors.now self.now primitive.now }
    {
        let sets = Sets::of(primitive);
        let vertices = count_if(sets.positions, accessors);
        let corners = corner_count(primitive.indices, vertices, accessors);
        let triangles = triangle_count(primitive.mode, corners);
        Geometry {
            draw_calls: self.draw_calls.saturating_add(1),
            vertices: self.vertices.saturating_add(vertices),
            triangles: self.triangles.saturating_add(triangles),
            attributes: self.attributes.max(primitive.attributes.len()),
            tex_coords: self.tex_coords.max(sets.tex_coords),
            influences: self.influences.max(sets.joints.saturating_mul(4)),
            has_morph_targets: self.has_morph_targets || primitive.targets.is_some(),
        }
    }
}

/// The attributes of a primitive that are counted.
#[derive(Clone, Copy)]
struct Sets {
    /// The number of the accessor of the positions.
    positions: Option<u32>,
    tex_coords: u64,
    joints: u64,
}

impl Sets {
    /// The attributes of a primitive.
    fn of(primitive: &Primitive) -> Sets
        ensures { result ≡ sets_of primitive.now }
    {
        let mut sets = Sets {
            positions: None,
            tex_coords: 0,
            joints: 0,
        };
        for (semantic, index) in &primitive.attributes {
            sets = sets.with(semantic, index.number());
        }
        sets
    }

    /// What there is with one more attribute.
    fn with(self, semantic: &Checked<Semantic>, number: u32) -> Sets
        ensures { result ≡ with_attribute (checked_key semantic.now) number self }
    {
        let Sets {
            positions,
            tex_coords,
            joints,
        } = self;
        match semantic {
            Checked::Valid(Semantic::Positions) => Sets {
                positions: Some(number),
                tex_coords,
                joints,
            },
            Checked::Valid(Semantic::TexCoords(_)) => Sets {
                positions,
                tex_coords: tex_coords.saturating_add(1),
                joints,
            },
            Checked::Valid(Semantic::Joints(_)) => Sets {
                positions,
                tex_coords,
                joints: joints.saturating_add(1),
            },
            _ => self,
        }
    }
}

/// How many elements the accessor with a number has, and 0 if there is none.
fn count_at(number: u32, accessors: &[Accessor]) -> u64
    ensures { result ≡ count_at accessors.now number }
{
    // derived
    match accessors.get(number as usize) {
        Some(accessor) => accessor.count.0,
        None => 0,
    }
}

/// The same, and 0 without a number.
fn count_if(number: Option<u32>, accessors: &[Accessor]) -> u64
    ensures { result ≡ count_if accessors.now number }
{
    // derived
    match number {
        Some(number) => count_at(number, accessors),
        None => 0,
    }
}

/// How many vertices make triangles: those that the indices name, or all.
fn corner_count(indices: Option<Index<Accessor>>, vertices: u64, accessors: &[Accessor]) -> u64
    ensures { result ≡ corner_count accessors.now indices vertices }
{
    // derived
    match indices {
        Some(indices) => count_at(indices.number(), accessors),
        None => vertices,
    }
}

/// How many triangles so many vertices make (glTF 2.0, section 3.7.2.1).
fn triangle_count(mode: Checked<Mode>, vertices: u64) -> u64
    ensures { result ≡ triangle_count mode vertices }
{
    match mode {
        Checked::Valid(Mode::Triangles) => vertices / 3,
        Checked::Valid(Mode::TriangleStrip) | Checked::Valid(Mode::TriangleFan) =>
            vertices.saturating_sub(2),
        _ => 0,
    }
}
