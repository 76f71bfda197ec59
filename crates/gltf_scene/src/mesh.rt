//! Meshes, their primitives and morph targets (glTF 2.0, sections 5.23 and 5.24).

ghost use Rattle.std.specs.Prelude.{◌≡◌, [], ◌∷◌, codes};
ghost use Rattle.gltf_base.specs.Lists.{meshes};
ghost use Rattle.gltf_schema.specs.WithDefaults.{with_defaults};
ghost use Rattle.gltf_schema.specs.Fields.{list_tree, attributes_tree, closed_object};
ghost use Rattle.gltf_scene.specs.Mesh.{mesh_rows, primitive_rows, mesh_members, primitive_members};

use crate::extensions;
pub use gltf_base::mesh::{
    LINE_LOOP, LINE_STRIP, LINES, Mode, POINTS, Semantic, TRIANGLE_FAN, TRIANGLE_STRIP, TRIANGLES,
    VALID_MODES, VALID_MORPH_TARGETS,
};
use gltf_base::validation::Checked;
use gltf_base::{Index, Listed, Real};
use gltf_parts::accessor::Accessor;
use gltf_parts::extras::Extras;
use gltf_parts::material::Material;
use std::collections::BTreeMap;

mod derived;

/// A set of primitives to render (glTF 2.0, section 5.23).
// What takes longest to drop comes last (docs/DECISIONS.md, "Order of fields").
#[derive(Clone, Debug)]
pub struct Mesh {
    pub name: Option<String>,
    /// The weights of the morph targets.
    pub weights: Option<Vec<Real>>,
    /// The primitives, each of which is rendered by itself.
    pub primitives: Vec<Primitive>,
    pub extensions: Option<extensions::mesh::Mesh>,
    pub extras: Extras,
}

// Written by tools/derive.py: begin
impl Drop for Mesh {
    #[inline(always)]
    fn drop(self) {
        let Mesh {
            name: _,
            weights: _,
            primitives: _,
            extensions: _,
            extras: _,
        } = self;
    }
}
// Written by tools/derive.py: end

impl Mesh {
    /// Returns a mesh of these primitives.
    #[tactic(auto, unfolding(crate::specs::Mesh::mesh_rows, crate::specs::Mesh::mesh_members))]
    pub fn new(primitives: Vec<Primitive>) -> Mesh
        ensures { mesh_members result ≡ with_defaults mesh_rows ((
          codes "primitives",
          list_tree (λ p. closed_object (primitive_members p)) primitives.items,
        )
            ∷ []) }
    {
        Mesh {
            primitives,
            name: None,
            weights: None,
            extensions: None,
            extras: None,
        }
    }
}

impl Listed for Mesh {
    ghost list = { meshes };
}

/// Geometry to render with one material (glTF 2.0, section 5.24).
// What takes longest to drop comes last (docs/DECISIONS.md, "Order of fields").
#[derive(Clone, Debug, Drop)]
pub struct Primitive {
    /// The vertex indices; if absent, the vertices are rendered in their order.
    pub indices: Option<Index<Accessor>>,
    pub material: Option<Index<Material>>,
    /// The topology type.
    pub mode: Checked<Mode>,
    /// The vertex attributes, by semantic.
    pub attributes: BTreeMap<Checked<Semantic>, Index<Accessor>>,
    /// The morph targets.
    pub targets: Option<Vec<MorphTarget>>,
    pub extensions: Option<extensions::mesh::Primitive>,
    pub extras: Extras,
}

impl Primitive {
    /// Returns a primitive of triangles with these attributes.
    #[tactic(auto, unfolding(crate::specs::Mesh::primitive_rows, crate::specs::Mesh::primitive_members))]
    pub fn new(attributes: BTreeMap<Checked<Semantic>, Index<Accessor>>) -> Primitive
        ensures { primitive_members result ≡ with_defaults primitive_rows (
            (codes "attributes", attributes_tree attributes)
            ∷ []) }
    {
        Primitive {
            attributes,
            mode: Checked::Valid(Mode::Triangles),
            indices: None,
            material: None,
            targets: None,
            extensions: None,
            extras: None,
        }
    }
}

/// A morph target: displacements of vertex attributes.
#[derive(Clone, Debug, Drop)]
pub struct MorphTarget {
    /// The displacements of `POSITION`.
    pub positions: Option<Index<Accessor>>,
    /// The displacements of `NORMAL`.
    pub normals: Option<Index<Accessor>>,
    /// The displacements of `TANGENT`.
    pub tangents: Option<Index<Accessor>>,
}
