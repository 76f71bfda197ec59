//! Written by tools/derive.py from crates/gltf_scene/src/mesh.rt and
//! crates/gltf_scene/specs/Mesh.antt. Do not edit.

ghost use Rattle.gltf_scene.specs.Mesh.{mesh_members, mesh_rows, morph_target_members, morph_target_rows, primitive_members, primitive_rows};
ghost use Rattle.gltf_scene.specs.MeshDerived.{mesh_height, mesh_sound, morph_target_height, morph_target_sound, primitive_height, primitive_sound};
ghost use Rattle.gltf_schema.specs.Defaults.{defaults};
ghost use Rattle.gltf_schema.specs.Kind.{needs_positions};
ghost use Rattle.serde_json.specs.Data.{no_members};
ghost use Rattle.std.proofs.Common.{lit≤};
ghost use Rattle.std.specs.Prelude.{false, ◌≡◌};

use super::{Mesh, MorphTarget, Primitive};
use gltf_base::mesh::Mode;
use gltf_base::validation::Checked;
use gltf_schema::{Object, ReadRows, WriteRows};
use std::alloc::Global;
use std::collections::BTreeMap;

impl MorphTarget {
    /// Returns a morph target without displacements.
    #[tactic(auto, unfolding(crate::specs::Mesh::morph_target_rows, crate::specs::Mesh::morph_target_members))]
    pub fn new() -> MorphTarget
        ensures { morph_target_members result ≡ defaults morph_target_rows }
    {
        MorphTarget {
            positions: None,
            normals: None,
            tangents: None,
        }
    }
}

impl Object for MorphTarget {
    ghost rows = { morph_target_rows };

    ghost keeps = { false };

    ghost members = { morph_target_members };

    ghost unknown = { λ _. no_members };

    ghost kind_is_sound = { morph_target_sound };

    ghost height = { 1 };

    ghost height_bounds_kind = { (morph_target_height.1, lit≤ tt) };

    #[tactic(auto, unfolding(crate::specs::Mesh::morph_target_rows, crate::specs::Mesh::morph_target_members))]
    fn start(_alloc: Global) -> MorphTarget {
        MorphTarget::new()
    }

    #[tactic(auto, unfolding(crate::specs::Mesh::morph_target_rows))]
    fn count_required() -> usize {
        0
    }

    fn read_rows<R: ReadRows>(&mut self, from: &mut R) {
        from.optional("POSITION", &mut self.positions);
        from.optional("NORMAL", &mut self.normals);
        from.optional("TANGENT", &mut self.tangents);
    }

    fn write_members<W: WriteRows>(&self, to: &mut W) {
        to.optional("NORMAL", &self.normals);
        to.optional("POSITION", &self.positions);
        to.optional("TANGENT", &self.tangents);
    }
}

impl Object for Primitive {
    ghost rule = { needs_positions };

    ghost rows = { primitive_rows };

    ghost keeps = { false };

    ghost members = { primitive_members };

    ghost unknown = { λ _. no_members };

    ghost kind_is_sound = { primitive_sound };

    ghost height = { 3 };

    ghost height_bounds_kind = { (primitive_height.1, lit≤ tt) };

    #[tactic(auto, unfolding(crate::specs::Mesh::primitive_rows, crate::specs::Mesh::primitive_members))]
    fn start(alloc: Global) -> Primitive {
        Primitive {
            attributes: BTreeMap::new(alloc),
            extensions: None,
            extras: None,
            indices: None,
            material: None,
            mode: Checked::Valid(Mode::Triangles),
            targets: None,
        }
    }

    #[tactic(auto, unfolding(crate::specs::Mesh::primitive_rows))]
    fn count_required() -> usize {
        1
    }

    fn read_rows<R: ReadRows>(&mut self, from: &mut R) {
        from.required("attributes", &mut self.attributes);
        from.optional("extensions", &mut self.extensions);
        from.optional("extras", &mut self.extras);
        from.optional("indices", &mut self.indices);
        from.optional("material", &mut self.material);
        from.or_default("mode", &mut self.mode);
        from.optional("targets", &mut self.targets);
    }

    fn write_members<W: WriteRows>(&self, to: &mut W) {
        to.always("attributes", &self.attributes);
        to.optional("extensions", &self.extensions);
        to.optional("extras", &self.extras);
        to.optional("indices", &self.indices);
        to.optional("material", &self.material);
        to.unless("mode", &self.mode, Checked::Valid(Mode::Triangles));
        to.optional("targets", &self.targets);
    }
}

impl Object for Mesh {
    ghost rows = { mesh_rows };

    ghost keeps = { false };

    ghost members = { mesh_members };

    ghost unknown = { λ _. no_members };

    ghost kind_is_sound = { mesh_sound };

    ghost height = { 5 };

    ghost height_bounds_kind = { (mesh_height.1, lit≤ tt) };

    #[tactic(auto, unfolding(crate::specs::Mesh::mesh_rows, crate::specs::Mesh::mesh_members))]
    fn start(alloc: Global) -> Mesh {
        Mesh {
            extensions: None,
            extras: None,
            name: None,
            primitives: Vec::new(alloc),
            weights: None,
        }
    }

    #[tactic(auto, unfolding(crate::specs::Mesh::mesh_rows))]
    fn count_required() -> usize {
        1
    }

    fn read_rows<R: ReadRows>(&mut self, from: &mut R) {
        from.optional("extensions", &mut self.extensions);
        from.optional("extras", &mut self.extras);
        from.optional("name", &mut self.name);
        from.required("primitives", &mut self.primitives);
        from.optional("weights", &mut self.weights);
    }

    fn write_members<W: WriteRows>(&self, to: &mut W) {
        to.optional("extensions", &self.extensions);
        to.optional("extras", &self.extras);
        to.optional("name", &self.name);
        to.always("primitives", &self.primitives);
        to.optional("weights", &self.weights);
    }
}
