//! Scenes and their nodes (glTF 2.0, sections 5.25 and 5.27).

ghost use Rattle.std.specs.Prelude.{◌≡◌, [], ◌∷◌, refl, codes, map, option_map};
ghost use Rattle.gltf_base.specs.Lists.{nodes, scenes};
ghost use Rattle.gltf_schema.specs.Kind.{Numbers};
ghost use Rattle.gltf_schema.specs.WithDefaults.{with_defaults};
ghost use Rattle.gltf_schema.specs.Floats.{real_float, floats_or};
ghost use Rattle.gltf_schema.specs.Fields.{index_tree, list_tree};
ghost use Rattle.gltf_scene.specs.Scene.{scene_rows, scene_members, unit_quaternion_tree, no_rotation};

use crate::camera::Camera;
use crate::extensions;
use crate::mesh::Mesh;
use crate::skin::Skin;
use gltf_base::{Index, Listed, Real};
use gltf_parts::extras::Extras;
use gltf_schema::{Error, Refusal, Schema, Shape, Source, Stream, Strip, Tabled, Unread};
use serde_json::Value;
use std::alloc::{AllocError, Global};

mod derived;

/// A node in the node hierarchy (glTF 2.0, section 5.25).
// What takes longest to drop comes last (docs/DECISIONS.md, "Order of fields").
#[derive(Clone, Debug)]
pub struct Node {
    pub camera: Option<Index<Camera>>,
    pub mesh: Option<Index<Mesh>>,
    /// The skin of the mesh.
    pub skin: Option<Index<Skin>>,
    pub name: Option<String>,
    /// The child nodes.
    pub children: Option<Vec<Index<Node>>>,
    /// The weights of the mesh's morph targets; if absent, those of the mesh apply.
    pub weights: Option<Vec<Real>>,
    /// The local transform, as a 4x4 matrix in column-major order.
    pub matrix: Option<[Real; 16]>,
    /// The local rotation.
    pub rotation: Option<UnitQuaternion>,
    /// The local scale along the axes.
    pub scale: Option<[Real; 3]>,
    /// The local translation along the axes, in meters.
    pub translation: Option<[Real; 3]>,
    pub extensions: Option<extensions::scene::Node>,
    pub extras: Extras,
}

// Written by tools/derive.py: begin
impl Drop for Node {
    #[inline(always)]
    fn drop(self) {
        let Node {
            camera: _,
            mesh: _,
            skin: _,
            name: _,
            children: _,
            weights: _,
            matrix: _,
            rotation: _,
            scale: _,
            translation: _,
            extensions: _,
            extras: _,
        } = self;
    }
}
// Written by tools/derive.py: end

impl Node {
    /// The numbers that an absent `translation` means.
    pub const DEFAULT_TRANSLATION: [f64; 3] = [0.0; 3];

    /// The numbers that an absent `rotation` means: x, y, z, w.
    pub const DEFAULT_ROTATION: [f64; 4] = [0.0, 0.0, 0.0, 1.0];

    /// The numbers as floats, or [`Node::DEFAULT_ROTATION`] if they are absent.
    pub fn rotation_values(&self) -> [f64; 4]
        ensures { result
            ≡ floats_or Self.DEFAULT_ROTATION (option_map (λ q. q.0) self.now.rotation) }
    {
        match &self.rotation {
            Some(rotation) => rotation.values(),
            None => Node::DEFAULT_ROTATION,
        }
    }

    /// The numbers that an absent `scale` means.
    pub const DEFAULT_SCALE: [f64; 3] = [1.0; 3];
}

impl Listed for Node {
    ghost list = { nodes };
}

/// The root nodes of a scene (glTF 2.0, section 5.27).
// What takes longest to drop comes last (docs/DECISIONS.md, "Order of fields").
#[derive(Clone, Debug)]
pub struct Scene {
    pub name: Option<String>,
    /// The root nodes.
    pub nodes: Vec<Index<Node>>,
    pub extensions: Option<extensions::scene::Scene>,
    pub extras: Extras,
}

// Written by tools/derive.py: begin
impl Drop for Scene {
    #[inline(always)]
    fn drop(self) {
        let Scene {
            name: _,
            nodes: _,
            extensions: _,
            extras: _,
        } = self;
    }
}
// Written by tools/derive.py: end

impl Scene {
    /// Returns a scene with these root nodes.
    #[tactic(auto, unfolding(crate::specs::Scene::scene_rows, crate::specs::Scene::scene_members))]
    pub fn new(nodes: Vec<Index<Node>>) -> Scene
        ensures { scene_members result ≡ with_defaults scene_rows (
            (codes "nodes", list_tree index_tree nodes.items)
            ∷ []) }
    {
        Scene {
            nodes,
            name: None,
            extensions: None,
            extras: None,
        }
    }
}

impl Listed for Scene {
    ghost list = { scenes };
}

/// A rotation as a unit quaternion: x, y, z, w.
#[derive(Clone, Debug, Drop)]
pub struct UnitQuaternion(pub [Real; 4]);

impl UnitQuaternion {
    /// The numbers as floats.
    pub fn values(&self) -> [f64; 4]
        ensures { result ≡ map real_float self.now.0 }
    {
        let [x, y, z, w] = &self.0;
        [x.as_f64(), y.as_f64(), z.as_f64(), w.as_f64()]
    }
}

impl Default for UnitQuaternion {
    ghost is_default = { λ q. unit_quaternion_tree q ≡ no_rotation };

    /// Returns the identity rotation.
    fn default() -> UnitQuaternion {
        UnitQuaternion([
            Real::from_i64(0),
            Real::from_i64(0),
            Real::from_i64(0),
            Real::from_i64(1),
        ])
    }
}

impl Tabled for UnitQuaternion {
    ghost kind = { Numbers 4 };

    ghost tree = { unit_quaternion_tree };
}

impl Schema for UnitQuaternion {
    ghost is_never_absent = { λ _. refl };

    fn decode_from<S: Source>(alloc: Global, source: S) -> Result<UnitQuaternion, Error> {
        Ok(UnitQuaternion(Schema::decode_from(alloc, source)?))
    }

    fn from_token<'a>(from: &mut Stream<'a>) -> Result<UnitQuaternion, Unread> {
        Ok(UnitQuaternion(Schema::from_token(from)?))
    }

    fn decode_or_place<S: Source>(alloc: Global, source: S) -> Result<UnitQuaternion, Refusal> {
        Ok(UnitQuaternion(Schema::decode_or_place(alloc, source)?))
    }

    fn encode(&self, alloc: Global) -> Result<Value, Error> {
        self.0.encode(alloc)
    }

    fn strip(&mut self, _what: Strip) {}

    fn outline(alloc: Global, nodes: &mut Vec<Shape>) -> Result<usize, AllocError> {
        <[Real; 4]>::outline(alloc, nodes)
    }
}
