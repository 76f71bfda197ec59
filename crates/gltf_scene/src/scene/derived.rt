//! Written by tools/derive.py from crates/gltf_scene/src/scene.rt and
//! crates/gltf_scene/specs/Scene.antt. Do not edit.

ghost use Rattle.gltf_scene.specs.Scene.{node_members, node_rows, scene_members, scene_rows};
ghost use Rattle.gltf_scene.specs.SceneDerived.{node_height, node_sound, scene_height, scene_sound};
ghost use Rattle.gltf_schema.specs.Defaults.{defaults};
ghost use Rattle.gltf_schema.specs.Floats.{floats_or};
ghost use Rattle.serde_json.specs.Data.{no_members};
ghost use Rattle.std.proofs.Common.{lit≤};
ghost use Rattle.std.specs.Prelude.{false, ◌≡◌};

use super::{Node, Scene};
use gltf_schema::{Object, ReadRows, WriteRows};
use std::alloc::Global;

impl Node {
    /// Returns a node with every member at its default.
    #[tactic(auto, unfolding(crate::specs::Scene::node_rows, crate::specs::Scene::node_members))]
    pub fn new() -> Node
        ensures { node_members result ≡ defaults node_rows }
    {
        Node {
            camera: None,
            children: None,
            extensions: None,
            extras: None,
            matrix: None,
            mesh: None,
            name: None,
            rotation: None,
            scale: None,
            translation: None,
            skin: None,
            weights: None,
        }
    }
}

impl Object for Node {
    ghost rows = { node_rows };

    ghost keeps = { false };

    ghost members = { node_members };

    ghost unknown = { λ _. no_members };

    ghost kind_is_sound = { node_sound };

    ghost height = { 3 };

    ghost height_bounds_kind = { (node_height.1, lit≤ tt) };

    #[tactic(auto, unfolding(crate::specs::Scene::node_rows, crate::specs::Scene::node_members))]
    fn start(_alloc: Global) -> Node {
        Node::new()
    }

    #[tactic(auto, unfolding(crate::specs::Scene::node_rows))]
    fn count_required() -> usize {
        0
    }

    fn read_rows<R: ReadRows>(&mut self, from: &mut R) {
        from.optional("camera", &mut self.camera);
        from.optional("children", &mut self.children);
        from.optional("extensions", &mut self.extensions);
        from.optional("extras", &mut self.extras);
        from.optional("matrix", &mut self.matrix);
        from.optional("mesh", &mut self.mesh);
        from.optional("name", &mut self.name);
        from.optional("rotation", &mut self.rotation);
        from.optional("scale", &mut self.scale);
        from.optional("translation", &mut self.translation);
        from.optional("skin", &mut self.skin);
        from.optional("weights", &mut self.weights);
    }

    fn write_members<W: WriteRows>(&self, to: &mut W) {
        to.optional("camera", &self.camera);
        to.optional("children", &self.children);
        to.optional("extensions", &self.extensions);
        to.optional("extras", &self.extras);
        to.optional("matrix", &self.matrix);
        to.optional("mesh", &self.mesh);
        to.optional("name", &self.name);
        to.optional("rotation", &self.rotation);
        to.optional("scale", &self.scale);
        to.optional("skin", &self.skin);
        to.optional("translation", &self.translation);
        to.optional("weights", &self.weights);
    }
}

impl Node {
    /// The numbers as floats, or [`Node::DEFAULT_SCALE`] if they are absent.
    pub fn scale_values(&self) -> [f64; 3]
        ensures { result ≡ floats_or Self.DEFAULT_SCALE self.now.scale }
    {
        match &self.scale {
            Some([x, y, z]) => [x.as_f64(), y.as_f64(), z.as_f64()],
            None => Node::DEFAULT_SCALE,
        }
    }

    /// The numbers as floats, or [`Node::DEFAULT_TRANSLATION`] if they are absent.
    pub fn translation_values(&self) -> [f64; 3]
        ensures { result ≡ floats_or Self.DEFAULT_TRANSLATION self.now.translation }
    {
        match &self.translation {
            Some([x, y, z]) => [x.as_f64(), y.as_f64(), z.as_f64()],
            None => Node::DEFAULT_TRANSLATION,
        }
    }
}

impl Object for Scene {
    ghost rows = { scene_rows };

    ghost keeps = { false };

    ghost members = { scene_members };

    ghost unknown = { λ _. no_members };

    ghost kind_is_sound = { scene_sound };

    ghost height = { 2 };

    ghost height_bounds_kind = { (scene_height.1, lit≤ tt) };

    #[tactic(auto, unfolding(crate::specs::Scene::scene_rows, crate::specs::Scene::scene_members))]
    fn start(alloc: Global) -> Scene {
        Scene {
            extensions: None,
            extras: None,
            name: None,
            nodes: Vec::new(alloc),
        }
    }

    #[tactic(auto, unfolding(crate::specs::Scene::scene_rows))]
    fn count_required() -> usize {
        0
    }

    fn read_rows<R: ReadRows>(&mut self, from: &mut R) {
        from.optional("extensions", &mut self.extensions);
        from.optional("extras", &mut self.extras);
        from.optional("name", &mut self.name);
        from.or_default("nodes", &mut self.nodes);
    }

    fn write_members<W: WriteRows>(&self, to: &mut W) {
        to.optional("extensions", &self.extensions);
        to.optional("extras", &self.extras);
        to.optional("name", &self.name);
        to.list("nodes", &self.nodes);
    }
}
