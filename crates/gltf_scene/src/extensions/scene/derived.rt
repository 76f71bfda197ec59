//! Written by tools/derive.py from crates/gltf_scene/src/extensions/scene.rt and
//! crates/gltf_scene/specs/Scene.antt. Do not edit.

ghost use Rattle.gltf_scene.specs.Scene.{node_extension_members, node_extension_rows};
ghost use Rattle.gltf_scene.specs.SceneDerived.{node_extension_height, node_extension_sound};
ghost use Rattle.gltf_schema.specs.Defaults.{defaults};
ghost use Rattle.serde_json.specs.Data.{no_members};
ghost use Rattle.serde_json.specs.View.{members_view};
ghost use Rattle.std.proofs.Common.{lit≤};
ghost use Rattle.std.specs.Prelude.{true, ◌≡◌};

use super::Node;
use gltf_schema::{Object, ReadRows, WriteRows};
use serde_json::Map;
use std::alloc::Global;

impl Node {
    /// Returns an empty extension object.
    #[tactic(auto, unfolding(crate::specs::Scene::node_extension_rows, crate::specs::Scene::node_extension_members))]
    pub fn new(alloc: Global) -> Node
        ensures known { node_extension_members result ≡ defaults node_extension_rows }
        ensures unknown { members_view result.others.entries ≡ no_members }
    {
        Node {
            khr_lights_punctual: None,
            others: Map::new(alloc),
        }
    }
}

impl Object for Node {
    ghost rows = { node_extension_rows };

    ghost keeps = { true };

    ghost members = { node_extension_members };

    ghost unknown = { λ e. members_view e.others.entries };

    ghost kind_is_sound = { node_extension_sound };

    ghost height = { 2 };

    ghost height_bounds_kind = { (node_extension_height.1, lit≤ tt) };

    #[tactic(auto, unfolding(crate::specs::Scene::node_extension_rows, crate::specs::Scene::node_extension_members))]
    fn start(alloc: Global) -> Node {
        Node::new(alloc)
    }

    #[tactic(auto, unfolding(crate::specs::Scene::node_extension_rows))]
    fn count_required() -> usize {
        0
    }

    fn read_rows<R: ReadRows>(&mut self, from: &mut R) {
        from.optional("KHR_lights_punctual", &mut self.khr_lights_punctual);
        from.others(&mut self.others);
    }

    fn write_members<W: WriteRows>(&self, to: &mut W) {
        to.others(&self.others);
        to.optional("KHR_lights_punctual", &self.khr_lights_punctual);
    }
}
