//! Written by tools/derive.py from crates/gltf_scene/specs/Scene.antt,
//! crates/gltf_scene/src/extensions/scene.rt, crates/gltf_scene/src/scene.rt and
//! crates/gltf_scene/src/skin.rt. Do not edit.
#![tactic(auto, using(crate::proofs::Past::past), unfolding(gltf_scene::specs::Scene::node_extension_rows, gltf_scene::specs::Light::light_of_node_rows, gltf_scene::specs::Scene::node_extension_members, gltf_scene::specs::Scene::node_rows, gltf_scene::specs::Scene::node_members, gltf_scene::specs::Scene::scene_rows, gltf_scene::specs::Scene::scene_members, gltf_scene::specs::Scene::skin_rows, gltf_scene::specs::Scene::skin_members))]

ghost use Rattle.gltf_scene.specs.Scene.{node_extensions, node_extensions_kind, node_kind, node_members, scene_kind, scene_members, skin_kind, skin_members};
ghost use Rattle.gltf_schema.specs.Fields.{closed_object};

use crate::event::EventBuilder;
use crate::events::Events;
use crate::list_item::ListItem;
use crate::quiet::{Quiet, is_object_quiet};
use crate::value_ref::ValueRef;
use crate::visitable::Visitable;
use gltf_scene::scene::Scene;
use gltf_scene::skin::Skin;
use gltf_validation_rules::{Context, HasContext};

impl Visitable for gltf_scene::extensions::scene::Node {
    ghost kind = { node_extensions_kind };

    ghost tree = { node_extensions };

    fn value_ref<'a>(&'a self, _context: &Context<'_>) -> ValueRef<'a> {
        ValueRef::NodeExtensions(self)
    }
}

impl<'a, E: EventBuilder<'a>> Events<'a, E> for gltf_scene::extensions::scene::Node {
    fn event<C: HasContext>(&'a self, number: usize, context: &C) -> E {
        match number {
            0 => E::member("KHR_lights_punctual", &self.khr_lights_punctual, context),
            _ => E::end(),
        }
    }
}

impl Quiet for gltf_scene::extensions::scene::Node {
    fn is_quiet<C: HasContext>(&self, context: &C) -> bool {
        is_object_quiet(self, context)
    }
}

impl Visitable for gltf_scene::scene::Node {
    ghost kind = { node_kind };

    ghost tree = { λ v. closed_object (node_members v) };

    fn value_ref<'a>(&'a self, _context: &Context<'_>) -> ValueRef<'a> {
        ValueRef::Node(self)
    }
}

impl<'a, E: EventBuilder<'a>> Events<'a, E> for gltf_scene::scene::Node {
    fn event<C: HasContext>(&'a self, number: usize, context: &C) -> E {
        match number {
            0 => E::member("camera", &self.camera, context),
            1 => E::member("children", &self.children, context),
            2 => E::member("extensions", &self.extensions, context),
            3 => E::member("mesh", &self.mesh, context),
            4 => E::member("skin", &self.skin, context),
            _ => E::end(),
        }
    }
}

impl Quiet for gltf_scene::scene::Node {
    fn is_quiet<C: HasContext>(&self, context: &C) -> bool {
        is_object_quiet(self, context)
    }
}

impl ListItem for gltf_scene::scene::Node {
    fn list_ref<'a>(items: &'a Vec<gltf_scene::scene::Node>) -> ValueRef<'a> {
        ValueRef::Nodes(items)
    }
}

impl Visitable for Scene {
    ghost kind = { scene_kind };

    ghost tree = { λ v. closed_object (scene_members v) };

    fn value_ref<'a>(&'a self, _context: &Context<'_>) -> ValueRef<'a> {
        ValueRef::Scene(self)
    }
}

impl<'a, E: EventBuilder<'a>> Events<'a, E> for Scene {
    fn event<C: HasContext>(&'a self, number: usize, context: &C) -> E {
        match number {
            0 => E::member("nodes", &self.nodes, context),
            _ => E::end(),
        }
    }
}

impl Quiet for Scene {
    fn is_quiet<C: HasContext>(&self, context: &C) -> bool {
        is_object_quiet(self, context)
    }
}

impl ListItem for Scene {
    fn list_ref<'a>(items: &'a Vec<Scene>) -> ValueRef<'a> {
        ValueRef::Scenes(items)
    }
}

impl Visitable for Skin {
    ghost kind = { skin_kind };

    ghost tree = { λ v. closed_object (skin_members v) };

    fn value_ref<'a>(&'a self, _context: &Context<'_>) -> ValueRef<'a> {
        ValueRef::Skin(self)
    }
}

impl<'a, E: EventBuilder<'a>> Events<'a, E> for Skin {
    fn event<C: HasContext>(&'a self, number: usize, context: &C) -> E {
        match number {
            0 => E::member("inverseBindMatrices", &self.inverse_bind_matrices, context),
            1 => E::member("joints", &self.joints, context),
            2 => E::member("skeleton", &self.skeleton, context),
            _ => E::end(),
        }
    }
}

impl Quiet for Skin {
    fn is_quiet<C: HasContext>(&self, context: &C) -> bool {
        is_object_quiet(self, context)
    }
}

impl ListItem for Skin {
    fn list_ref<'a>(items: &'a Vec<Skin>) -> ValueRef<'a> {
        ValueRef::Skins(items)
    }
}
