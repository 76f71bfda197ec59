//! Written by tools/derive.py from crates/gltf_root/specs/Root.antt and
//! crates/gltf_root/src/root.rt. Do not edit.
#![tactic(auto, using(crate::proofs::Past::past), unfolding(gltf_root::specs::Root::root_rows, gltf_scene::specs::Animation::animation_rows, gltf_scene::specs::Animation::animation_sampler_rows, gltf_scene::specs::Asset::asset_rows, gltf_parts::specs::Buffer::buffer_rows, gltf_parts::specs::Buffer::view_rows, gltf_root::specs::RootExtension::root_extension_rows, gltf_root::specs::RootExtension::lights_rows, gltf_parts::specs::Image::image_rows, gltf_parts::specs::Material::material_rows, gltf_scene::specs::Mesh::mesh_rows, gltf_scene::specs::Scene::node_rows, gltf_parts::specs::Texture::sampler_rows, gltf_scene::specs::Scene::scene_rows, gltf_scene::specs::Scene::skin_rows, gltf_parts::specs::Texture::texture_rows, gltf_root::specs::Root::root_members))]

ghost use Rattle.gltf_root.specs.Root.{root_kind, root_tree};

use crate::event::EventBuilder;
use crate::events::Events;
use crate::lists::are_names_quiet;
use crate::quiet::{Quiet, is_object_quiet};
use crate::value_ref::ValueRef;
use crate::visitable::Visitable;
use gltf_base::Step;
use gltf_root::root::Root;
use gltf_validation_rules::{Context, HasContext};

impl Visitable for Root {
    ghost kind = { root_kind };

    ghost tree = { root_tree };

    fn value_ref<'a>(&'a self, _context: &Context<'_>) -> ValueRef<'a> {
        ValueRef::Root(self)
    }
}

impl<'a, E: EventBuilder<'a>> Events<'a, E> for Root {
    fn event<C: HasContext>(&'a self, number: usize, context: &C) -> E {
        match number {
            0 => E::member("accessors", &self.accessors, context),
            1 => E::member("animations", &self.animations, context),
            2 => E::member("bufferViews", &self.buffer_views, context),
            3 => E::member("scene", &self.scene, context),
            4 => E::member("extensions", &self.extensions, context),
            5 => E::member("cameras", &self.cameras, context),
            6 => E::member("images", &self.images, context),
            7 => E::member("materials", &self.materials, context),
            8 => E::member("meshes", &self.meshes, context),
            9 => E::member("nodes", &self.nodes, context),
            10 => E::member("samplers", &self.samplers, context),
            11 => E::member("scenes", &self.scenes, context),
            12 => E::member("skins", &self.skins, context),
            13 => E::member("textures", &self.textures, context),
            14 => E::enter(
                Step::Field("extensionsRequired"),
                ValueRef::RequiredExtensions(&self.extensions_required),
                are_names_quiet(&self.extensions_required, context),
                context,
            ),
            _ => E::end(),
        }
    }
}

impl Quiet for Root {
    fn is_quiet<C: HasContext>(&self, context: &C) -> bool {
        is_object_quiet(self, context)
    }
}
