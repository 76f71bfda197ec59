//! Written by tools/derive.py from crates/gltf_root/src/root.rt and
//! crates/gltf_root/specs/Root.antt. Do not edit.

ghost use Rattle.gltf_root.specs.Root.{root_members, root_rows};
ghost use Rattle.gltf_root.specs.RootDerived.{root_height, root_sound};
ghost use Rattle.gltf_schema.specs.Kind.{requires_enabled};
ghost use Rattle.serde_json.specs.Data.{no_members};
ghost use Rattle.std.proofs.Common.{lit≤};
ghost use Rattle.std.specs.Prelude.{false};

use super::Root;
use gltf_scene::asset::Asset;
use gltf_schema::{Object, ReadRows, StrictObject, StrictRows, WriteRows};
use std::alloc::Global;

impl Object for Root {
    ghost rule = { requires_enabled };

    ghost rows = { root_rows };

    ghost keeps = { false };

    ghost members = { root_members };

    ghost unknown = { λ _. no_members };

    ghost kind_is_sound = { root_sound };

    ghost height = { 7 };

    ghost height_bounds_kind = { (root_height.1, lit≤ tt) };

    #[tactic(auto, unfolding(crate::specs::Root::root_rows, crate::specs::Root::root_members))]
    fn start(alloc: Global) -> Root {
        Root {
            accessors: Vec::new(alloc),
            animations: Vec::new(alloc),
            asset: Asset::start(alloc),
            buffers: Vec::new(alloc),
            buffer_views: Vec::new(alloc),
            scene: None,
            extensions: None,
            extras: None,
            extensions_used: Vec::new(alloc),
            extensions_required: Vec::new(alloc),
            cameras: Vec::new(alloc),
            images: Vec::new(alloc),
            materials: Vec::new(alloc),
            meshes: Vec::new(alloc),
            nodes: Vec::new(alloc),
            samplers: Vec::new(alloc),
            scenes: Vec::new(alloc),
            skins: Vec::new(alloc),
            textures: Vec::new(alloc),
        }
    }

    #[tactic(auto, unfolding(crate::specs::Root::root_rows))]
    fn count_required() -> usize {
        1
    }

    fn read_rows<R: ReadRows>(&mut self, from: &mut R) {
        from.or_default("accessors", &mut self.accessors);
        from.or_default("animations", &mut self.animations);
        from.required("asset", &mut self.asset);
        from.or_default("buffers", &mut self.buffers);
        from.or_default("bufferViews", &mut self.buffer_views);
        from.optional("scene", &mut self.scene);
        from.optional("extensions", &mut self.extensions);
        from.optional("extras", &mut self.extras);
        from.or_default("extensionsUsed", &mut self.extensions_used);
        from.or_default("extensionsRequired", &mut self.extensions_required);
        from.or_default("cameras", &mut self.cameras);
        from.or_default("images", &mut self.images);
        from.or_default("materials", &mut self.materials);
        from.or_default("meshes", &mut self.meshes);
        from.or_default("nodes", &mut self.nodes);
        from.or_default("samplers", &mut self.samplers);
        from.or_default("scenes", &mut self.scenes);
        from.or_default("skins", &mut self.skins);
        from.or_default("textures", &mut self.textures);
    }

    fn write_members<W: WriteRows>(&self, to: &mut W) {
        to.list("accessors", &self.accessors);
        to.list("animations", &self.animations);
        to.always("asset", &self.asset);
        to.list("bufferViews", &self.buffer_views);
        to.list("buffers", &self.buffers);
        to.list("cameras", &self.cameras);
        to.optional("extensions", &self.extensions);
        to.list("extensionsRequired", &self.extensions_required);
        to.list("extensionsUsed", &self.extensions_used);
        to.optional("extras", &self.extras);
        to.list("images", &self.images);
        to.list("materials", &self.materials);
        to.list("meshes", &self.meshes);
        to.list("nodes", &self.nodes);
        to.list("samplers", &self.samplers);
        to.optional("scene", &self.scene);
        to.list("scenes", &self.scenes);
        to.list("skins", &self.skins);
        to.list("textures", &self.textures);
    }
}

impl StrictObject for Root {
    fn write_strictly<W: StrictRows>(&self, to: &mut W) {
        to.list("accessors", &self.accessors);
        to.list("animations", &self.animations);
        to.always("asset", &self.asset);
        to.list("bufferViews", &self.buffer_views);
        to.list("buffers", &self.buffers);
        to.list("cameras", &self.cameras);
        to.optional("extensions", &self.extensions);
        to.list("extensionsRequired", &self.extensions_required);
        to.list("extensionsUsed", &self.extensions_used);
        to.optional("extras", &self.extras);
        to.list("images", &self.images);
        to.list_strictly("materials", &self.materials);
        to.list("meshes", &self.meshes);
        to.list("nodes", &self.nodes);
        to.list("samplers", &self.samplers);
        to.optional("scene", &self.scene);
        to.list("scenes", &self.scenes);
        to.list("skins", &self.skins);
        to.list("textures", &self.textures);
    }
}
