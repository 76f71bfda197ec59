//! Whole documents, and the lists in them.

ghost use Rattle.std.specs.Prelude.{◌≡◌, IfOk, codes};
ghost use Rattle.gltf_scene.specs.Asset.{asset_of_version};
ghost use Rattle.gltf_root.specs.Root.{root_rows, root_members, root_of_asset};

use crate::extensions;
use gltf_base::Index;
use gltf_parts::accessor::Accessor;
use gltf_parts::buffer::{Buffer, View};
use gltf_parts::extras::Extras;
use gltf_parts::image::Image;
use gltf_parts::material::Material;
use gltf_parts::texture::{self, Texture};
use gltf_scene::animation::Animation;
use gltf_scene::asset::Asset;
use gltf_scene::camera::Camera;
use gltf_scene::mesh::Mesh;
use gltf_scene::scene::{Node, Scene};
use gltf_scene::skin::Skin;
use std::alloc::{AllocError, Global};

mod derived;
mod extended;
mod get;
mod mark;
mod parse;
mod print;
mod refused;
mod strip;
mod style;
mod top_level;

pub use crate::found::Found;
pub use crate::mismatch::Mismatch;
pub use crate::text::Place;
pub use crate::wanted::Wanted;
pub use get::{Get, RootItem};
pub use mark::Mark;
pub use style::{Nulls, Spacing, Style};
pub use top_level::TopLevel;

/// A whole document (glTF 2.0, section 5.17).
// What takes longest to drop comes last (docs/DECISIONS.md, "Order of fields").
#[derive(Clone, Debug)]
pub struct Root {
    /// The default scene.
    pub scene: Option<Index<Scene>>,
    pub accessors: Vec<Accessor>,
    pub animations: Vec<Animation>,
    pub buffers: Vec<Buffer>,
    pub buffer_views: Vec<View>,
    /// The names of the extensions that the document uses.
    pub extensions_used: Vec<String>,
    /// The names of the extensions that a reader has to support.
    pub extensions_required: Vec<String>,
    pub cameras: Vec<Camera>,
    pub images: Vec<Image>,
    pub materials: Vec<Material>,
    pub meshes: Vec<Mesh>,
    pub nodes: Vec<Node>,
    /// The samplers of textures; animations hold their own.
    pub samplers: Vec<texture::Sampler>,
    pub scenes: Vec<Scene>,
    pub skins: Vec<Skin>,
    pub textures: Vec<Texture>,
    /// Metadata about the document.
    pub asset: Asset,
    pub extensions: Option<extensions::root::Root>,
    pub extras: Extras,
}

// Written by tools/derive.py: begin
impl Drop for Root {
    #[inline(always)]
    fn drop(self) {
        let Root {
            scene: _,
            accessors: _,
            animations: _,
            buffers: _,
            buffer_views: _,
            extensions_used: _,
            extensions_required: _,
            cameras: _,
            images: _,
            materials: _,
            meshes: _,
            nodes: _,
            samplers: _,
            scenes: _,
            skins: _,
            textures: _,
            asset: _,
            extensions: _,
            extras: _,
        } = self;
    }
}
// Written by tools/derive.py: end

impl Root {
    /// Returns an empty document of version `2.0`. Fails only if out of memory.
    #[tactic(auto, unfolding(crate::specs::Root::root_rows, crate::specs::Root::root_members))]
    pub fn new(alloc: Global) -> Result<Root, AllocError>
        ensures { IfOk result (λ root. root_members root
            ≡ root_of_asset (asset_of_version (codes "2.0"))) }
    {
        let asset = Asset::new(alloc)?;
        Ok(Root {
            scene: None,
            accessors: Vec::new(alloc),
            animations: Vec::new(alloc),
            buffers: Vec::new(alloc),
            buffer_views: Vec::new(alloc),
            extensions_used: Vec::new(alloc),
            extensions_required: Vec::new(alloc),
            cameras: Vec::new(alloc),
            images: Vec::new(alloc),
            materials: Vec::new(alloc),
            meshes: Vec::new(alloc),
            nodes: Vec::new(alloc),
            samplers: Vec::new(alloc),
            scenes: Vec::new(alloc),
            skins: Vec::new(alloc),
            textures: Vec::new(alloc),
            asset,
            extras: None,
            extensions: None,
        })
    }
}
