//! Written by tools/derive.py from crates/gltf_root/src/root.rt and
//! crates/gltf_root/specs/Root.antt. Do not edit.

ghost use Rattle.gltf_root.specs.Root.{root_members, root_rows};
ghost use Rattle.std.specs.Prelude.{refl};

use super::TopLevel;
use crate::root::Root;
use gltf_parts::accessor::Accessor;
use gltf_parts::buffer::{Buffer, View};
use gltf_parts::image::Image;
use gltf_parts::material::Material;
use gltf_parts::texture::{Sampler, Texture};
use gltf_scene::animation::Animation;
use gltf_scene::camera::Camera;
use gltf_scene::mesh::Mesh;
use gltf_scene::scene::{Node, Scene};
use gltf_scene::skin::Skin;

impl TopLevel for Accessor {
    ghost held = { λ r. r.accessors };

    ghost put = { λ list r. record r { accessors = list } };

    ghost kind_is_item_kind = { refl };

    ghost tree_lists_items = { λ r. unfold root_rows root_members in refl };

    ghost put_replaces_list = { λ r list. unfold root_rows root_members in (refl, refl) };

    ghost put_held_changes_nothing = { λ r. refl };

    ghost needs_no_extension = { λ root mark. (refl, refl, refl) };

    fn list_in(root: &Root) -> &Vec<Accessor> {
        &root.accessors
    }

    fn list_in_mut(root: &mut Root) -> &mut Vec<Accessor> {
        &mut root.accessors
    }
}

impl TopLevel for Animation {
    ghost held = { λ r. r.animations };

    ghost put = { λ list r. record r { animations = list } };

    ghost kind_is_item_kind = { refl };

    ghost tree_lists_items = { λ r. unfold root_rows root_members in refl };

    ghost put_replaces_list = { λ r list. unfold root_rows root_members in (refl, refl) };

    ghost put_held_changes_nothing = { λ r. refl };

    ghost needs_no_extension = { λ root mark. (refl, refl, refl) };

    fn list_in(root: &Root) -> &Vec<Animation> {
        &root.animations
    }

    fn list_in_mut(root: &mut Root) -> &mut Vec<Animation> {
        &mut root.animations
    }
}

impl TopLevel for Buffer {
    ghost held = { λ r. r.buffers };

    ghost put = { λ list r. record r { buffers = list } };

    ghost kind_is_item_kind = { refl };

    ghost tree_lists_items = { λ r. unfold root_rows root_members in refl };

    ghost put_replaces_list = { λ r list. unfold root_rows root_members in (refl, refl) };

    ghost put_held_changes_nothing = { λ r. refl };

    ghost needs_no_extension = { λ root mark. (refl, refl, refl) };

    fn list_in(root: &Root) -> &Vec<Buffer> {
        &root.buffers
    }

    fn list_in_mut(root: &mut Root) -> &mut Vec<Buffer> {
        &mut root.buffers
    }
}

impl TopLevel for View {
    ghost held = { λ r. r.buffer_views };

    ghost put = { λ list r. record r { buffer_views = list } };

    ghost kind_is_item_kind = { refl };

    ghost tree_lists_items = { λ r. unfold root_rows root_members in refl };

    ghost put_replaces_list = { λ r list. unfold root_rows root_members in (refl, refl) };

    ghost put_held_changes_nothing = { λ r. refl };

    ghost needs_no_extension = { λ root mark. (refl, refl, refl) };

    fn list_in(root: &Root) -> &Vec<View> {
        &root.buffer_views
    }

    fn list_in_mut(root: &mut Root) -> &mut Vec<View> {
        &mut root.buffer_views
    }
}

impl TopLevel for Camera {
    ghost held = { λ r. r.cameras };

    ghost put = { λ list r. record r { cameras = list } };

    ghost kind_is_item_kind = { refl };

    ghost tree_lists_items = { λ r. unfold root_rows root_members in refl };

    ghost put_replaces_list = { λ r list. unfold root_rows root_members in (refl, refl) };

    ghost put_held_changes_nothing = { λ r. refl };

    ghost needs_no_extension = { λ root mark. (refl, refl, refl) };

    fn list_in(root: &Root) -> &Vec<Camera> {
        &root.cameras
    }

    fn list_in_mut(root: &mut Root) -> &mut Vec<Camera> {
        &mut root.cameras
    }
}

impl TopLevel for Image {
    ghost held = { λ r. r.images };

    ghost put = { λ list r. record r { images = list } };

    ghost kind_is_item_kind = { refl };

    ghost tree_lists_items = { λ r. unfold root_rows root_members in refl };

    ghost put_replaces_list = { λ r list. unfold root_rows root_members in (refl, refl) };

    ghost put_held_changes_nothing = { λ r. refl };

    ghost needs_no_extension = { λ root mark. (refl, refl, refl) };

    fn list_in(root: &Root) -> &Vec<Image> {
        &root.images
    }

    fn list_in_mut(root: &mut Root) -> &mut Vec<Image> {
        &mut root.images
    }
}

impl TopLevel for Material {
    ghost held = { λ r. r.materials };

    ghost put = { λ list r. record r { materials = list } };

    ghost kind_is_item_kind = { refl };

    ghost tree_lists_items = { λ r. unfold root_rows root_members in refl };

    ghost put_replaces_list = { λ r list. unfold root_rows root_members in (refl, refl) };

    ghost put_held_changes_nothing = { λ r. refl };

    ghost needs_no_extension = { λ root mark. (refl, refl, refl) };

    fn list_in(root: &Root) -> &Vec<Material> {
        &root.materials
    }

    fn list_in_mut(root: &mut Root) -> &mut Vec<Material> {
        &mut root.materials
    }
}

impl TopLevel for Mesh {
    ghost held = { λ r. r.meshes };

    ghost put = { λ list r. record r { meshes = list } };

    ghost kind_is_item_kind = { refl };

    ghost tree_lists_items = { λ r. unfold root_rows root_members in refl };

    ghost put_replaces_list = { λ r list. unfold root_rows root_members in (refl, refl) };

    ghost put_held_changes_nothing = { λ r. refl };

    ghost needs_no_extension = { λ root mark. (refl, refl, refl) };

    fn list_in(root: &Root) -> &Vec<Mesh> {
        &root.meshes
    }

    fn list_in_mut(root: &mut Root) -> &mut Vec<Mesh> {
        &mut root.meshes
    }
}

impl TopLevel for Node {
    ghost held = { λ r. r.nodes };

    ghost put = { λ list r. record r { nodes = list } };

    ghost kind_is_item_kind = { refl };

    ghost tree_lists_items = { λ r. unfold root_rows root_members in refl };

    ghost put_replaces_list = { λ r list. unfold root_rows root_members in (refl, refl) };

    ghost put_held_changes_nothing = { λ r. refl };

    ghost needs_no_extension = { λ root mark. (refl, refl, refl) };

    fn list_in(root: &Root) -> &Vec<Node> {
        &root.nodes
    }

    fn list_in_mut(root: &mut Root) -> &mut Vec<Node> {
        &mut root.nodes
    }
}

impl TopLevel for Sampler {
    ghost held = { λ r. r.samplers };

    ghost put = { λ list r. record r { samplers = list } };

    ghost kind_is_item_kind = { refl };

    ghost tree_lists_items = { λ r. unfold root_rows root_members in refl };

    ghost put_replaces_list = { λ r list. unfold root_rows root_members in (refl, refl) };

    ghost put_held_changes_nothing = { λ r. refl };

    ghost needs_no_extension = { λ root mark. (refl, refl, refl) };

    fn list_in(root: &Root) -> &Vec<Sampler> {
        &root.samplers
    }

    fn list_in_mut(root: &mut Root) -> &mut Vec<Sampler> {
        &mut root.samplers
    }
}

impl TopLevel for Scene {
    ghost held = { λ r. r.scenes };

    ghost put = { λ list r. record r { scenes = list } };

    ghost kind_is_item_kind = { refl };

    ghost tree_lists_items = { λ r. unfold root_rows root_members in refl };

    ghost put_replaces_list = { λ r list. unfold root_rows root_members in (refl, refl) };

    ghost put_held_changes_nothing = { λ r. refl };

    ghost needs_no_extension = { λ root mark. (refl, refl, refl) };

    fn list_in(root: &Root) -> &Vec<Scene> {
        &root.scenes
    }

    fn list_in_mut(root: &mut Root) -> &mut Vec<Scene> {
        &mut root.scenes
    }
}

impl TopLevel for Skin {
    ghost held = { λ r. r.skins };

    ghost put = { λ list r. record r { skins = list } };

    ghost kind_is_item_kind = { refl };

    ghost tree_lists_items = { λ r. unfold root_rows root_members in refl };

    ghost put_replaces_list = { λ r list. unfold root_rows root_members in (refl, refl) };

    ghost put_held_changes_nothing = { λ r. refl };

    ghost needs_no_extension = { λ root mark. (refl, refl, refl) };

    fn list_in(root: &Root) -> &Vec<Skin> {
        &root.skins
    }

    fn list_in_mut(root: &mut Root) -> &mut Vec<Skin> {
        &mut root.skins
    }
}

impl TopLevel for Texture {
    ghost held = { λ r. r.textures };

    ghost put = { λ list r. record r { textures = list } };

    ghost kind_is_item_kind = { refl };

    ghost tree_lists_items = { λ r. unfold root_rows root_members in refl };

    ghost put_replaces_list = { λ r list. unfold root_rows root_members in (refl, refl) };

    ghost put_held_changes_nothing = { λ r. refl };

    ghost needs_no_extension = { λ root mark. (refl, refl, refl) };

    fn list_in(root: &Root) -> &Vec<Texture> {
        &root.textures
    }

    fn list_in_mut(root: &mut Root) -> &mut Vec<Texture> {
        &mut root.textures
    }
}
