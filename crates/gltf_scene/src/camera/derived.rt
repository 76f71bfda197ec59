//! Written by tools/derive.py from crates/gltf_scene/src/camera.rt and
//! crates/gltf_scene/specs/Camera.antt. Do not edit.

ghost use Rattle.gltf_scene.specs.Camera.{camera_members, camera_rows, orthographic_members, orthographic_rows, perspective_members, perspective_rows};
ghost use Rattle.gltf_scene.specs.CameraDerived.{camera_height, camera_sound, orthographic_height, orthographic_sound, perspective_height, perspective_sound};
ghost use Rattle.gltf_schema.specs.Kind.{needs_projection};
ghost use Rattle.serde_json.specs.Data.{no_members};
ghost use Rattle.std.proofs.Common.{lit≤};
ghost use Rattle.std.specs.Prelude.{false};

use super::{Camera, Orthographic, Perspective};
use gltf_base::Real;
use gltf_base::validation::Checked;
use gltf_schema::{Object, ReadRows, WriteRows};
use std::alloc::Global;

impl Object for Orthographic {
    ghost rows = { orthographic_rows };

    ghost keeps = { false };

    ghost members = { orthographic_members };

    ghost unknown = { λ _. no_members };

    ghost kind_is_sound = { orthographic_sound };

    ghost height = { 0 };

    ghost height_bounds_kind = { (orthographic_height.1, lit≤ tt) };

    #[tactic(auto, unfolding(crate::specs::Camera::orthographic_rows, crate::specs::Camera::orthographic_members))]
    fn start(_alloc: Global) -> Orthographic {
        Orthographic {
            xmag: Real::from_i64(0),
            ymag: Real::from_i64(0),
            zfar: Real::from_i64(0),
            znear: Real::from_i64(0),
            extensions: None,
            extras: None,
        }
    }

    #[tactic(auto, unfolding(crate::specs::Camera::orthographic_rows))]
    fn count_required() -> usize {
        4
    }

    fn read_rows<R: ReadRows>(&mut self, from: &mut R) {
        from.required("xmag", &mut self.xmag);
        from.required("ymag", &mut self.ymag);
        from.required("zfar", &mut self.zfar);
        from.required("znear", &mut self.znear);
        from.optional("extensions", &mut self.extensions);
        from.optional("extras", &mut self.extras);
    }

    fn write_members<W: WriteRows>(&self, to: &mut W) {
        to.optional("extensions", &self.extensions);
        to.optional("extras", &self.extras);
        to.always("xmag", &self.xmag);
        to.always("ymag", &self.ymag);
        to.always("zfar", &self.zfar);
        to.always("znear", &self.znear);
    }
}

impl Object for Perspective {
    ghost rows = { perspective_rows };

    ghost keeps = { false };

    ghost members = { perspective_members };

    ghost unknown = { λ _. no_members };

    ghost kind_is_sound = { perspective_sound };

    ghost height = { 0 };

    ghost height_bounds_kind = { (perspective_height.1, lit≤ tt) };

    #[tactic(auto, unfolding(crate::specs::Camera::perspective_rows, crate::specs::Camera::perspective_members))]
    fn start(_alloc: Global) -> Perspective {
        Perspective {
            aspect_ratio: None,
            yfov: Real::from_i64(0),
            zfar: None,
            znear: Real::from_i64(0),
            extensions: None,
            extras: None,
        }
    }

    #[tactic(auto, unfolding(crate::specs::Camera::perspective_rows))]
    fn count_required() -> usize {
        2
    }

    fn read_rows<R: ReadRows>(&mut self, from: &mut R) {
        from.optional("aspectRatio", &mut self.aspect_ratio);
        from.required("yfov", &mut self.yfov);
        from.optional("zfar", &mut self.zfar);
        from.required("znear", &mut self.znear);
        from.optional("extensions", &mut self.extensions);
        from.optional("extras", &mut self.extras);
    }

    fn write_members<W: WriteRows>(&self, to: &mut W) {
        to.optional("aspectRatio", &self.aspect_ratio);
        to.optional("extensions", &self.extensions);
        to.optional("extras", &self.extras);
        to.always("yfov", &self.yfov);
        to.optional("zfar", &self.zfar);
        to.always("znear", &self.znear);
    }
}

impl Object for Camera {
    ghost rule = { needs_projection };

    ghost rows = { camera_rows };

    ghost keeps = { false };

    ghost members = { camera_members };

    ghost unknown = { λ _. no_members };

    ghost kind_is_sound = { camera_sound };

    ghost height = { 1 };

    ghost height_bounds_kind = { (camera_height.1, lit≤ tt) };

    #[tactic(auto, unfolding(crate::specs::Camera::camera_rows, crate::specs::Camera::camera_members))]
    fn start(_alloc: Global) -> Camera {
        Camera {
            name: None,
            orthographic: None,
            perspective: None,
            type_: Checked::Invalid,
            extensions: None,
            extras: None,
        }
    }

    #[tactic(auto, unfolding(crate::specs::Camera::camera_rows))]
    fn count_required() -> usize {
        1
    }

    fn read_rows<R: ReadRows>(&mut self, from: &mut R) {
        from.optional("name", &mut self.name);
        from.optional("orthographic", &mut self.orthographic);
        from.optional("perspective", &mut self.perspective);
        from.required("type", &mut self.type_);
        from.optional("extensions", &mut self.extensions);
        from.optional("extras", &mut self.extras);
    }

    fn write_members<W: WriteRows>(&self, to: &mut W) {
        to.optional("extensions", &self.extensions);
        to.optional("extras", &self.extras);
        to.optional("name", &self.name);
        to.optional("orthographic", &self.orthographic);
        to.optional("perspective", &self.perspective);
        to.always("type", &self.type_);
    }
}
