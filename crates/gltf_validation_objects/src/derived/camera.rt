//! Written by tools/derive.py from crates/gltf_scene/specs/Camera.antt and
//! crates/gltf_scene/src/camera.rt. Do not edit.
#![tactic(auto, using(crate::proofs::Past::past), unfolding(gltf_scene::specs::Camera::camera_rows, gltf_scene::specs::Camera::orthographic_rows, gltf_scene::specs::Camera::perspective_rows, gltf_scene::specs::Camera::camera_members))]

ghost use Rattle.gltf_scene.specs.Camera.{camera_kind, camera_members, orthographic_kind, orthographic_members, orthographic_rows, perspective_kind, perspective_members, perspective_rows};
ghost use Rattle.gltf_schema.specs.Fields.{closed_object};
ghost use Rattle.std.specs.Prelude.{refl};

use crate::always_valid::AlwaysValid;
use crate::event::EventBuilder;
use crate::events::Events;
use crate::list_item::ListItem;
use crate::quiet::{Quiet, is_object_quiet};
use crate::value_ref::ValueRef;
use crate::visitable::Visitable;
use gltf_scene::camera::{Camera, Orthographic, Perspective};
use gltf_validation_rules::{Context, HasContext, projection_fault};

impl AlwaysValid for Orthographic {
    ghost kind = { orthographic_kind };

    ghost tree = { λ v. closed_object (orthographic_members v) };

    ghost quiet_checklist = { λ _ _. unfold orthographic_rows orthographic_members in refl };
}

impl AlwaysValid for Perspective {
    ghost kind = { perspective_kind };

    ghost tree = { λ v. closed_object (perspective_members v) };

    ghost quiet_checklist = { λ _ _. unfold perspective_rows perspective_members in refl };
}

impl Visitable for Camera {
    ghost kind = { camera_kind };

    ghost tree = { λ v. closed_object (camera_members v) };

    fn value_ref<'a>(&'a self, _context: &Context<'_>) -> ValueRef<'a> {
        ValueRef::Camera(self)
    }
}

impl<'a, E: EventBuilder<'a>> Events<'a, E> for Camera {
    fn event<C: HasContext>(&'a self, number: usize, context: &C) -> E {
        match number {
            0 => E::member("type", &self.type_, context),
            1 => E::fault_here(projection_fault(self)),
            _ => E::end(),
        }
    }
}

impl Quiet for Camera {
    fn is_quiet<C: HasContext>(&self, context: &C) -> bool {
        is_object_quiet(self, context)
    }
}

impl ListItem for Camera {
    fn list_ref<'a>(items: &'a Vec<Camera>) -> ValueRef<'a> {
        ValueRef::Cameras(items)
    }
}
