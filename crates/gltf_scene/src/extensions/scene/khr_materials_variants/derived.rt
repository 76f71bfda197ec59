//! Written by tools/derive.py from crates/gltf_scene/src/extensions/scene/khr_materials_variants.rt
//! and crates/gltf_scene/specs/Light.antt. Do not edit.

ghost use Rattle.gltf_scene.specs.Light.{variant_members, variant_rows};
ghost use Rattle.gltf_scene.specs.LightDerived.{variant_height, variant_sound};
ghost use Rattle.serde_json.specs.Data.{no_members};
ghost use Rattle.std.proofs.Common.{lit≤};
ghost use Rattle.std.specs.Prelude.{false};

use super::Variant;
use gltf_schema::{Object, ReadRows, WriteRows};
use std::alloc::Global;

impl Object for Variant {
    ghost rows = { variant_rows };

    ghost keeps = { false };

    ghost members = { variant_members };

    ghost unknown = { λ _. no_members };

    ghost kind_is_sound = { variant_sound };

    ghost height = { 0 };

    ghost height_bounds_kind = { (variant_height.1, lit≤ tt) };

    #[tactic(auto, unfolding(crate::specs::Light::variant_rows, crate::specs::Light::variant_members))]
    fn start(alloc: Global) -> Variant {
        Variant {
            name: String::new(alloc),
        }
    }

    #[tactic(auto, unfolding(crate::specs::Light::variant_rows))]
    fn count_required() -> usize {
        1
    }

    fn read_rows<R: ReadRows>(&mut self, from: &mut R) {
        from.required("name", &mut self.name);
    }

    fn write_members<W: WriteRows>(&self, to: &mut W) {
        to.always("name", &self.name);
    }
}
