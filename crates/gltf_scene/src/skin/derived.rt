//! Written by tools/derive.py from crates/gltf_scene/src/skin.rt and
//! crates/gltf_scene/specs/Scene.antt. Do not edit.

ghost use Rattle.gltf_scene.specs.Scene.{skin_members, skin_rows};
ghost use Rattle.gltf_scene.specs.SceneDerived.{skin_height, skin_sound};
ghost use Rattle.serde_json.specs.Data.{no_members};
ghost use Rattle.std.proofs.Common.{lit≤};
ghost use Rattle.std.specs.Prelude.{false};

use super::Skin;
use gltf_schema::{Object, ReadRows, WriteRows};
use std::alloc::Global;

impl Object for Skin {
    ghost rows = { skin_rows };

    ghost keeps = { false };

    ghost members = { skin_members };

    ghost unknown = { λ _. no_members };

    ghost kind_is_sound = { skin_sound };

    ghost height = { 2 };

    ghost height_bounds_kind = { (skin_height.1, lit≤ tt) };

    #[tactic(auto, unfolding(crate::specs::Scene::skin_rows, crate::specs::Scene::skin_members))]
    fn start(alloc: Global) -> Skin {
        Skin {
            extensions: None,
            extras: None,
            inverse_bind_matrices: None,
            joints: Vec::new(alloc),
            name: None,
            skeleton: None,
        }
    }

    #[tactic(auto, unfolding(crate::specs::Scene::skin_rows))]
    fn count_required() -> usize {
        0
    }

    fn read_rows<R: ReadRows>(&mut self, from: &mut R) {
        from.optional("extensions", &mut self.extensions);
        from.optional("extras", &mut self.extras);
        from.optional("inverseBindMatrices", &mut self.inverse_bind_matrices);
        from.or_default("joints", &mut self.joints);
        from.optional("name", &mut self.name);
        from.optional("skeleton", &mut self.skeleton);
    }

    fn write_members<W: WriteRows>(&self, to: &mut W) {
        to.optional("extensions", &self.extensions);
        to.optional("extras", &self.extras);
        to.optional("inverseBindMatrices", &self.inverse_bind_matrices);
        to.list("joints", &self.joints);
        to.optional("name", &self.name);
        to.optional("skeleton", &self.skeleton);
    }
}
