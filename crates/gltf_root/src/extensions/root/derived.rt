//! Written by tools/derive.py from crates/gltf_root/src/extensions/root.rt and
//! crates/gltf_root/specs/RootExtension.antt. Do not edit.

ghost use Rattle.gltf_root.specs.RootExtension.{lights_members, lights_rows, root_extension_members, root_extension_rows, variants_members, variants_rows};
ghost use Rattle.gltf_root.specs.RootExtensionDerived.{lights_height, lights_sound, root_extension_height, root_extension_sound, variants_height, variants_sound};
ghost use Rattle.gltf_schema.specs.Defaults.{defaults};
ghost use Rattle.serde_json.specs.Data.{no_members};
ghost use Rattle.serde_json.specs.View.{members_view};
ghost use Rattle.std.proofs.Common.{lit≤};
ghost use Rattle.std.specs.Prelude.{false, true, ◌≡◌};

use super::{KhrLightsPunctual, KhrMaterialsVariants, Root};
use gltf_schema::{Object, ReadRows, WriteRows};
use serde_json::Map;
use std::alloc::Global;

impl Object for KhrLightsPunctual {
    ghost rows = { lights_rows };

    ghost keeps = { false };

    ghost members = { lights_members };

    ghost unknown = { λ _. no_members };

    ghost kind_is_sound = { lights_sound };

    ghost height = { 3 };

    ghost height_bounds_kind = { (lights_height.1, lit≤ tt) };

    #[tactic(auto, unfolding(crate::specs::RootExtension::lights_rows, crate::specs::RootExtension::lights_members))]
    fn start(alloc: Global) -> KhrLightsPunctual {
        KhrLightsPunctual {
            lights: Vec::new(alloc),
        }
    }

    #[tactic(auto, unfolding(crate::specs::RootExtension::lights_rows))]
    fn count_required() -> usize {
        1
    }

    fn read_rows<R: ReadRows>(&mut self, from: &mut R) {
        from.required("lights", &mut self.lights);
    }

    fn write_members<W: WriteRows>(&self, to: &mut W) {
        to.always("lights", &self.lights);
    }
}

impl Object for KhrMaterialsVariants {
    ghost rows = { variants_rows };

    ghost keeps = { false };

    ghost members = { variants_members };

    ghost unknown = { λ _. no_members };

    ghost kind_is_sound = { variants_sound };

    ghost height = { 0 };

    ghost height_bounds_kind = { (variants_height.1, lit≤ tt) };

    #[tactic(auto, unfolding(crate::specs::RootExtension::variants_rows, crate::specs::RootExtension::variants_members))]
    fn start(alloc: Global) -> KhrMaterialsVariants {
        KhrMaterialsVariants {
            variants: Vec::new(alloc),
        }
    }

    #[tactic(auto, unfolding(crate::specs::RootExtension::variants_rows))]
    fn count_required() -> usize {
        1
    }

    fn read_rows<R: ReadRows>(&mut self, from: &mut R) {
        from.required("variants", &mut self.variants);
    }

    fn write_members<W: WriteRows>(&self, to: &mut W) {
        to.always("variants", &self.variants);
    }
}

impl Root {
    /// Returns an empty extension object.
    #[tactic(auto, unfolding(crate::specs::RootExtension::root_extension_rows, crate::specs::RootExtension::root_extension_members))]
    pub fn new(alloc: Global) -> Root
        ensures known { root_extension_members result ≡ defaults root_extension_rows }
        ensures unknown { members_view result.others.entries ≡ no_members }
    {
        Root {
            khr_lights_punctual: None,
            khr_materials_variants: None,
            others: Map::new(alloc),
        }
    }
}

impl Object for Root {
    ghost rows = { root_extension_rows };

    ghost keeps = { true };

    ghost members = { root_extension_members };

    ghost unknown = { λ e. members_view e.others.entries };

    ghost kind_is_sound = { root_extension_sound };

    ghost height = { 4 };

    ghost height_bounds_kind = { (root_extension_height.1, lit≤ tt) };

    #[tactic(auto, unfolding(crate::specs::RootExtension::root_extension_rows, crate::specs::RootExtension::root_extension_members))]
    fn start(alloc: Global) -> Root {
        Root::new(alloc)
    }

    #[tactic(auto, unfolding(crate::specs::RootExtension::root_extension_rows))]
    fn count_required() -> usize {
        0
    }

    fn read_rows<R: ReadRows>(&mut self, from: &mut R) {
        from.optional("KHR_lights_punctual", &mut self.khr_lights_punctual);
        from.optional("KHR_materials_variants", &mut self.khr_materials_variants);
        from.others(&mut self.others);
    }

    fn write_members<W: WriteRows>(&self, to: &mut W) {
        to.others(&self.others);
        to.optional("KHR_lights_punctual", &self.khr_lights_punctual);
        to.optional("KHR_materials_variants", &self.khr_materials_variants);
    }
}
