//! Written by tools/derive.py from crates/gltf_scene/src/asset.rt and
//! crates/gltf_scene/specs/Asset.antt. Do not edit.

ghost use Rattle.gltf_scene.specs.Asset.{asset_members, asset_rows};
ghost use Rattle.gltf_scene.specs.AssetDerived.{asset_height, asset_sound};
ghost use Rattle.serde_json.specs.Data.{no_members};
ghost use Rattle.std.proofs.Common.{lit≤};
ghost use Rattle.std.specs.Prelude.{false};

use super::Asset;
use gltf_schema::{Object, ReadRows, WriteRows};
use std::alloc::Global;

impl Object for Asset {
    ghost rows = { asset_rows };

    ghost keeps = { false };

    ghost members = { asset_members };

    ghost unknown = { λ _. no_members };

    ghost kind_is_sound = { asset_sound };

    ghost height = { 0 };

    ghost height_bounds_kind = { (asset_height.1, lit≤ tt) };

    #[tactic(auto, unfolding(crate::specs::Asset::asset_rows, crate::specs::Asset::asset_members))]
    fn start(alloc: Global) -> Asset {
        Asset {
            copyright: None,
            generator: None,
            min_version: None,
            version: String::new(alloc),
            extensions: None,
            extras: None,
        }
    }

    #[tactic(auto, unfolding(crate::specs::Asset::asset_rows))]
    fn count_required() -> usize {
        1
    }

    fn read_rows<R: ReadRows>(&mut self, from: &mut R) {
        from.optional("copyright", &mut self.copyright);
        from.optional("generator", &mut self.generator);
        from.optional("minVersion", &mut self.min_version);
        from.required("version", &mut self.version);
        from.optional("extensions", &mut self.extensions);
        from.optional("extras", &mut self.extras);
    }

    fn write_members<W: WriteRows>(&self, to: &mut W) {
        to.optional("copyright", &self.copyright);
        to.optional("extensions", &self.extensions);
        to.optional("extras", &self.extras);
        to.optional("generator", &self.generator);
        to.optional("minVersion", &self.min_version);
        to.always("version", &self.version);
    }
}
