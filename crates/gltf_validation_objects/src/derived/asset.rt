//! Written by tools/derive.py from crates/gltf_scene/specs/Asset.antt and
//! crates/gltf_scene/src/asset.rt. Do not edit.

ghost use Rattle.gltf_scene.specs.Asset.{asset_kind, asset_members, asset_rows};
ghost use Rattle.gltf_schema.specs.Fields.{closed_object};
ghost use Rattle.std.specs.Prelude.{refl};

use crate::always_valid::AlwaysValid;
use gltf_scene::asset::Asset;

impl AlwaysValid for Asset {
    ghost kind = { asset_kind };

    ghost tree = { λ v. closed_object (asset_members v) };

    ghost quiet_checklist = { λ _ _. unfold asset_rows asset_members in refl };
}
