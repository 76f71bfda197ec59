//! What can be pushed onto a root without reports.

ghost use Rattle.std.specs.Prelude.{◌≡◌, refl};
ghost use Rattle.std.proofs.Common.{◌∙◌};
ghost use Rattle.gltf_root.specs.Pushed.{item_kind};

use crate::top_level::TopLevelItem;
use crate::validation::SchemaObject;
use gltf_root::root::RootItem;
use gltf_scene::extensions::scene::khr_lights_punctual::Light;
use gltf_scene::extensions::scene::khr_materials_variants::Variant;

/// A type that a root lists: each one that implements `RootItem`.
pub trait Item: SchemaObject + RootItem {
    // The table has the type by the kind of the items of its list.
    ghost kind_is_item_kind: { Self.kind ≡ item_kind Self.list };

    // It has an item by the tree by which the list has it.
    ghost trees_are_equal: { (item : Self) → Self.Visitable.tree item ≡ Self.RootItem.tree item };
}

impl<T: TopLevelItem> Item for T {
    ghost kind_is_item_kind = { T.same_kind ∙ T.kind_is_item_kind };

    ghost trees_are_equal = { T.same_tree };
}

impl Item for Light {
    ghost kind_is_item_kind = { refl };

    ghost trees_are_equal = { λ _. refl };
}

impl Item for Variant {
    ghost kind_is_item_kind = { refl };

    ghost trees_are_equal = { λ _. refl };
}
