//! Values in which nothing can be wrong.

ghost use Rattle.std.specs.Prelude.{◌≡◌, None, refl};
ghost use Rattle.gltf_parts.specs.Image.{mime_type_tree};
ghost use Rattle.gltf_parts.specs.Material.{alpha_cutoff_tree};
ghost use Rattle.gltf_scene.specs.Scene.{unit_quaternion_tree};
ghost use Rattle.gltf_parts.specs.MaterialExtension.{unlit_kind, unlit_tree};
ghost use Rattle.gltf_schema.specs.Tree.{Tree, absent, whole, truth};
ghost use Rattle.gltf_schema.specs.Kind.{Kind, U32, U64, Number, Numbers, Text, Truth, Any};
ghost use Rattle.gltf_schema.specs.Fields.{size_tree, real_tree, reals_tree, text_tree, any_tree, kept_tree, dropped_tree};
ghost use Rattle.gltf_schema.specs.Extensions.{kept_extensions, dropped_extensions};
ghost use Rattle.gltf_validation_rules.specs.Context.{Context as SpecContext};
ghost use Rattle.gltf_validation_objects.specs.Checklist.{leaf};
ghost use Rattle.gltf_validation_objects.specs.ChecklistOf.{checklist};

use crate::value_ref::ValueRef;
use crate::visitable::Visitable;
use gltf_base::Real;
use gltf_base::validation::USize64;
use gltf_parts::extensions::material::Unlit;
use gltf_parts::extras::Void;
use gltf_parts::image::MimeType;
use gltf_parts::material::AlphaCutoff;
use gltf_scene::scene::UnitQuaternion;
use gltf_schema::{DroppedExtensions, KeptExtensions};
use gltf_validation_rules::Context;
use serde_json::Value;

/// A type in which nothing can be wrong.
pub trait AlwaysValid {
    /// The kind of such a value in the table; `Any` for a type that the table doesn't name.
    ghost kind: { Kind } = { Any };

    /// The value as the table sees it.
    ghost tree: { Self → Tree } = { λ _. absent };

    // The checklist is a leaf without a fault.
    ghost quiet_checklist: { (x : Self) (context : SpecContext)
        → checklist kind (tree x) context absent ≡ leaf None };
}

impl<T: AlwaysValid> Visitable for T {
    ghost kind = { T.kind };

    ghost tree = { T.tree };

    fn value_ref<'a>(&'a self, _context: &Context<'_>) -> ValueRef<'a> {
        ValueRef::Leaf(None)
    }
}

impl AlwaysValid for () {
    ghost quiet_checklist = { λ _ _. refl };
}

impl AlwaysValid for bool {
    ghost kind = { Truth };

    ghost tree = { truth };

    ghost quiet_checklist = { λ _ _. refl };
}

impl AlwaysValid for u32 {
    ghost kind = { U32 };

    ghost tree = { whole };

    ghost quiet_checklist = { λ _ _. refl };
}

impl AlwaysValid for i32 {
    ghost quiet_checklist = { λ _ _. refl };
}

impl AlwaysValid for Void {
    ghost quiet_checklist = { λ _ _. refl };
}

impl AlwaysValid for Real {
    ghost kind = { Number };

    ghost tree = { real_tree };

    ghost quiet_checklist = { λ _ _. refl };
}

impl<const N: usize> AlwaysValid for [Real; N] {
    ghost kind = { Numbers N };

    ghost tree = { reals_tree };

    ghost quiet_checklist = { λ _ _. refl };
}

/// No size is too large, because `usize` has 64 bits.
impl AlwaysValid for USize64 {
    ghost kind = { U64 };

    ghost tree = { size_tree };

    ghost quiet_checklist = { λ _ _. refl };
}

impl AlwaysValid for String {
    ghost kind = { Text };

    ghost tree = { text_tree };

    ghost quiet_checklist = { λ _ _. refl };
}

impl AlwaysValid for Value {
    ghost kind = { Any };

    ghost tree = { any_tree };

    ghost quiet_checklist = { λ _ _. refl };
}

/// The table has no rule for unknown extensions.
impl AlwaysValid for KeptExtensions {
    ghost kind = { kept_extensions };

    ghost tree = { kept_tree };

    ghost quiet_checklist = { λ _ _. refl };
}

impl AlwaysValid for DroppedExtensions {
    ghost kind = { dropped_extensions };

    ghost tree = { dropped_tree };

    ghost quiet_checklist = { λ _ _. refl };
}

impl AlwaysValid for MimeType {
    ghost kind = { Text };

    ghost tree = { mime_type_tree };

    ghost quiet_checklist = { λ _ _. refl };
}

impl AlwaysValid for AlphaCutoff {
    ghost kind = { Number };

    ghost tree = { alpha_cutoff_tree };

    ghost quiet_checklist = { λ _ _. refl };
}

impl AlwaysValid for UnitQuaternion {
    ghost kind = { Numbers 4 };

    ghost tree = { unit_quaternion_tree };

    ghost quiet_checklist = { λ _ _. refl };
}

/// It has no members.
impl AlwaysValid for Unlit {
    ghost kind = { unlit_kind };

    ghost tree = { unlit_tree };

    ghost quiet_checklist = { λ _ _. refl };
}
