//! Laws of the definitions that contracts cite. Each is the contract of a function that does
//! nothing.

ghost use Rattle.std.specs.Prelude.{◌≡◌, false, true, [], codes, IsTrue, ◌↔◌, ◌==◌, ℕ, List, ◌∷◌, Some};
ghost use Rattle.std.specs.Cmp.{IsTotalOrder};
ghost use Rattle.std.specs.Ordering.{is_eq, nat_cmp};
ghost use Rattle.std.specs.declared.cmp.Ordering.TheVariants.{Less, Equal, Greater};
ghost use Rattle.gltf_base.specs.Keys.{key_cmp, key_eq, extras, tex_coords, joints, colors, unknown, key_text};
ghost use Rattle.gltf_base.specs.Names.{key_named};
ghost use Rattle.gltf_base.specs.Semantics.{checked_key};
ghost use Rattle.gltf_base.specs.declared.mesh.Semantic.{Semantic as SpecSemantic};
ghost use Rattle.gltf_base.specs.declared.validation.Checked.{Checked as SpecChecked};
ghost use Rattle.gltf_base.specs.declared.validation.Checked.TheVariants.{Valid, Invalid};
ghost use Rattle.gltf_base.specs.Spelling.{by_number, is_spelled, item_spelled};
ghost use Rattle.gltf_base.specs.Choices.{component_type_spelling, generic_component_type_spelling, generic_component_types, index_component_type_spelling, index_component_types, accessor_type_spelling, target_spelling, mode_spelling};
ghost use Rattle.gltf_base.specs.SceneChoices.{interpolation_spelling, property_spelling, camera_type_spelling, light_type_spelling, alpha_mode_spelling};
ghost use Rattle.gltf_base.specs.TextureChoices.{mag_filter_spelling, min_filter_spelling, wrapping_mode_spelling};
ghost use Rattle.gltf_base.specs.declared.accessor.ComponentType.{ComponentType as AComponentType};
ghost use Rattle.gltf_base.specs.declared.accessor.AccessorType.{AccessorType as AnAccessorType};
ghost use Rattle.gltf_base.specs.declared.animation.Interpolation.{Interpolation as AnInterpolation};
ghost use Rattle.gltf_base.specs.declared.animation.Property.{Property as AProperty};
ghost use Rattle.gltf_base.specs.declared.buffer.Target.{Target as ATarget};
ghost use Rattle.gltf_base.specs.declared.camera.CameraType.{CameraType as ACameraType};
ghost use Rattle.gltf_base.specs.declared.extensions.scene.khr_lights_punctual.LightType.{LightType as ALightType};
ghost use Rattle.gltf_base.specs.declared.material.AlphaMode.{AlphaMode as AnAlphaMode};
ghost use Rattle.gltf_base.specs.declared.mesh.Mode.{Mode as AMode};
ghost use Rattle.gltf_base.specs.declared.texture.MagFilter.{MagFilter as AMagFilter};
ghost use Rattle.gltf_base.specs.declared.texture.MinFilter.{MinFilter as AMinFilter};
ghost use Rattle.gltf_base.specs.declared.texture.WrappingMode.{WrappingMode as AWrappingMode};
ghost use Rattle.gltf_base.specs.Errors.{error_code, error_rank};
ghost use Rattle.gltf_base.specs.Indexes.{index_number};
ghost use Rattle.gltf_base.specs.Pointers.{escaped, pointer_text};
ghost use Rattle.gltf_base.specs.Steps.{field, item, key, value};
ghost use Rattle.gltf_base.specs.Text.{path_text};
ghost use Rattle.serde_json.specs.Find.{unescape};
ghost use Rattle.gltf_base.specs.declared.index.IndexTo.{IndexTo as AnIndex};
ghost use Rattle.gltf_base.specs.declared.validation.Error.{Error as AnError};
ghost use Rattle.gltf_base.specs.declared.validation.USize64.{USize64 as ASize};

use crate::accessor::{AccessorType, ComponentType};
use crate::animation::{Interpolation, Property};
use crate::buffer::Target;
use crate::camera::CameraType;
pub use crate::choice::spellings_are_read_back;
use crate::extensions::scene::khr_lights_punctual::LightType;
use crate::index::IndexTo;
use crate::material::AlphaMode;
pub use crate::mesh::texts_are_read_back;
use crate::mesh::{Mode, Semantic};
use crate::texture::{MagFilter, MinFilter, WrappingMode};
use crate::validation::{Checked, Error, USize64};
use std::hash::Hash;

/// An order is total, and `Equal` if and only if values are equal. Equal values hash alike.
pub fn orders_agree_with_equality<T: Ord + Hash>()
    ensures total { IsTotalOrder T.cmp }
    ensures equality { (x y : T) → T.eq x y ≡ is_eq (T.cmp x y) }
    ensures hash { (x y : T) → IsTrue (T.eq x y) → T.hash_input x ≡ T.hash_input y }
{}

/// Items are equal as they are, and `Invalid` equals itself alone.
pub fn items_are_equal_as_they_are<T: PartialEq>()
    ensures items { (x y : T) → ⟦<Checked<T> as PartialEq>⟧.eq (Valid x) (Valid y) ≡ T.eq x y }
    ensures item { (x : T) → ⟦<Checked<T> as PartialEq>⟧.eq (Valid x) Invalid ≡ false }
    ensures none { (x : T) → ⟦<Checked<T> as PartialEq>⟧.eq Invalid (Valid x) ≡ false }
    ensures same { ⟦<Checked<T> as PartialEq>⟧.eq Invalid Invalid ≡ true }
{}

/// Every item is before `Invalid`, and items are compared as they are.
pub fn items_are_before_invalid<T: Ord>()
    ensures items { (x y : T) → ⟦<Checked<T> as Ord>⟧.cmp (Valid x) (Valid y) ≡ T.cmp x y }
    ensures before { (x : T) → ⟦<Checked<T> as Ord>⟧.cmp (Valid x) Invalid ≡ Less }
    ensures behind { (x : T) → ⟦<Checked<T> as Ord>⟧.cmp Invalid (Valid x) ≡ Greater }
    ensures same { ⟦<Checked<T> as Ord>⟧.cmp Invalid Invalid ≡ Equal }
{}

/// Keys of attributes are ordered and equal as what they mean.
pub fn semantics_are_ordered_as_keys()
    ensures order { (a b : SpecChecked SpecSemantic)
        → ⟦<Checked<Semantic> as Ord>⟧.cmp a b ≡ key_cmp (checked_key a) (checked_key b) }
    ensures equality { (a b : SpecChecked SpecSemantic)
        → ⟦<Checked<Semantic> as PartialEq>⟧.eq a b ≡ key_eq (checked_key a) (checked_key b) }
{}

/// What some names of attributes mean, computed from the definitions.
#[tactic(auto, unfolding(crate::specs::Names::key_named))]
pub fn worked_names()
    ensures sets { (key_named (codes "TEXCOORD_007") ≡ tex_coords 7)
        × (key_named (codes "JOINTS_+0") ≡ joints 0)
        × (key_named (codes "COLOR_4294967295") ≡ colors 4294967295) }
    ensures no_sets { (key_named (codes "COLOR_") ≡ unknown)
        × (key_named (codes "COLOR_4294967296") ≡ unknown)
        × (key_named (codes "JOINTS_++0") ≡ unknown) × (key_named (codes "position") ≡ unknown) }
    ensures own_names { (key_named (codes "_") ≡ extras [])
        × (key_named (codes "_POSITION") ≡ extras (codes "POSITION")) }
{}

/// Items of a choice are equal if they are spelled alike.
pub fn items_are_equal_by_spelling()
    ensures component_type { (a b : AComponentType) → ⟦<ComponentType as PartialEq>⟧.eq a b
        ≡ is_spelled (component_type_spelling a) (component_type_spelling b) }
    ensures accessor_type { (a b : AnAccessorType) → ⟦<AccessorType as PartialEq>⟧.eq a b
        ≡ is_spelled (accessor_type_spelling a) (accessor_type_spelling b) }
    ensures interpolation { (a b : AnInterpolation) → ⟦<Interpolation as PartialEq>⟧.eq a b
        ≡ is_spelled (interpolation_spelling a) (interpolation_spelling b) }
    ensures property { (a b : AProperty) → ⟦<Property as PartialEq>⟧.eq a b
        ≡ is_spelled (property_spelling a) (property_spelling b) }
    ensures target { (a b : ATarget) → ⟦<Target as PartialEq>⟧.eq a b
        ≡ is_spelled (target_spelling a) (target_spelling b) }
    ensures camera_type { (a b : ACameraType) → ⟦<CameraType as PartialEq>⟧.eq a b
        ≡ is_spelled (camera_type_spelling a) (camera_type_spelling b) }
    ensures light_type { (a b : ALightType) → ⟦<LightType as PartialEq>⟧.eq a b
        ≡ is_spelled (light_type_spelling a) (light_type_spelling b) }
    ensures alpha_mode { (a b : AnAlphaMode) → ⟦<AlphaMode as PartialEq>⟧.eq a b
        ≡ is_spelled (alpha_mode_spelling a) (alpha_mode_spelling b) }
    ensures mode { (a b : AMode) → ⟦<Mode as PartialEq>⟧.eq a b
        ≡ is_spelled (mode_spelling a) (mode_spelling b) }
    ensures mag_filter { (a b : AMagFilter) → ⟦<MagFilter as PartialEq>⟧.eq a b
        ≡ is_spelled (mag_filter_spelling a) (mag_filter_spelling b) }
    ensures min_filter { (a b : AMinFilter) → ⟦<MinFilter as PartialEq>⟧.eq a b
        ≡ is_spelled (min_filter_spelling a) (min_filter_spelling b) }
    ensures wrapping_mode { (a b : AWrappingMode) → ⟦<WrappingMode as PartialEq>⟧.eq a b
        ≡ is_spelled (wrapping_mode_spelling a) (wrapping_mode_spelling b) }
{}

/// Light types are equal if and only if they hash alike.
pub fn equal_light_types_hash_alike()
    ensures { (a b : ALightType)
        → (⟦<LightType as PartialEq>⟧.eq a b ≡ true)
        ↔ (⟦<LightType as Hash>⟧.hash_input a ≡ ⟦<LightType as Hash>⟧.hash_input b) }
{}

/// What some numbers are read as, computed from the definitions.
pub fn worked_numbers()
    ensures component_types { (item_spelled generic_component_type_spelling generic_component_types
        (by_number 4294972416) ≡ Invalid)
        × (item_spelled generic_component_type_spelling generic_component_types (by_number 5124)
        ≡ Invalid)
        × (item_spelled generic_component_type_spelling generic_component_types (by_number 5126)
        ≡ Valid (record { 0 = ComponentType.F32 })) }
    ensures index_types { (item_spelled index_component_type_spelling index_component_types
        (by_number 5126) ≡ Invalid)
        × (item_spelled index_component_type_spelling index_component_types (by_number 5123)
        ≡ Valid (record { 0 = ComponentType.U16 })) }
{}

/// Indexes are compared and hashed as their numbers.
pub fn indexes_are_compared_as_numbers<P>()
    ensures equality { (i j : AnIndex P)
        → ⟦<IndexTo<P> as PartialEq>⟧.eq i j ≡ (index_number i == index_number j) }
    ensures order { (i j : AnIndex P)
        → ⟦<IndexTo<P> as Ord>⟧.cmp i j ≡ nat_cmp (index_number i) (index_number j) }
    ensures partial_order { (i j : AnIndex P)
        → ⟦<IndexTo<P> as PartialOrd>⟧.partial_cmp i j
        ≡ Some (nat_cmp (index_number i) (index_number j)) }
    ensures hash { (i : AnIndex P)
        → ⟦<IndexTo<P> as Hash>⟧.hash_input i ≡ ⟦<u32 as Hash>⟧.hash_input (index_number i) }
{}

/// Faults are in the order in which they are declared.
pub fn errors_are_ordered_by_rank()
    ensures order { (a b : AnError)
        → ⟦<Error as Ord>⟧.cmp a b ≡ nat_cmp (error_rank a) (error_rank b) }
    ensures equality { (a b : AnError)
        → ⟦<Error as PartialEq>⟧.eq a b ≡ (error_rank a == error_rank b) }
{}

/// Faults with the same code are the same.
pub fn codes_tell_errors_apart()
    ensures { (a b : AnError) → error_code a ≡ error_code b → a ≡ b }
{}

/// Sizes are equal if their numbers are.
pub fn sizes_are_compared_as_numbers()
    ensures equality { (a b : ASize) → ⟦<USize64 as PartialEq>⟧.eq a b ≡ (a.0 == b.0) }
    ensures hash { (a : ASize) → ⟦<USize64 as Hash>⟧.hash_input a ≡ ⟦<u64 as Hash>⟧.hash_input a.0 }
{}

/// What some steps mean, computed from the definitions.
pub fn worked_paths()
    ensures { (path_text (field (codes "foo") ∷ item 0 ∷ value (codes "baz") ∷ [])
        ≡ codes "foo[0] = \"baz\"")
        × (path_text (field (codes "foo") ∷ field (codes "bar") ∷ item 123 ∷ [])
        ≡ codes "foo.bar[123]")
        × (path_text (field (codes "a") ∷ key (key_text unknown) ∷ item 2 ∷ field (codes "b") ∷ [])
        ≡ codes "a[\"<invalid semantic name>\"][2].b") }
{}

/// A name is read back from its part of a pointer, as `Value::pointer` of `serde_json` reads it.
pub fn names_are_read_back()
    ensures { (name : List ℕ) → unescape (escaped name) ≡ name }
{}

/// What some steps are as pointers, computed from the definitions.
pub fn worked_pointers()
    ensures { (pointer_text [] ≡ [])
        × (pointer_text (field (codes "a/b") ∷ item 10 ∷ key (codes "m~n") ∷ value (codes "x") ∷ [])
        ≡ codes "/a~1b/10/m~0n") }
{}

/// The law that the constants of accessors list their choices.
pub mod accessor {
    pub use crate::accessor::constants_are_listed;
}

/// The law that the constants of animations list their choices.
pub mod animation {
    pub use crate::animation::constants_are_listed;
}

/// The law that the constants of buffers list their choices.
pub mod buffer {
    pub use crate::buffer::constants_are_listed;
}

/// The law that the constants of cameras list their choices.
pub mod camera {
    pub use crate::camera::constants_are_listed;
}

/// The law that the constants of extensions list their names.
pub mod extensions {
    pub use crate::extensions::constants_are_listed;
}

/// The law that the constants of images list their media types.
pub mod image {
    pub use crate::image::constants_are_listed;
}

/// The law that the constants of lights list their choices.
pub mod light {
    pub use crate::extensions::scene::khr_lights_punctual::constants_are_listed;
}

/// The law that the constants of materials list their choices.
pub mod material {
    pub use crate::material::constants_are_listed;
}

/// The law that the constants of meshes list their choices.
pub mod mesh {
    pub use crate::mesh::constants_are_listed;
}

/// The law that the constants of textures list their choices.
pub mod texture {
    pub use crate::texture::constants_are_listed;
}
