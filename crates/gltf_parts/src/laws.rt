//! What holds of the table and of the objects, as contracts of functions that do nothing.

ghost use Rattle.std.specs.Prelude.{◌≡◌, ◌==◌};

use crate::buffer::Stride;
pub use gltf_schema::laws::{
    keys_have_the_indexes_of_their_last_names, kinds_without_nulls_read_the_same,
    read_trees_are_plain, read_trees_are_refused_where_invalid,
    trees_of_a_kind_are_refused_where_invalid, values_are_refused_at_one_place,
    written_trees_are_read_back, written_trees_hold_nothing_invalid,
};
use std::hash::Hash;

/// Of the factors of materials.
pub mod material;
/// Of the factors of materials' extensions.
pub mod shading;
/// Of the factors of textures' extensions.
pub mod texture;

/// Strides are equal and hash as their numbers, and the default one is 0.
pub fn strides_are_compared_as_numbers()
    ensures equality { (a b : _) → ⟦<Stride as PartialEq>⟧.eq a b ≡ (a.0 == b.0) }
    ensures hash { (a : _) → ⟦<Stride as Hash>⟧.hash_input a ≡ ⟦<usize as Hash>⟧.hash_input a.0 }
    ensures default { (a : _) → ⟦<Stride as Default>⟧.is_default a → a.0 ≡ 0 }
{}
