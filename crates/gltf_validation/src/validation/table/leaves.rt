//! What the members of objects hold: extensions of which none is known, numbers and texts; and the
//! object without members.

ghost use Rattle.std.proofs.Common.{lit≤};
ghost use Rattle.std.specs.Prelude.{refl};

use super::{SchemaObject, SchemaType};
use gltf_base::validation::USize64;
use gltf_base::{IndexTo, Names, Real};
use gltf_parts::buffer::Stride;
use gltf_parts::extensions::material::Unlit;
use gltf_parts::extras::Void;
use gltf_parts::image::MimeType;
use gltf_parts::material::AlphaCutoff;
use gltf_root::root::RootItem;
use gltf_scene::scene::UnitQuaternion;
use gltf_schema::{DroppedExtensions, KeptExtensions};
use serde_json::Value;

// ---- the object without members

impl SchemaObject for Unlit {
    ghost same_kind = { refl };

    ghost same_tree = { λ _. refl };
}

// ---- extensions of which none is known

impl SchemaType for KeptExtensions {
    ghost depth_bounds_kind = { (lit≤ tt, lit≤ tt) };
}

impl SchemaType for DroppedExtensions {
    ghost depth_bounds_kind = { (lit≤ tt, lit≤ tt) };
}

// ---- the factor that is never absent

impl SchemaType for AlphaCutoff {
    ghost depth_bounds_kind = { (lit≤ tt, lit≤ tt) };
}

// ---- indexes, numbers, texts and other values

impl<P: Names> SchemaType for IndexTo<P>
where
    P::Item: RootItem,
{
    ghost depth_bounds_kind = { (lit≤ tt, lit≤ tt) };
}

impl SchemaType for Stride {
    ghost depth_bounds_kind = { (lit≤ tt, lit≤ tt) };
}

impl SchemaType for MimeType {
    ghost depth_bounds_kind = { (lit≤ tt, lit≤ tt) };
}

impl SchemaType for UnitQuaternion {
    ghost depth_bounds_kind = { (lit≤ tt, lit≤ tt) };
}

impl SchemaType for () {
    ghost depth_bounds_kind = { (lit≤ tt, lit≤ tt) };
}

impl SchemaType for bool {
    ghost depth_bounds_kind = { (lit≤ tt, lit≤ tt) };
}

impl SchemaType for u32 {
    ghost depth_bounds_kind = { (lit≤ tt, lit≤ tt) };
}

impl SchemaType for i32 {
    ghost depth_bounds_kind = { (lit≤ tt, lit≤ tt) };
}

impl SchemaType for Void {
    ghost depth_bounds_kind = { (lit≤ tt, lit≤ tt) };
}

impl SchemaType for Real {
    ghost depth_bounds_kind = { (lit≤ tt, lit≤ tt) };
}

impl<const N: usize> SchemaType for [Real; N] {
    ghost depth_bounds_kind = { (lit≤ tt, lit≤ tt) };
}

impl SchemaType for USize64 {
    ghost depth_bounds_kind = { (lit≤ tt, lit≤ tt) };
}

impl SchemaType for String {
    ghost depth_bounds_kind = { (lit≤ tt, lit≤ tt) };
}

impl SchemaType for Value {
    ghost depth_bounds_kind = { (lit≤ tt, lit≤ tt) };
}
