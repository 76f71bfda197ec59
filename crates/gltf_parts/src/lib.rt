//! The glTF 2.0 objects of accessors, buffers, images, textures and materials.
#![tactic(auto)]

pub mod accessor;
pub mod buffer;
pub mod extensions;
pub mod extras;
pub mod image;
pub mod laws;
pub mod material;
pub mod texture;

pub use gltf_schema::{
    DroppedExtensions, Error, KeptExtensions, Object, Omittable, OwnedStep, Printing, ReadRows,
    Reading, Refusal, Schema, Source, Stream, Strict, StrictObject, StrictRows, Strip, Tabled,
    Tokens, Unlisted, Unread, WriteRows, Writing,
};
