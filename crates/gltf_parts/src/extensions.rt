//! Extension objects: the values of an object's member `extensions`.

pub mod accessor;
pub mod buffer;
pub mod image;
pub mod material;
pub mod texture;
