//! Written by tools/derive.py from the rows and the structs of all objects. Do not edit.

mod accessor;
mod animation;
mod asset;
mod buffer;
mod camera;
mod image;
mod light;
mod material;
mod material_extension;
mod mesh;
mod root;
mod root_extension;
mod scene;
mod texture;
