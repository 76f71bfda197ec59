//! Paths, semantics, numbers, indexes and choices, objects that are made by hand, and the textures
//! of materials.

mod choices;
mod made;
mod textures;
mod values;
