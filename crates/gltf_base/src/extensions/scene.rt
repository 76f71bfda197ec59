//! The choices of the extensions of scenes.

pub mod khr_lights_punctual;
