//! The extension objects of animations, which keep unknown extensions, and of their channels,
//! targets and samplers, which keep none.

use gltf_schema::{DroppedExtensions, KeptExtensions};

/// The extensions of an animation.
pub type Animation = KeptExtensions;

/// The extensions of a channel.
pub type Channel = DroppedExtensions;

/// The extensions of a target.
pub type Target = DroppedExtensions;

/// The extensions of a sampler.
pub type Sampler = DroppedExtensions;
