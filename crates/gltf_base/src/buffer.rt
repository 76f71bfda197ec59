//! The choices of buffers and their views.

ghost use Rattle.std.specs.Prelude.{◌≡◌, map};
ghost use Rattle.gltf_base.specs.Spelling.{by_number};
ghost use Rattle.gltf_base.specs.Choices.{target_spelling, targets};

mod derived;

pub use derived::{ARRAY_BUFFER, ELEMENT_ARRAY_BUFFER, VALID_TARGETS};

/// The minimum stride of a buffer view, in bytes.
pub const MIN_BYTE_STRIDE: usize = 4;

/// The maximum stride of a buffer view, in bytes.
pub const MAX_BYTE_STRIDE: usize = 252;

/// The intended GPU buffer type of a buffer view (glTF 2.0, section 5.11.5).
#[derive(Clone, Copy, Debug, PartialEq, Eq)]
pub enum Target {
    /// Vertex attributes.
    ArrayBuffer = 1,
    /// Vertex indices.
    ElementArrayBuffer,
}

/// The constants of this module are those that the specification lists.
pub fn constants_are_listed()
    ensures numbers { (ARRAY_BUFFER ≡ 34962) × (ELEMENT_ARRAY_BUFFER ≡ 34963) }
    ensures strides { (MIN_BYTE_STRIDE ≡ 4) × (MAX_BYTE_STRIDE ≡ 252) }
    ensures targets { map by_number VALID_TARGETS.now ≡ map target_spelling targets }
{}
