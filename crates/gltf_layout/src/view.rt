//! What a view says of bytes.

ghost use Rattle.std.specs.Prelude.{◌+◌, ◌≤◌, ◌↔◌, IsTrue};

/// The layout of a buffer view (glTF 2.0, section 5.11).
#[derive(Clone, Copy, Debug, PartialEq, Eq)]
pub struct ViewLayout {
    /// Where the view begins in its buffer, in bytes: `byteOffset`, or 0.
    pub byte_offset: u64,
    /// The length of the view, in bytes: `byteLength`.
    pub byte_length: u64,
    /// The stride between elements, in bytes: `byteStride`. `None` if elements are tightly packed.
    pub byte_stride: Option<u64>,
}

impl ViewLayout {
    /// Returns whether the view ends within a buffer of so many bytes. No number can wrap.
    pub fn fits(&self, buffer_length: u64) -> bool
        ensures { IsTrue result ↔ (self.now.byte_offset + self.now.byte_length ≤ buffer_length) }
    {
        self.byte_offset <= buffer_length && self.byte_length <= buffer_length - self.byte_offset
    }
}
