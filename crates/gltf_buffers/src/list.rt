//! What a document says of its buffers.

ghost use Rattle.std.specs.Prelude.{◌≡◌, ◌<◌, List, length, slice_get, Some};
ghost use Rattle.gltf_buffers.specs.Sources.{Buffer, buffer_of};

/// A buffer of a document (glTF 2.0, section 5.10).
#[derive(Clone, Copy, Debug, PartialEq, Eq)]
pub struct StoredBuffer<'a> {
    /// How many bytes it has: `byteLength`.
    pub byte_length: u64,
    /// Where its bytes are: `uri`.
    pub uri: Option<&'a str>,
}

/// The buffers of a document. Each is named by its place in the list: the first one is number 0.
pub trait BufferList {
    // What the list holds.
    ghost listed: { Self → List Buffer };

    /// How many buffers there are.
    fn buffer_count(&self) -> usize
        ensures { result ≡ length (listed self.now) };

    /// A buffer.
    fn buffer(&self, number: usize) -> StoredBuffer<'_>
        requires { number < length (listed self.now) }
        ensures { slice_get (listed self.now) number ≡ Some (buffer_of result) };
}
