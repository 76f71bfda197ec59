//! What a document says of buffers, buffer views and accessors.

ghost use Rattle.std.specs.Prelude.{◌≡◌, ◌<◌, length, slice_get, Some};
ghost use Rattle.gltf_layout.specs.Stored.{Stored};

use crate::view::ViewLayout;
use gltf_base::accessor::{AccessorType, ComponentType};

/// A buffer view of a document (glTF 2.0, section 5.11).
#[derive(Clone, Copy, Debug, PartialEq, Eq)]
pub struct StoredView {
    /// The number of the buffer that it is a part of.
    pub buffer: u32,
    /// Which bytes of the buffer it has.
    pub layout: ViewLayout,
}

/// An accessor of a document (glTF 2.0, section 5.1).
#[derive(Clone, Copy, Debug, PartialEq, Eq)]
pub struct StoredAccessor {
    /// The number of its view. `None` if its elements are zeros.
    pub view: Option<u32>,
    /// Where element 0 begins in the view: `byteOffset`, or 0.
    pub byte_offset: u64,
    /// What the components of an element are. `None` if the document has an invalid value.
    pub component_type: Option<ComponentType>,
    /// How many components an element has. `None` if the document has an invalid value.
    pub type_: Option<AccessorType>,
    /// How many elements there are.
    pub count: u64,
    /// The elements that deviate from those of the view.
    pub sparse: Option<StoredSparse>,
}

/// The elements of an accessor that deviate from those of its view (glTF 2.0, section 5.2).
#[derive(Clone, Copy, Debug, PartialEq, Eq)]
pub struct StoredSparse {
    /// How many elements deviate.
    pub count: u64,
    /// Where the indices of these elements lie (section 5.3).
    pub indices: SparsePart,
    /// What an index is. `None` if the document has an invalid value.
    pub index_type: Option<ComponentType>,
    /// Where the elements themselves lie (section 5.4).
    pub values: SparsePart,
}

/// A place in a view.
#[derive(Clone, Copy, Debug, PartialEq, Eq)]
pub struct SparsePart {
    /// The number of the view.
    pub view: u32,
    /// Where the first item begins in the view: `byteOffset`, or 0.
    pub byte_offset: u64,
}

/// The buffers, buffer views and accessors of a document (glTF 2.0, section 3.6). Each is named by
/// its place in its list: the first one is number 0.
pub trait Storage {
    // What the lists hold.
    ghost stored: { Self → Stored };

    /// The `byteLength` of a buffer. `None` if there is no such buffer.
    fn buffer_length(&self, number: u32) -> Option<u64>
        ensures { result ≡ slice_get (stored self.now).buffers number };

    /// How many buffer views there are.
    fn view_count(&self) -> usize
        ensures { result ≡ length (stored self.now).views };

    /// A buffer view. `None` if there is no such view.
    fn view(&self, number: usize) -> Option<StoredView>
        ensures { result ≡ slice_get (stored self.now).views number };

    /// How many accessors there are.
    fn accessor_count(&self) -> usize
        ensures { result ≡ length (stored self.now).accessors };

    /// An accessor.
    fn accessor(&self, number: usize) -> StoredAccessor
        requires { number < length (stored self.now).accessors }
        ensures { slice_get (stored self.now).accessors number ≡ Some result };
}
