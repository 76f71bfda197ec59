//! What the lists of a document say of nodes, buffers, buffer views and accessors.

ghost use Rattle.std.specs.Prelude.{◌≡◌};
ghost use Rattle.gltf_load.specs.Documents.{chosen, stored_view, stored_sparse, stored_accessor, stored_in};
ghost use Rattle.gltf_load.specs.Named.{children_named};

use crate::nodes::Nodes;
use crate::place::{offset_or_0, view_layout};
use gltf_base::validation::Checked;
use gltf_hierarchy::Hierarchy;
use gltf_layout::{SparsePart, Storage, StoredAccessor, StoredSparse, StoredView};
use gltf_parts::accessor::Accessor;
use gltf_parts::accessor::sparse::Sparse;
use gltf_parts::buffer::{Buffer, View};
use gltf_root::root::Root;
use gltf_scene::scene::Node;

/// The lists of a document that say which node is below which, and where the elements of accessors
/// lie. An item is named by its place in its list.
///
/// `Forest::of` and `Forest::faults` take the nodes. `Layout::of` and `LayoutFaults::of` take the
/// buffers, buffer views and accessors.
#[derive(Clone, Copy)]
pub struct Document<'a> {
    /// What `nodes` lists.
    pub nodes: &'a [Node],
    /// What `buffers` lists.
    pub buffers: &'a [Buffer],
    /// What `bufferViews` lists.
    pub views: &'a [View],
    /// What `accessors` lists.
    pub accessors: &'a [Accessor],
}

impl Document<'_> {
    /// Returns the lists of a document.
    pub fn of(root: &Root) -> Document<'_>
        ensures nodes { result.nodes.now ≡ root.now.nodes.items }
        ensures buffers { result.buffers.now ≡ root.now.buffers.items }
        ensures views { result.views.now ≡ root.now.buffer_views.items }
        ensures accessors { result.accessors.now ≡ root.now.accessors.items }
    {
        Document {
            nodes: &root.nodes,
            buffers: &root.buffers,
            views: &root.buffer_views,
            accessors: &root.accessors,
        }
    }
}

impl Hierarchy for Document<'_> {
    ghost children = { λ s. children_named s.nodes.now };

    fn node_count(&self) -> usize {
        self.nodes.len()
    }

    fn child_count(&self, node: u32) -> usize {
        Nodes(self.nodes).child_count(node)
    }

    fn child(&self, node: u32, place: usize) -> u32 {
        Nodes(self.nodes).child(node, place)
    }
}

impl Storage for Document<'_> {
    ghost stored = { λ s. stored_in s.buffers.now s.views.now s.accessors.now };

    fn buffer_length(&self, number: u32) -> Option<u64> {
        self.buffers
            .get(number as usize)
            .map(|buffer| buffer.byte_length.0)
    }

    fn view_count(&self) -> usize {
        self.views.len()
    }

    fn view(&self, number: usize) -> Option<StoredView> {
        self.views.get(number).map(stored_view)
    }

    fn accessor_count(&self) -> usize {
        self.accessors.len()
    }

    fn accessor(&self, number: usize) -> StoredAccessor {
        stored_accessor(&self.accessors[number])
    }
}

/// What a view says.
fn stored_view(view: &View) -> StoredView
    ensures { result ≡ stored_view view.now }
{
    StoredView {
        buffer: view.buffer.number(),
        layout: view_layout(view),
    }
}

/// What an accessor says.
fn stored_accessor(accessor: &Accessor) -> StoredAccessor
    ensures { result ≡ stored_accessor accessor.now }
{
    StoredAccessor {
        view: accessor.buffer_view.map(|view| view.number()),
        byte_offset: offset_or_0(accessor.byte_offset),
        component_type: chosen(accessor.component_type).map(|component_type| component_type.0),
        type_: chosen(accessor.type_),
        count: accessor.count.0,
        sparse: accessor.sparse.as_ref().map(stored_sparse),
    }
}

/// What a sparse accessor says of its deviating elements.
fn stored_sparse(sparse: &Sparse) -> StoredSparse
    ensures { result ≡ stored_sparse sparse.now }
{
    StoredSparse {
        count: sparse.count.0,
        indices: SparsePart {
            view: sparse.indices.buffer_view.number(),
            byte_offset: sparse.indices.byte_offset.0,
        },
        index_type: chosen(sparse.indices.component_type).map(|index_type| index_type.0),
        values: SparsePart {
            view: sparse.values.buffer_view.number(),
            byte_offset: sparse.values.byte_offset.0,
        },
    }
}

/// The value of a choice, if the document has one.
fn chosen<T: Copy>(checked: Checked<T>) -> Option<T>
    ensures { result ≡ chosen checked }
{
    match checked {
        Checked::Valid(item) => Some(item),
        Checked::Invalid => None,
    }
}
