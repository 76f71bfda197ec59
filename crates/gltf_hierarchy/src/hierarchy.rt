//! Nodes and their children.

ghost use Rattle.std.specs.Prelude.{◌≡◌, ◌<◌, ℕ, List, length};
ghost use Rattle.gltf_hierarchy.specs.Nodes.{children_of, IsChildAt};

/// Nodes of which each may have others as its children. A node is named by its number: the first
/// one is node 0.
pub trait Hierarchy {
    // For each node the numbers of its children, in order.
    ghost children: { Self → List (List ℕ) };

    /// Returns how many nodes there are.
    fn node_count(&self) -> usize
        ensures { result ≡ length (children self.now) };

    /// Returns how many children a node has.
    fn child_count(&self, node: u32) -> usize
        requires { node < length (children self.now) }
        ensures { result ≡ length (children_of (children self.now) node) };

    /// Returns the number of the child at a place among the children of a node.
    fn child(&self, node: u32, place: usize) -> u32
        requires node { node < length (children self.now) }
        requires place { place < length (children_of (children self.now) node) }
        ensures { IsChildAt (children self.now) node place result };
}
