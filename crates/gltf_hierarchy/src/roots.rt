//! The root of the tree that each node is in.

ghost use Rattle.std.specs.Prelude.{◌≡◌, ◌<◌, ◌^◌, ℕ, length, replicate, Some, IfOk};
ghost use Rattle.std.proofs.Common.{get_or};
ghost use Rattle.gltf_hierarchy.specs.Forest.{forest_order, forest_parents};
ghost use Rattle.gltf_hierarchy.specs.Order.{AreNodes, IsOrder};
ghost use Rattle.gltf_hierarchy.specs.Roots.{AreRoots, root_under};

use crate::Forest;
use std::alloc::{AllocError, Global};

/// The root above each of so many nodes of a forest, or the node itself if it is one.
pub fn roots_of(alloc: Global, forest: &Forest, count: usize) -> Result<Vec<u32>, AllocError>
    requires count { length (forest_parents forest.now) ≡ count }
    requires nodes { AreNodes (forest_parents forest.now) }
    requires order { IsOrder (forest_parents forest.now) (forest_order forest.now) }
    ensures { IfOk result (λ roots. AreRoots (forest_parents forest.now) roots.items) }
{
    let mut roots = zeros(alloc, count)?;
    let order = forest.order();
    for place in 0..order.len() {
        let node = order[place];
        let root = root_under(node, forest.parent(node), &roots);
        roots[node as usize] = root;
    }
    Ok(roots)
}

/// So many zeros.
fn zeros(alloc: Global, count: usize) -> Result<Vec<u32>, AllocError>
    ensures { IfOk result (λ roots. roots.items ≡ replicate count 0) }
{
    vec![in alloc; 0; count]
}

/// The root above a node with such a parent.
fn root_under(node: u32, parent: Option<u32>, roots: &[u32]) -> u32
    requires { (p : ℕ) → parent ≡ Some p → p < length roots.now }
    ensures { result ≡ root_under node parent roots.now }
{
    match parent {
        None => node,
        Some(parent) => roots[parent as usize],
    }
}
