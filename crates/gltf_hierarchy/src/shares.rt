//! How many nodes are below each node, and where each stands among those below its parent.

ghost use Rattle.std.specs.Prelude.{◌≡◌, ◌≢◌, ◌+◌, ◌<◌, ◌≤◌, ◌^◌, length, replicate, IfOk};
ghost use Rattle.std.proofs.Common.{get_or};
ghost use Rattle.std.proofs.Math.ListN.{set};
ghost use Rattle.gltf_hierarchy.specs.Forest.{forest_order, forest_parents};
ghost use Rattle.gltf_hierarchy.specs.Order.{AreNodes, IsOrder};
ghost use Rattle.gltf_hierarchy.specs.Shares.{AreShares, above};

use crate::Forest;
use std::alloc::{AllocError, Global};

/// The shares of nodes in the nodes below their parents. The number behind the last node stands for
/// what is above all roots.
#[derive(Drop)]
pub struct Shares {
    /// How many nodes are each node or below it.
    pub sizes: Vec<usize>,
    /// Of each node the number of those nodes below its parent that stand before it, plus 1.
    pub offsets: Vec<usize>,
}

/// The shares of the nodes of a forest. Each node adds its size to that of its parent, from the
/// last one of the order on.
pub fn shares_of(alloc: Global, forest: &Forest, count: usize) -> Result<Shares, AllocError>
    requires count { length (forest_parents forest.now) ≡ count }
    requires few { count < 2 ^ 32 }
    requires order { IsOrder (forest_parents forest.now) (forest_order forest.now) }
    requires nodes { AreNodes (forest_parents forest.now) }
    ensures shares { IfOk result (λ shares. AreShares (forest_parents forest.now)
        (forest_order forest.now) shares.sizes.items shares.offsets.items 0) }
    ensures small { IfOk result (λ shares. get_or shares.sizes.items count 0 ≤ count + 1) }
{
    let mut sizes = filled(alloc, count + 1, 1)?;
    let mut offsets = filled(alloc, count + 1, 0)?;
    let order = forest.order();
    for place in (0..order.len()).rev() {
        let node = order[place];
        let above = above(count, forest.parent(node));
        give(&mut sizes, &mut offsets, node as usize, above);
    }
    Ok(Shares { sizes, offsets })
}

/// The same number so many times.
pub fn filled(alloc: Global, count: usize, number: usize) -> Result<Vec<usize>, AllocError>
    ensures { IfOk result (λ numbers. numbers.items ≡ replicate count number) }
{
    vec![in alloc; number; count]
}

/// The number of a parent, or for a root the number behind the last of so many nodes.
pub fn above(count: usize, parent: Option<u32>) -> usize
    ensures { result ≡ above count parent }
{
    match parent {
        None => count,
        Some(parent) => parent as usize,
    }
}

/// Gives a node the next share of the nodes below another.
fn give(sizes: &mut Vec<usize>, offsets: &mut Vec<usize>, node: usize, above: usize)
    requires node { node < length sizes.old.items }
    requires offset { node < length offsets.old.items }
    requires above { above < length sizes.old.items }
    requires small { get_or sizes.old.items above 0 + get_or sizes.old.items node 0 < 2 ^ 64 }
    ensures offsets { offsets.new.items
        ≡ set offsets.old.items node (get_or sizes.old.items above 0) }
    ensures sizes { sizes.new.items ≡ set sizes.old.items above
        (get_or sizes.old.items above 0 + get_or sizes.old.items node 0) }
{
    offsets[node] = sizes[above];
    sizes[above] += sizes[node];
}
