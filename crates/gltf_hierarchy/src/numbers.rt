//! The number of each node.

ghost use Rattle.std.specs.Prelude.{◌≡◌, ◌+◌, ◌<◌, ◌^◌, length, IfOk};
ghost use Rattle.std.proofs.Common.{get_or};
ghost use Rattle.gltf_hierarchy.specs.Forest.{forest_order, forest_parents};
ghost use Rattle.gltf_hierarchy.specs.Order.{AreNodes, IsOrder};
ghost use Rattle.gltf_hierarchy.specs.Shares.{AreShares, AreFirsts, above_of};

use crate::Forest;
use crate::shares::{above, filled};
use std::alloc::{AllocError, Global};

/// The numbers of the nodes of a forest, from their shares: behind that of its parent, each node
/// comes by its offset.
pub fn firsts_of(
    alloc: Global,
    forest: &Forest,
    sizes: &[usize],
    offsets: &[usize],
) -> Result<Vec<usize>, AllocError>
    requires order { IsOrder (forest_parents forest.now) (forest_order forest.now) }
    requires nodes { AreNodes (forest_parents forest.now) }
    requires shares { AreShares (forest_parents forest.now) (forest_order forest.now) sizes.now
        offsets.now 0 }
    requires small { get_or sizes.now (length (forest_parents forest.now)) 0 < 2 ^ 64 }
    ensures { IfOk result (λ firsts. AreFirsts (forest_parents forest.now) offsets.now
        firsts.items) }
{
    let mut firsts = filled(alloc, offsets.len(), 0)?;
    let order = forest.order();
    let count = offsets.len() - 1;
    for place in 0..order.len() {
        let node = order[place];
        let above = above(count, forest.parent(node));
        let first = firsts[above] + offsets[node as usize];
        firsts[node as usize] = first;
    }
    Ok(firsts)
}
