//! The depth of each node.

ghost use Rattle.std.specs.Prelude.{◌≡◌, ◌<◌, ◌^◌, ◌+◌, ℕ, length, Some, replicate, IfOk};
ghost use Rattle.std.proofs.Common.{get_or};
ghost use Rattle.gltf_hierarchy.specs.Order.{AreNodes, IsOrder};
ghost use Rattle.gltf_hierarchy.specs.Depths.{AreDepthsOf, depth_under};

use std::alloc::{AllocError, Global};

/// How many steps each node is below a root, from the parent of each and from an order in which
/// each stands behind its parent.
pub fn depths_of(
    alloc: Global,
    parents: &[Option<u32>],
    order: &[u32],
) -> Result<Vec<usize>, AllocError>
    requires nodes { AreNodes parents.now }
    requires order { IsOrder parents.now order.now }
    ensures { IfOk result (λ depths. AreDepthsOf parents.now depths.items) }
{
    let mut depths = zeros(alloc, parents.len())?;
    for place in 0..order.len() {
        let node = order[place] as usize;
        let depth = depth_below(parents[node], &depths);
        depths[node] = depth;
    }
    Ok(depths)
}

/// So many zeros.
pub fn zeros(alloc: Global, count: usize) -> Result<Vec<usize>, AllocError>
    ensures { IfOk result (λ depths. depths.items ≡ replicate count 0) }
{
    vec![in alloc; 0; count]
}

/// The depth of a node with such a parent.
fn depth_below(parent: Option<u32>, depths: &[usize]) -> usize
    requires node { (p : ℕ) → parent ≡ Some p → p < length depths.now }
    requires small { (p : ℕ) → parent ≡ Some p → get_or depths.now p 0 + 1 < 2 ^ 64 }
    ensures { result ≡ depth_under parent depths.now }
{
    match parent {
        None => 0,
        Some(parent) => depths[parent as usize] + 1,
    }
}
