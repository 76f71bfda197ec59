//! The common root of the joints of a skin.

ghost use Rattle.std.specs.Prelude.{◌≡◌, ◌≢◌, ◌+◌, ◌<◌, ◌^◌, length, IfOk, IfErr};
ghost use Rattle.std.proofs.Common.{get_or};
ghost use Rattle.gltf_hierarchy.specs.Order.{IsOrder, AreNodes};
ghost use Rattle.gltf_hierarchy.specs.Joints.{AreAllNodes, IsJointFault};
ghost use Rattle.gltf_hierarchy.specs.Gathering.{AreCounted, IsRootOrNone, carried};

use crate::depths::zeros;
use crate::fault::JointFault;
use std::alloc::Global;

/// Returns the deepest node that is each of the joints or above it, from the parent of each node
/// and from an order in which each stands behind its parent.
pub fn root_over(
    alloc: Global,
    parents: &[Option<u32>],
    order: &[u32],
    joints: &[u32],
) -> Result<Option<u32>, JointFault>
    requires nodes { AreNodes parents.now }
    requires order { IsOrder parents.now order.now }
    ensures root { IfOk result (IsRootOrNone parents.now joints.now) }
    ensures nodes { IfOk result (λ _. AreAllNodes (length parents.now) joints.now) }
    ensures fault { IfErr result (IsJointFault (length parents.now) joints.now) }
{
    let mut counts = counts_of(alloc, parents.len(), joints)?;
    if joints.is_empty() {
        return Ok(None);
    }
    // Each joint is carried up to the parent of its node, from the last node on, until all meet.
    for place in (0..order.len()).rev() {
        let node = order[place] as usize;
        let here = counts[node];
        if here == joints.len() {
            return Ok(Some(order[place]));
        }
        if here != 0 {
            match parents[node] {
                None => return Ok(None),
                Some(parent) => carry(&mut counts, node, parent as usize),
            }
        }
    }
    Ok(None)
}

/// How many of the joints each node is.
fn counts_of(alloc: Global, count: usize, joints: &[u32]) -> Result<Vec<usize>, JointFault>
    ensures counted { IfOk result (λ counts.
        AreCounted count joints.now counts.items (length joints.now)) }
    ensures fault { IfErr result (IsJointFault count joints.now) }
{
    let mut counts = match zeros(alloc, count) {
        Ok(counts) => counts,
        Err(error) => return Err(JointFault::Memory(error)),
    };
    for place in 0..joints.len() {
        let joint = joints[place];
        if joint as usize >= count {
            return Err(JointFault::NoSuchNode { place, node: joint });
        }
        counts[joint as usize] += 1;
    }
    Ok(counts)
}

/// Carries what a node has to its parent.
fn carry(counts: &mut Vec<usize>, node: usize, parent: usize)
    requires node { node < length counts.old.items }
    requires parent { parent < length counts.old.items }
    requires apart { node ≢ parent }
    requires small { get_or counts.old.items parent 0 + get_or counts.old.items node 0 < 2 ^ 64 }
    ensures { counts.new.items ≡ carried counts.old.items node parent }
{
    counts[parent] += counts[node];
    counts[node] = 0;
}
