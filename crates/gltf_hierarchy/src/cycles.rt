//! The cycles of nodes of which each has one parent at most.

ghost use Rattle.std.specs.Prelude.{◌≡◌, ◌<◌, ◌^◌, false, length, replicate, IfOk};
ghost use Rattle.gltf_hierarchy.specs.Order.{AreNodes};
ghost use Rattle.gltf_hierarchy.specs.Cycles.{AreLowest};
ghost use Rattle.gltf_hierarchy.specs.Trailing.{IsEnd, IsResting, IsLeast};

use crate::depths::zeros;
use std::alloc::{AllocError, Global};

/// Marks the lowest node of each cycle. No node is visited more often than twice.
pub fn lowest_of_cycles(alloc: Global, parents: &[Option<u32>]) -> Result<Vec<bool>, AllocError>
    requires nodes { AreNodes parents.now }
    requires few { length parents.now < 2 ^ 32 }
    ensures { IfOk result (λ marks. AreLowest parents.now marks.items) }
{
    let mut trail = Trail {
        steps: zeros(alloc, parents.len())?,
        nodes: Vec::new(alloc),
    };
    let mut marks = unmarked(alloc, parents.len())?;
    for start in 0..parents.len() {
        if let Some(first) = trail.climb(parents, start as u32)? {
            let lowest = least_from(&trail.nodes, first);
            marks[lowest as usize] = true;
        }
    }
    Ok(marks)
}

/// So many nodes without a mark.
fn unmarked(alloc: Global, count: usize) -> Result<Vec<bool>, AllocError>
    ensures { IfOk result (λ marks. marks.items ≡ replicate count false) }
{
    vec![in alloc; false; count]
}

/// The least number from a place on.
fn least_from(nodes: &[u32], first: usize) -> u32
    requires { first < length nodes.now }
    ensures { IsLeast nodes.now first result }
{
    let mut least = nodes[first];
    for place in first..nodes.len() {
        if nodes[place] < least {
            least = nodes[place];
        }
    }
    least
}

/// Nodes in the order in which climbs met them.
#[derive(Drop)]
pub struct Trail {
    /// Of each node its place in `nodes`, plus 1; 0 if no climb met it.
    steps: Vec<usize>,
    nodes: Vec<u32>,
}

impl Trail {
    /// Climbs from a node to a root, or to a node that is in the trail. Returns the place of the
    /// first node of a cycle, if the climb went round it.
    fn climb(&mut self, parents: &[Option<u32>], start: u32) -> Result<Option<usize>, AllocError>
        requires nodes { AreNodes parents.now }
        requires node { start < length parents.now }
        requires resting { IsResting parents.now self.old }
        ensures { IfOk result (IsEnd parents.now start self.old self.new) }
    {
        let base = self.nodes.len();
        let mut at = Some(start);
        while let Some(node) = at {
            let here = node as usize;
            let step = self.steps[here];
            if step > base {
                return Ok(Some(step - 1));
            }
            if step != 0 {
                return Ok(None);
            }
            self.nodes.push(node)?;
            self.steps[here] = self.nodes.len();
            at = parents[here];
        }
        Ok(None)
    }
}
