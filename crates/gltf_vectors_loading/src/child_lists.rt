//! Nodes by the lists of their children.

ghost use Rattle.std.specs.Prelude.{map};

use gltf_hierarchy::Hierarchy;
use std::alloc::{AllocError, Global};

/// The children of each node.
#[derive(Clone, Copy)]
pub(crate) struct ChildLists<'a>(pub(crate) &'a [Vec<u32>]);

impl Hierarchy for ChildLists<'_> {
    ghost children = { λ s. map (λ v. v.items) s.0.now };

    fn node_count(&self) -> usize {
        self.0.len()
    }

    fn child_count(&self, node: u32) -> usize {
        self.0[node as usize].len()
    }

    fn child(&self, node: u32, place: usize) -> u32 {
        self.0[node as usize][place]
    }
}

/// The children of each node, as lists.
pub(crate) fn lists_of(alloc: Global, nodes: &[&[u32]]) -> Result<Vec<Vec<u32>>, AllocError> {
    let mut lists = Vec::new(alloc);
    for children in nodes {
        lists.push(children.to_vec(alloc)?)?;
    }
    Ok(lists)
}

/// Nodes of which each has the next one as its child, and the last one has `child`.
pub(crate) fn chain(alloc: Global, count: u32, child: u32) -> Result<Vec<Vec<u32>>, AllocError> {
    let mut nodes = Vec::new(alloc);
    for number in 1..count {
        nodes.push(vec![in alloc; number]?)?;
    }
    nodes.push(vec![in alloc; child]?)?;
    Ok(nodes)
}

/// Nodes up to this last one, of which each but the last has the next one as its child.
pub(crate) fn line(alloc: Global, last: u32) -> Result<Vec<Vec<u32>>, AllocError> {
    let mut nodes = chain(alloc, last, last)?;
    nodes.push(Vec::new(alloc))?;
    Ok(nodes)
}
