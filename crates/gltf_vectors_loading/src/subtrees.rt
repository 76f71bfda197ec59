//! Subtrees that are worked by hand.

use crate::child_lists::{ChildLists, line, lists_of};
use gltf_hierarchy::{HierarchyFault, Subtrees};
use gltf_vectors::holds;
use std::alloc::{AllocError, Global};
use std::test::Fail;

/// The children of nodes of which 1 and 2 are roots. Below node 1 are 0 and 3, and below node 3 are
/// 4 and 5.
const TREES: &[&[u32]] = &[&[], &[0, 3], &[], &[4, 5], &[], &[]];

/// The subtrees of those.
fn subtrees_of_trees(alloc: Global) -> Result<Subtrees, Fail> {
    let nodes = lists_of(alloc, TREES)?;
    Ok(Subtrees::of(alloc, &ChildLists(&nodes))?)
}

/// Whether these nodes, and no others up to 6, are at or below a node.
fn are_below(subtrees: &Subtrees, top: u32, nodes: &[u32]) -> bool {
    for node in 0..7 {
        if subtrees.is_at_or_below(top, node) != nodes.contains(&node) {
            return false;
        }
    }
    true
}

/// Whether each node has those below it that it should.
fn are_all_below(subtrees: &Subtrees) -> bool {
    are_below(subtrees, 0, &[0])
        && are_below(subtrees, 1, &[0, 1, 3, 4, 5])
        && are_below(subtrees, 2, &[2])
        && are_below(subtrees, 3, &[3, 4, 5])
        && are_below(subtrees, 4, &[4])
        && are_below(subtrees, 5, &[5])
}

/// Whether the nodes up to 5 have these roots.
fn are_roots(subtrees: &Subtrees, roots: &[u32; 6]) -> bool {
    for node in 0..6_usize {
        if subtrees.root(node as u32) != Some(roots[node]) {
            return false;
        }
    }
    true
}

#[test]
fn nodes_are_below_those_above(rt: HostRuntime) -> Result<(), Fail> {
    let subtrees = subtrees_of_trees(rt.alloc())?;
    holds(are_all_below(&subtrees), "nodes are below those above")?;
    holds(
        are_roots(&subtrees, &[1, 1, 2, 1, 1, 1]),
        "nodes have their roots",
    )?;
    holds(
        subtrees.root(6).is_none() && !subtrees.is_at_or_below(6, 6),
        "there is no node 6",
    )
}

/// Whether the last node of a chain of a thousand is below the first and the one before it.
fn is_one_tree(subtrees: &Subtrees) -> bool {
    subtrees.is_at_or_below(0, 999)
        && subtrees.is_at_or_below(998, 999)
        && !subtrees.is_at_or_below(999, 998)
        && subtrees.root(999) == Some(0)
}

// Each node has the next one below it.
#[test]
fn a_chain_is_one_tree(rt: HostRuntime) -> Result<(), Fail> {
    let nodes = line(rt.alloc(), 999)?;
    let subtrees = Subtrees::of(rt.alloc(), &ChildLists(&nodes))?;
    holds(is_one_tree(&subtrees), "a chain is one tree")
}

/// Whether nodes with these children are found to have a cycle.
fn have_cycle(alloc: Global, children: &[&[u32]]) -> Result<bool, AllocError> {
    let nodes = lists_of(alloc, children)?;
    let made = Subtrees::of(alloc, &ChildLists(&nodes));
    Ok(matches!(made, Err(HierarchyFault::Cycle { .. })))
}

#[test]
fn a_ring_is_no_tree(rt: HostRuntime) -> Result<(), Fail> {
    holds(have_cycle(rt.alloc(), &[&[1], &[0]])?, "a ring is a cycle")
}
