//! Forests and faults that are worked by hand.

use crate::child_lists::{ChildLists, chain, line, lists_of};
use gltf_hierarchy::{Forest, HierarchyFault, JointFault};
use gltf_vectors::{holds, shows};
use std::alloc::{AllocError, Global};
use std::fmt::Write;
use std::test::Fail;

/// The forest of nodes with these children.
fn forest_of(alloc: Global, children: &[&[u32]]) -> Result<Forest, Fail> {
    let nodes = lists_of(alloc, children)?;
    Ok(Forest::of(alloc, &ChildLists(&nodes))?)
}

/// The children of nodes of which 1 and 2 are roots. Below node 1 are 0 and 3, and below node 3 is
/// 4.
const TREES: &[&[u32]] = &[&[], &[0, 3], &[], &[4], &[]];

/// Whether those nodes have their parents and their depths.
fn are_below_parents(forest: &Forest) -> bool {
    forest.parent(4) == Some(3)
        && forest.parent(2).is_none()
        && forest.depth(4) == Some(2)
        && forest.depth(5).is_none()
}

/// Whether nodes 1 and 2 are roots, and what isn't a root, or no node, is none.
fn are_roots_found(forest: &Forest) -> bool {
    forest.is_root(1) && forest.is_root(2) && !forest.is_root(0) && !forest.is_root(5)
}

#[test]
fn trees_are_a_forest(rt: HostRuntime) -> Result<(), Fail> {
    let forest = forest_of(rt.alloc(), TREES)?;
    holds(
        forest.order() == [1, 0, 2, 3, 4].as_slice(),
        "parents are before their children",
    )?;
    holds(are_below_parents(&forest), "nodes are below their parents")?;
    holds(are_roots_found(&forest), "nodes 1 and 2 are roots")
}

/// The same trees, with a second node below node 3.
const WIDER_TREES: &[&[u32]] = &[&[], &[0, 3], &[], &[4, 5], &[], &[]];

/// Whether joints have this common root.
fn is_common_root(alloc: Global, forest: &Forest, joints: &[u32], root: Option<u32>) -> bool {
    match forest.common_root(alloc, joints) {
        Ok(found) => found == root,
        Err(_) => false,
    }
}

/// Whether joints of the wider trees that are in one tree have their common root.
fn are_roots_common(alloc: Global, forest: &Forest) -> bool {
    is_common_root(alloc, forest, &[5, 0, 4], Some(1))
        && is_common_root(alloc, forest, &[4, 5, 4], Some(3))
        && is_common_root(alloc, forest, &[4, 3], Some(3))
        && is_common_root(alloc, forest, &[4], Some(4))
}

/// Whether the second joint is found to be no node.
fn is_second_no_node(alloc: Global, forest: &Forest) -> bool {
    matches!(
        forest.common_root(alloc, &[4, 6, 7]),
        Err(JointFault::NoSuchNode { place: 1, node: 6 })
    )
}

#[test]
fn joints_have_a_common_root(rt: HostRuntime) -> Result<(), Fail> {
    let alloc = rt.alloc();
    let forest = forest_of(alloc, WIDER_TREES)?;
    holds(
        are_roots_common(alloc, &forest),
        "joints of one tree have a common root",
    )?;
    holds(
        is_common_root(alloc, &forest, &[4, 2], None) && is_common_root(alloc, &forest, &[], None),
        "joints of two trees, and no joints, have none",
    )?;
    holds(
        is_second_no_node(alloc, &forest),
        "a joint that is no node is a fault",
    )
}

/// The faults of nodes, each on a line.
fn faults_in(alloc: Global, nodes: &[Vec<u32>]) -> Result<String, AllocError> {
    let mut text = String::new(alloc);
    for fault in &Forest::faults(alloc, &ChildLists(nodes))? {
        writeln!(text, "{fault}")?;
    }
    Ok(text)
}

/// The children of nodes with several faults.
const FAULTY: &[&[u32]] = &[&[1, 9, 1], &[2], &[1], &[6], &[3], &[5], &[4], &[3]];

#[test]
fn each_fault_is_listed(rt: HostRuntime) -> Result<(), Fail> {
    let nodes = lists_of(rt.alloc(), FAULTY)?;
    shows(
        faults_in(rt.alloc(), &nodes),
        "node 0 has a child 9, which does not exist\n\
        node 1 is the child of node 0 and of node 0\n\
        node 1 is the child of node 0 and of node 2\n\
        node 3 is the child of node 4 and of node 7\n\
        node 3 is below itself\n\
        node 5 is below itself\n",
    )
}

#[test]
fn equal_children_are_faults(rt: HostRuntime) -> Result<(), Fail> {
    let alloc = rt.alloc();
    let nodes = [vec![in alloc; 1; 100000]?, Vec::new(alloc)];
    let faults = Forest::faults(alloc, &ChildLists(&nodes))?;
    holds(faults.len() == 99999, "each child but the first is a fault")
}

/// The fault of nodes, of which there is no forest.
fn fault_in(alloc: Global, nodes: &[Vec<u32>]) -> Option<HierarchyFault> {
    Forest::of(alloc, &ChildLists(nodes)).err()
}

/// Whether a ring of so many nodes is a cycle, and has no other fault.
fn is_ring_a_cycle(alloc: Global, count: u32) -> Result<bool, AllocError> {
    let nodes = chain(alloc, count, 0)?;
    let is_cycle = matches!(fault_in(alloc, &nodes), Some(HierarchyFault::Cycle { .. }));
    Ok(is_cycle && faults_in(alloc, &nodes)?.as_str() == "node 0 is below itself\n")
}

#[test]
fn rings_are_cycles(rt: HostRuntime) -> Result<(), Fail> {
    holds(is_ring_a_cycle(rt.alloc(), 1)?, "a node below itself")?;
    holds(is_ring_a_cycle(rt.alloc(), 3)?, "three nodes")?;
    holds(is_ring_a_cycle(rt.alloc(), 1000000)?, "a million nodes")
}

#[test]
fn a_long_chain_is_a_forest(rt: HostRuntime) -> Result<(), Fail> {
    let nodes = line(rt.alloc(), 1000000)?;
    let forest = Forest::of(rt.alloc(), &ChildLists(&nodes))?;
    holds(
        forest.depth(1000000) == Some(1000000),
        "the last node is the deepest",
    )?;
    holds(
        is_common_root(
            rt.alloc(),
            &forest,
            &[1000000, 999999, 500000],
            Some(500000),
        ),
        "the first of the joints is over the others",
    )
}

#[test]
fn a_long_chain_has_no_faults(rt: HostRuntime) -> Result<(), Fail> {
    let nodes = line(rt.alloc(), 1000000)?;
    let faults = Forest::faults(rt.alloc(), &ChildLists(&nodes))?;
    holds(faults.is_empty(), "a chain has no faults")
}

/// Whether node 2 is found to be below nodes 0 and 1.
fn is_second_parent_found(alloc: Global, nodes: &[Vec<u32>]) -> bool {
    matches!(
        fault_in(alloc, nodes),
        Some(HierarchyFault::TwoParents {
            child: 2,
            first: 0,
            second: 1,
        })
    )
}

#[test]
fn a_second_parent_is_found(rt: HostRuntime) -> Result<(), Fail> {
    let nodes = lists_of(rt.alloc(), &[&[2], &[2], &[]])?;
    holds(
        is_second_parent_found(rt.alloc(), &nodes),
        "node 2 has two parents",
    )
}
