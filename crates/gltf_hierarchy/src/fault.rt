//! What can be wrong with a hierarchy.

use std::alloc::AllocError;
use thiserror::Error;

/// Why nodes are no forest. Nodes are named by their numbers.
#[derive(Debug, Drop, Error)]
pub enum HierarchyFault {
    /// There are more nodes than an index can name: 2^32 or more.
    #[error("there are more nodes than an index can name")]
    TooManyNodes,
    /// A node has a child that doesn't exist.
    #[error("node {parent} has a child {child}, which does not exist")]
    NoSuchChild {
        /// The node.
        parent: u32,
        /// The number that is no node's.
        child: u32,
    },
    /// A node is the child of two nodes, or twice of one.
    #[error("node {child} is the child of node {first} and of node {second}")]
    TwoParents {
        /// The node that is a child twice.
        child: u32,
        /// Its parent at the first place.
        first: u32,
        /// Its parent at the second place, which is the same node or a later one.
        second: u32,
    },
    /// A node is below itself.
    #[error("node {node} is below itself")]
    Cycle {
        /// The node.
        node: u32,
    },
    /// Out of memory.
    #[error("out of memory")]
    Memory(AllocError),
}

/// Why joints have no answer.
#[derive(Debug, Drop, Error)]
pub enum JointFault {
    /// A joint is the number of no node.
    #[error("joint {place} is node {node}, which does not exist")]
    NoSuchNode {
        /// The place of the joint in the list.
        place: usize,
        /// The number that is no node's.
        node: u32,
    },
    /// Out of memory.
    #[error("out of memory")]
    Memory(AllocError),
}
