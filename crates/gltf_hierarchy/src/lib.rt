//! The hierarchy of nodes (glTF 2.0, section 3.5.2): disjoint strict trees. It knows no document:
//! nodes are whatever says what the children of each are.
//!
//! `Forest::of` returns the forest that nodes are, or a fault, and `Forest::faults` lists every
//! fault. `Forest::common_root` finds the common root of joints (section 3.7.3.2). Each takes time
//! and memory in proportion to the nodes, their children and the joints, and does not recurse.
//!
//! `Subtrees::of` says which nodes are below which: it gives each node a number once. Behind it
//! stand the numbers of all nodes below, and no others. Then two comparisons decide whether a node
//! is another or below it.
#![tactic(auto)]

mod cycles;
mod depths;
mod fault;
mod faults;
mod forest;
mod hierarchy;
mod joints;
mod numbers;
mod parents;
mod roots;
mod shares;
mod sorter;
mod subtrees;

pub use fault::{HierarchyFault, JointFault};
pub use forest::Forest;
pub use hierarchy::Hierarchy;
pub use subtrees::Subtrees;
