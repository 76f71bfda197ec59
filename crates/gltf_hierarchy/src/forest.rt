//! Nodes that are trees.

ghost use Rattle.gltf_hierarchy.specs.Order.{AreNodes, IsOrdered};

use crate::depths::depths_of;
use crate::fault::{HierarchyFault, JointFault};
use crate::faults::faults_of;
use crate::hierarchy::Hierarchy;
use crate::joints::root_over;
use crate::parents::parents_of;
use crate::sorter::order_of;
use std::alloc::{AllocError, Global};

/// Nodes that are disjoint strict trees (glTF 2.0, section 3.5.2).
#[derive(Debug, Drop)]
pub struct Forest {
    parents: Vec<Option<u32>>,
    order: Vec<u32>,
    depths: Vec<usize>,
    ghost nodes: { AreNodes parents.items },
    ghost ordered: { IsOrdered parents.items order.items },
}

impl Forest {
    ghost use Rattle.std.specs.Prelude.{◌≡◌, ◌<◌, ◌≤◌, ◌^◌, ◌↔◌, ℕ, List, [], ◌∷◌, length, slice_get, Some, None, IsTrue, IfOk, IfErr};
    ghost use Rattle.gltf_hierarchy.specs.Forest.{IsForest, IsParentsFirst, IsHierarchyFault, IsOutOfMemory, AreDepths, forest_order, forest_parents, forest_depths, parent_in};
    ghost use Rattle.gltf_hierarchy.specs.Parents.{AreParents};
    ghost use Rattle.gltf_hierarchy.specs.Faults.{AreFaults, IsFirstFault};
    ghost use Rattle.gltf_hierarchy.specs.declared.fault.HierarchyFault.TheVariants.{TooManyNodes};
    ghost use Rattle.gltf_hierarchy.specs.Joints.{IsCommonRootOrNone, AreAllNodes, IsJointFault};

    /// Returns the forest that nodes are (glTF 2.0, section 3.5.2). If they are none, fails with
    /// the fault of the first place in `children` that is at fault, or else with a node that is
    /// below itself. It takes time in proportion to the nodes and their children, and memory in
    /// proportion to the nodes, and does not recurse.
    pub fn of<H: Hierarchy>(alloc: Global, nodes: &H) -> Result<Forest, HierarchyFault>
        // The nodes are a forest.
        ensures forest { IfOk result (λ _. IsForest (H.children nodes.now)) }
        // A forest is found, unless it has too many nodes or memory is refused.
        ensures only { IsForest (H.children nodes.now) → length (H.children nodes.now) < 2 ^ 32
            → IfErr result IsOutOfMemory }
        // What the fault says is true.
        ensures fault { IfErr result (IsHierarchyFault (H.children nodes.now)) }
        // It is the first fault.
        ensures first { IfErr result (IsFirstFault (H.children nodes.now)) }
        // What the calls below return.
        ensures order { IfOk result (λ f. IsParentsFirst (H.children nodes.now) (forest_order f)) }
        ensures parents { IfOk result (λ f. AreParents (H.children nodes.now)
            (forest_parents f)) }
        ensures depths { IfOk result (λ f. AreDepths (H.children nodes.now)
            (forest_depths f)) }
    {
        if nodes.node_count() > u32::MAX as usize {
            return Err(HierarchyFault::TooManyNodes);
        }
        let parents = match parents_of(alloc, nodes) {
            Ok(parents) => parents,
            Err(fault) => return Err(fault),
        };
        let order = match order_of(alloc, &parents) {
            Ok(order) => order,
            Err(fault) => return Err(fault),
        };
        match depths_of(alloc, &parents, &order) {
            Ok(depths) => Ok(Forest {
                parents,
                order,
                depths,
            }),
            Err(error) => Err(HierarchyFault::Memory(error)),
        }
    }

    /// Lists every fault of nodes: none exactly if they are a forest (glTF 2.0, section 3.5.2).
    ///
    /// The first faults are those of places in `children`, in order: a place whose child doesn't
    /// exist, or is the child at an earlier place. Then each cycle follows by its lowest node, in
    /// the order of nodes. These are the cycles in which each node is the first parent of the next
    /// one: any other has a place that is at fault. If there are 2^32 nodes or more, this is the
    /// only fault.
    ///
    /// It takes time in proportion to the nodes and their children, and memory in proportion to
    /// the nodes and the faults, and does not recurse. Fails only if out of memory.
    pub fn faults<H: Hierarchy>(alloc: Global, nodes: &H) -> Result<Vec<HierarchyFault>, AllocError>
        ensures faults { length (H.children nodes.now) < 2 ^ 32
            → IfOk result (λ faults. AreFaults (H.children nodes.now) faults.items) }
        // No fault is listed exactly if the nodes are a forest.
        ensures none { length (H.children nodes.now) < 2 ^ 32
            → IfOk result (λ faults. faults.items ≡ [] ↔ IsForest (H.children nodes.now)) }
        ensures many { 2 ^ 32 ≤ length (H.children nodes.now)
            → IfOk result (λ faults. faults.items ≡ TooManyNodes ∷ []) }
    {
        if nodes.node_count() > u32::MAX as usize {
            let mut faults = Vec::new(alloc);
            faults.push(HierarchyFault::TooManyNodes)?;
            return Ok(faults);
        }
        faults_of(alloc, nodes)
    }

    /// Returns the number of each node once, behind that of its parent.
    pub fn order(&self) -> &[u32]
        ensures { result.now ≡ forest_order self.now }
    {
        &self.order
    }

    /// Returns the parent of a node, or `None` if it is a root or doesn't exist.
    pub fn parent(&self, node: u32) -> Option<u32>
        ensures { result ≡ parent_in (forest_parents self.now) node }
    {
        match self.parents.get(node as usize) {
            Some(parent) => *parent,
            None => None,
        }
    }

    /// Returns whether there is such a node and it has no parent.
    pub fn is_root(&self, node: u32) -> bool
        ensures { IsTrue result ↔ (slice_get (forest_parents self.now) node ≡ Some None) }
    {
        match self.parents.get(node as usize) {
            Some(None) => true,
            _ => false,
        }
    }

    /// Returns how many steps a node is below a root, or `None` if it doesn't exist.
    pub fn depth(&self, node: u32) -> Option<usize>
        ensures { result ≡ slice_get (forest_depths self.now) node }
    {
        match self.depths.get(node as usize) {
            Some(depth) => Some(*depth),
            None => None,
        }
    }

    /// Returns the common root of the joints of a skin (glTF 2.0, section 3.7.3.2): the deepest
    /// node that is each of these nodes or above it. `None` if there is no joint, or if they are of
    /// different trees. Fails with the first joint that is no node. It takes time and memory in
    /// proportion to the nodes of the forest and the joints, and does not recurse.
    pub fn common_root(&self, alloc: Global, joints: &[u32]) -> Result<Option<u32>, JointFault>
        ensures root { (nodes : List (List ℕ)) → AreParents nodes (forest_parents self.now)
            → IfOk result (IsCommonRootOrNone nodes joints.now) }
        // Each joint is a node.
        ensures nodes { IfOk result (λ _.
            AreAllNodes (length (forest_parents self.now)) joints.now) }
        ensures fault { IfErr result
            (IsJointFault (length (forest_parents self.now)) joints.now) }
    {
        root_over(alloc, &self.parents, &self.order, joints)
    }
}
