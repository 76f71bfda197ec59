//! The parent of each node.

ghost use Rattle.std.specs.Prelude.{◌≡◌, ◌<◌, ◌^◌, ℕ, List, [], ◌++◌, length, replicate, OnOk, IfOk, IfErr};
ghost use Rattle.gltf_hierarchy.specs.Nodes.{children_of};
ghost use Rattle.gltf_hierarchy.specs.Parents.{AreParents};
ghost use Rattle.gltf_hierarchy.specs.Adopted.{IsParentFault, IsAdopted, IsRefused};
ghost use Rattle.gltf_hierarchy.specs.Faults.{Place, IsHead, IsFirstFault, places_in, place_faults, faults_behind};
ghost use Rattle.gltf_hierarchy.specs.Listing.{IsSettled, IsListed};

use crate::fault::HierarchyFault;
use crate::hierarchy::Hierarchy;
use std::alloc::{AllocError, Global};

/// Returns the parent of each node: none of a root. Fails with the first child that doesn't exist
/// or has a parent already.
pub fn parents_of<H: Hierarchy>(
    alloc: Global,
    nodes: &H,
) -> Result<Vec<Option<u32>>, HierarchyFault>
    requires few { length (H.children nodes.now) < 2 ^ 32 }
    ensures found { IfOk result (λ parents. AreParents (H.children nodes.now) parents.items) }
    ensures fault { IfErr result (IsParentFault (H.children nodes.now)) }
    ensures none { IfOk result (λ _. place_faults (H.children nodes.now) ≡ []) }
    ensures first { IfErr result (IsFirstFault (H.children nodes.now)) }
{
    let mut parents = match roots(alloc, nodes.node_count()) {
        Ok(parents) => parents,
        Err(error) => return Err(HierarchyFault::Memory(error)),
    };
    for number in 0..nodes.node_count() {
        if let Err(error) = adopt(&mut parents, nodes, number as u32) {
            return Err(error);
        }
    }
    Ok(parents)
}

/// So many nodes without a parent.
pub fn roots(alloc: Global, count: usize) -> Result<Vec<Option<u32>>, AllocError>
    ensures { IfOk result (λ parents. parents.items ≡ replicate count None) }
{
    vec![in alloc; None; count]
}

/// Makes a node the parent of its children. Fails with the first fault of a place.
fn adopt<H: Hierarchy>(
    parents: &mut Vec<Option<u32>>,
    nodes: &H,
    parent: u32,
) -> Result<(), HierarchyFault>
    requires { parent < length (H.children nodes.now) }
    ensures adopted { OnOk result (IsAdopted parents.old.items parents.new.items parent
        (children_of (H.children nodes.now) parent)) }
    ensures refused { IfErr result (IsRefused parents.old.items parent
        (children_of (H.children nodes.now) parent)) }
    ensures listed { OnOk result ((count : ℕ) (before : List Place)
        → IsListed count before parents.old.items []
        → IsListed count (before ++ places_in parent (children_of (H.children nodes.now) parent))
        parents.new.items []) }
    ensures first { IfErr result (λ fault. (count : ℕ) (before : List Place)
        → IsListed count before parents.old.items []
        → IsHead fault (faults_behind count []
        (before ++ places_in parent (children_of (H.children nodes.now) parent)))) }
{
    for place in 0..nodes.child_count(parent) {
        let child = nodes.child(parent, place);
        if let Some(fault) = settle(parents, parent, child) {
            return Err(fault);
        }
    }
    Ok(())
}

/// Makes a node the parent of a child, if the child exists and has none. Returns the fault, if not.
pub fn settle(parents: &mut Vec<Option<u32>>, parent: u32, child: u32) -> Option<HierarchyFault>
    ensures { IsSettled parents.old.items parents.new.items parent child result }
{
    match parents.get(child as usize) {
        None => Some(HierarchyFault::NoSuchChild { parent, child }),
        Some(Some(first)) => {
            let first = *first;
            Some(HierarchyFault::TwoParents {
                child,
                first,
                second: parent,
            })
        }
        Some(None) => {
            parents[child as usize] = Some(parent);
            None
        }
    }
}
