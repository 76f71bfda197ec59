//! All faults of a hierarchy.

ghost use Rattle.std.specs.Prelude.{◌≡◌, ◌↔◌, ◌<◌, ◌^◌, ℕ, List, [], ◌++◌, length, OnOk, IfOk};
ghost use Rattle.gltf_hierarchy.specs.Nodes.{children_of};
ghost use Rattle.gltf_hierarchy.specs.Forest.{IsForest};
ghost use Rattle.gltf_hierarchy.specs.Faults.{Place, AreFaults, places_in, places_from};
ghost use Rattle.gltf_hierarchy.specs.Listing.{IsListed, IsQuiet, IsFaultless, AreAdded};

use crate::cycles::lowest_of_cycles;
use crate::fault::HierarchyFault;
use crate::hierarchy::Hierarchy;
use crate::parents::{roots, settle};
use std::alloc::{AllocError, Global};

/// Lists the faults of nodes: those of places in order, and then each cycle among first parents.
pub fn faults_of<H: Hierarchy>(alloc: Global, nodes: &H) -> Result<Vec<HierarchyFault>, AllocError>
    requires few { length (H.children nodes.now) < 2 ^ 32 }
    ensures faults { IfOk result (λ faults. AreFaults (H.children nodes.now) faults.items) }
    ensures none { IfOk result (λ faults. faults.items ≡ [] ↔ IsForest (H.children nodes.now)) }
{
    let mut faults = Vec::new(alloc);
    let parents = first_parents(alloc, nodes, &mut faults)?;
    let marks = lowest_of_cycles(alloc, &parents)?;
    add_cycles(&mut faults, &marks)?;
    Ok(faults)
}

/// Returns the first parent of each node, and adds the faults of places.
fn first_parents<H: Hierarchy>(
    alloc: Global,
    nodes: &H,
    faults: &mut Vec<HierarchyFault>,
) -> Result<Vec<Option<u32>>, AllocError>
    requires few { length (H.children nodes.now) < 2 ^ 32 }
    requires empty { faults.old.items ≡ [] }
    ensures listed { IfOk result (λ parents. IsListed (length (H.children nodes.now))
        (places_from 0 (H.children nodes.now)) parents.items faults.new.items) }
    ensures faultless { IfOk result (λ parents. IsFaultless (H.children nodes.now) parents.items
        faults.new.items (length (H.children nodes.now))) }
{
    let mut parents = roots(alloc, nodes.node_count())?;
    for number in 0..nodes.node_count() {
        add_places(&mut parents, faults, nodes, number as u32)?;
    }
    Ok(parents)
}

/// Makes a node the parent of those of its children that have none, and adds a fault for each of
/// the others.
fn add_places<H: Hierarchy>(
    parents: &mut Vec<Option<u32>>,
    faults: &mut Vec<HierarchyFault>,
    nodes: &H,
    parent: u32,
) -> Result<(), AllocError>
    requires { parent < length (H.children nodes.now) }
    ensures listed { OnOk result ((count : ℕ) (before : List Place)
        → IsListed count before parents.old.items faults.old.items
        → IsListed count (before ++ places_in parent (children_of (H.children nodes.now) parent))
        parents.new.items faults.new.items) }
    ensures quiet { OnOk result (IsQuiet parents.old.items parents.new.items parent
        (children_of (H.children nodes.now) parent)
        (length (children_of (H.children nodes.now) parent)) faults.old.items faults.new.items) }
{
    for place in 0..nodes.child_count(parent) {
        if let Some(fault) = settle(parents, parent, nodes.child(parent, place)) {
            faults.push(fault)?;
        }
    }
    Ok(())
}

/// Adds a cycle for each node that has a mark.
fn add_cycles(faults: &mut Vec<HierarchyFault>, marks: &[bool]) -> Result<(), AllocError>
    requires { length marks.now < 2 ^ 32 }
    ensures { OnOk result
        (AreAdded faults.old.items faults.new.items marks.now (length marks.now)) }
{
    for node in 0..marks.len() {
        if marks[node] {
            faults.push(HierarchyFault::Cycle { node: node as u32 })?;
        }
    }
    Ok(())
}
