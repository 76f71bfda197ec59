//! Puts nodes in order, from the parent of each.

ghost use Rattle.std.specs.Prelude.{◌≡◌, ◌<◌, ◌^◌, ℕ, length, OnOk, IfOk, IfErr};
ghost use Rattle.std.proofs.Common.{get_or};
ghost use Rattle.gltf_hierarchy.specs.Order.{IsOrder, AreNodes, IsAtFault};
ghost use Rattle.gltf_hierarchy.specs.Sorting.{IsNew, IsRested, IsClimbed, IsReached};

use crate::fault::HierarchyFault;
use std::alloc::{AllocError, Global};

/// The nodes in an order in which each stands behind its parent. No node is visited more often
/// than three times.
pub fn order_of(alloc: Global, parents: &[Option<u32>]) -> Result<Vec<u32>, HierarchyFault>
    requires nodes { AreNodes parents.now }
    requires few { length parents.now < 2 ^ 32 }
    ensures ordered { IfOk result (λ order. IsOrder parents.now order.items) }
    ensures cyclic { IfErr result (IsAtFault parents.now) }
{
    let mut sorter = match Sorter::new(alloc, parents.len()) {
        Ok(sorter) => sorter,
        Err(error) => return Err(HierarchyFault::Memory(error)),
    };
    for start in 0..parents.len() {
        sorter.climb(parents, start as u32)?;
        if let Err(error) = sorter.place(parents) {
            return Err(HierarchyFault::Memory(error));
        }
    }
    let Sorter { order, .. } = sorter;
    Ok(order)
}

/// Nodes of which some are in order.
#[derive(Drop)]
pub struct Sorter {
    /// Of each node its place in `order`, plus 1; 0 if it isn't there.
    places: Vec<usize>,
    /// Of each node its place in `chain` when it was put there, plus 1; 0 if it never was.
    steps: Vec<usize>,
    order: Vec<u32>,
    /// Nodes of which each is the parent of the one before it.
    chain: Vec<u32>,
}

impl Sorter {
    fn new(alloc: Global, count: usize) -> Result<Sorter, AllocError>
        ensures { IfOk result (IsNew count) }
    {
        Ok(Sorter {
            places: vec![in alloc; 0; count]?,
            steps: vec![in alloc; 0; count]?,
            order: Vec::new(alloc),
            chain: Vec::new(alloc),
        })
    }

    /// Climbs from a node to a root, or to a node that has its place.
    fn climb(&mut self, parents: &[Option<u32>], start: u32) -> Result<(), HierarchyFault>
        requires nodes { AreNodes parents.now }
        requires node { start < length parents.now }
        requires rested { IsRested parents.now self.old }
        ensures climbed { OnOk result (IsClimbed parents.now self.new) }
        ensures reached { OnOk result (IsReached self.new start) }
        ensures kept { OnOk result (self.new.places ≡ self.old.places) }
        ensures cyclic { IfErr result (IsAtFault parents.now) }
    {
        let mut at = Some(start);
        while let Some(node) = at {
            let here = node as usize;
            if self.places[here] != 0 {
                return Ok(());
            }
            if self.steps[here] != 0 {
                return Err(HierarchyFault::Cycle { node });
            }
            if let Err(error) = self.chain.push(node) {
                return Err(HierarchyFault::Memory(AllocError::from(error)));
            }
            self.steps[here] = self.chain.len();
            at = parents[here];
        }
        Ok(())
    }

    /// Takes the nodes of the chain from its upper end, and gives each the next place.
    fn place(&mut self, parents: &[Option<u32>]) -> Result<(), AllocError>
        requires climbed { IsClimbed parents.now self.old }
        ensures rested { OnOk result (IsRested parents.now self.new) }
        ensures more { OnOk result ((n : ℕ) → 0 < get_or self.old.places.items n 0
            → 0 < get_or self.new.places.items n 0) }
        ensures kept { OnOk result (self.new.steps ≡ self.old.steps) }
    {
        while let Some(node) = self.chain.pop() {
            self.order.push(node)?;
            self.places[node as usize] = self.order.len();
        }
        Ok(())
    }
}
