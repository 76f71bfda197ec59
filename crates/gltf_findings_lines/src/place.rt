//! The places to which pointers lead, as numbers of tokens.

ghost use Rattle.std.specs.Prelude.{IfOk, OnOk};
ghost use Rattle.json.specs.Json.{Json};
ghost use Rattle.gltf_findings_lines.specs.Places.{child_at};
ghost use Rattle.gltf_findings_lines.specs.Children.{AreKnown, AreNodes, ArePlaces, IsAt, IsChild, IsPlace};

use crate::children::{Children, children_of};
use crate::part::split;
use json::Node;
use std::alloc::{AllocError, Global};
use std::collections::BTreeMap;

/// The numbers of the tokens to which pointers lead. Fails only if out of memory, as the calls
/// below do.
pub(crate) fn places_of(
    alloc: Global,
    nodes: &[Node<'_>],
    pointers: &[String],
) -> Result<Vec<usize>, AllocError>
    requires { AreNodes nodes.now }
    ensures { IfOk result (λ places. (j : Json) → IsAt nodes.now 0 j
        → ArePlaces nodes.now j pointers.now places.items) }
{
    let mut known = BTreeMap::new(alloc);
    let mut places = Vec::new(alloc);
    for pointer in pointers {
        places.push(place_of(alloc, nodes, &mut known, pointer)?)?;
    }
    Ok(places)
}

/// The number of the token to which a pointer leads.
fn place_of(
    alloc: Global,
    nodes: &[Node<'_>],
    known: &mut BTreeMap<usize, Children>,
    pointer: &str,
) -> Result<usize, AllocError>
    requires { AreNodes nodes.now × AreKnown nodes.now known.old }
    ensures kept { OnOk result (AreKnown nodes.now known.new) }
    ensures place { IfOk result (λ n. (j : Json) → IsAt nodes.now 0 j
        → IsPlace nodes.now j pointer.now n) }
{
    let parts = split(alloc, pointer)?;
    let mut at = 0;
    for i in 1..parts.len() {
        match child_of(alloc, nodes, known, at, parts[i])? {
            Some(child) => at = child,
            None => return Ok(at),
        }
    }
    Ok(at)
}

/// The number of the child to which a part leads in the value at a node.
fn child_of(
    alloc: Global,
    nodes: &[Node<'_>],
    known: &mut BTreeMap<usize, Children>,
    at: usize,
    part: &str,
) -> Result<Option<usize>, AllocError>
    requires { AreNodes nodes.now × AreKnown nodes.now known.old }
    ensures kept { OnOk result (AreKnown nodes.now known.new) }
    ensures child { IfOk result (λ found. (j : Json) → IsAt nodes.now at j
        → IsChild nodes.now found (child_at at part.now j)) }
{
    if at >= nodes.len() {
        return Ok(None);
    }
    if let Some(children) = known.get(&at) {
        return Ok(children.find(part));
    }
    let children = children_of(alloc, nodes, at)?;
    let found = children.find(part);
    known.insert(at, children)?;
    Ok(found)
}
