//! The children of a value on a tape, by the parts of pointers that lead to them.

ghost use Rattle.std.specs.Prelude.{◌≡◌, ◌+◌, ◌<◌, ◌≤◌, ℕ, List, IfOk, IfSome, length, drop, option_map, slice_get};
ghost use Rattle.json.specs.Json.{Json, value};
ghost use Rattle.json.specs.Json as tree;
ghost use Rattle.json.specs.Find.{InItems, InMembers};
ghost use Rattle.json.specs.Token.{Token};
ghost use Rattle.json.specs.declared.tape.Node.{Node};
ghost use Rattle.gltf_findings_lines.specs.Places.{child_at};
ghost use Rattle.gltf_findings_lines.specs.Children.{AreChildren, AreChildrenAt, AreItems, AreMembers, AreNodes, IsChild, IsItemEnd, IsMemberEnd, tokens_of};

use crate::part::{index_of, part_of};
use json::Node;
use std::alloc::{AllocError, Global};
use std::collections::BTreeMap;

/// The children of a value, each by the number of its node.
#[derive(Drop)]
pub(crate) enum Children {
    /// Those of an array, in order.
    Items(Vec<usize>),
    /// Those of an object by their names, as pointers write them. Of equal names it is the last.
    Members(BTreeMap<String, usize>),
    /// Another value has none.
    None,
}

/// The number of the node behind the value that begins at a node.
#[inline(always)]
fn after(nodes: &[Node<'_>], at: usize) -> usize
    requires { (at < length nodes.now) × AreNodes nodes.now }
    ensures value { (depth : ℕ) (j : Json) (rest : List Token)
        → value depth (drop at (tokens_of nodes.now)) ≡ Some (j, rest)
        → rest ≡ drop result (tokens_of nodes.now) }
    ensures later { (at < result) × (result ≤ length nodes.now) }
{
    match nodes[at] {
        Node::Object(end) | Node::Array(end) => end,
        _ => at + 1,
    }
}

/// The children of the value at a node. This and the calls below fail only if out of memory.
pub(crate) fn children_of(
    alloc: Global,
    nodes: &[Node<'_>],
    at: usize,
) -> Result<Children, AllocError>
    requires { (at < length nodes.now) × AreNodes nodes.now }
    ensures { IfOk result (AreChildrenAt nodes.now at) }
{
    match nodes[at] {
        Node::Array(_) => {
            let starts = items_from(alloc, nodes, at + 1)?;
            Ok(Children::Items(starts))
        }
        Node::Object(_) => {
            let names = members_from(alloc, nodes, at + 1)?;
            Ok(Children::Members(names))
        }
        _ => Ok(Children::None),
    }
}

/// The node behind the item of an array that begins at a node. At the bracket there is none.
#[inline(always)]
fn item_end(nodes: &[Node<'_>], at: usize) -> Option<usize>
    requires { AreNodes nodes.now }
    ensures value { (js : tree.Items) → InItems (drop at (tokens_of nodes.now)) js
        → IsItemEnd nodes.now at js result }
    ensures later { IfSome result (λ end. (at < end) × (end ≤ length nodes.now)) }
{
    if at >= nodes.len() {
        return None;
    }
    if let Node::EndArray = nodes[at] {
        return None;
    }
    Some(after(nodes, at))
}

/// The name of the member of an object that begins at a node, and the node behind the member. At
/// the brace there is none.
#[inline(always)]
fn member_end<'a>(nodes: &[Node<'a>], at: usize) -> Option<(&'a str, usize)>
    requires { AreNodes nodes.now }
    ensures value { (ms : tree.Members) → InMembers (drop at (tokens_of nodes.now)) ms
        → IsMemberEnd nodes.now at ms (option_map (λ m. (m.0.now, m.1)) result) }
    ensures later { IfSome result (λ m. (at + 1 < m.1) × (m.1 ≤ length nodes.now)) }
{
    if at >= nodes.len().saturating_sub(1) {
        return None;
    }
    let Node::Key(key) = nodes[at] else {
        return None;
    };
    Some((key, after(nodes, at + 1)))
}

/// The items of an array, of which the first is at a node, or the bracket behind all.
fn items_from(alloc: Global, nodes: &[Node<'_>], first: usize) -> Result<Vec<usize>, AllocError>
    requires { AreNodes nodes.now }
    ensures { IfOk result (λ starts. (js : tree.Items)
        → InItems (drop first (tokens_of nodes.now)) js
        → AreItems nodes.now first js starts.items) }
{
    let mut starts = Vec::new(alloc);
    let mut at = first;
    while let Some(end) = item_end(nodes, at) {
        starts.push(at)?;
        at = end;
    }
    Ok(starts)
}

/// The members of an object, of which the first is at a node, or the brace behind all.
fn members_from(
    alloc: Global,
    nodes: &[Node<'_>],
    first: usize,
) -> Result<BTreeMap<String, usize>, AllocError>
    requires { AreNodes nodes.now }
    ensures { IfOk result (λ names. (ms : tree.Members)
        → InMembers (drop first (tokens_of nodes.now)) ms
        → AreMembers nodes.now first ms names) }
{
    let mut names = BTreeMap::new(alloc);
    let mut at = first;
    while let Some((key, end)) = member_end(nodes, at) {
        names.insert(part_of(alloc, key)?, at + 1)?;
        at = end;
    }
    Ok(names)
}

impl Children {
    /// The number of the child to which a part of a pointer leads.
    pub(crate) fn find(&self, part: &str) -> Option<usize>
        ensures { (nodes : List Node) (at : ℕ) (j : Json) → AreChildren nodes at j self.now
            → IsChild nodes result (child_at at part.now j) }
    {
        match self {
            Children::Items(starts) => item(starts, index_of(part)?),
            Children::Members(names) => names.get(part).copied(),
            Children::None => None,
        }
    }
}

/// The item of a number.
fn item(starts: &[usize], index: usize) -> Option<usize>
    ensures { result ≡ slice_get starts.now index }
{
    starts.get(index).copied()
}
