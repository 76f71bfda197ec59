//! Nodes that are no disjoint strict trees (glTF 2.0, section 3.5.2).

ghost use Rattle.std.specs.Prelude.{◌≡◌, Option, IfOk, map};
ghost use Rattle.gltf_findings.specs.Hierarchy.{fault_finding, AreFaultsOf, AreNoneOfForest, AreHierarchyRules};

use gltf_findings_codes::{Code, Finding, Name, Object, Subject, broken};
use gltf_load::{Document, Forest, HierarchyFault};
use gltf_root::root::Root;
use std::alloc::{AllocError, Global};

/// Returns the findings of the faults that keep nodes from being disjoint strict trees. This and
/// the calls below fail only if out of memory.
pub fn hierarchy_rules(alloc: Global, root: &Root) -> Result<Vec<Option<Finding>>, AllocError>
    ensures { IfOk result (λ rules. AreHierarchyRules root.now.nodes.items rules.items) }
{
    let faults = faults_of(alloc, root)?;
    let rules = findings_of_faults(alloc, &faults)?;
    Ok(rules)
}

/// The faults of the hierarchy.
fn faults_of(alloc: Global, root: &Root) -> Result<Vec<HierarchyFault>, AllocError>
    ensures all { IfOk result (λ faults. AreFaultsOf root.now.nodes.items faults.items) }
    ensures none { IfOk result (λ faults. AreNoneOfForest root.now.nodes.items faults.items) }
{
    let document = Document::of(root);
    let faults = Forest::faults(alloc, &document)?;
    Ok(faults)
}

/// The findings of faults, in order.
fn findings_of_faults(
    alloc: Global,
    faults: &[HierarchyFault],
) -> Result<Vec<Option<Finding>>, AllocError>
    ensures { IfOk result (λ rules. rules.items ≡ map fault_finding faults.now) }
{
    let mut rules = Vec::new(alloc);
    for fault in faults {
        rules.push(finding_of_fault(fault))?;
    }
    Ok(rules)
}

/// The finding of a fault. A child that doesn't exist is found by its index, and one that a node
/// lists twice as a duplicate.
fn finding_of_fault(fault: &HierarchyFault) -> Option<Finding>
    ensures { result ≡ fault_finding fault.now }
{
    match fault {
        HierarchyFault::TwoParents { first, second, .. } => {
            let node = Object::Item(Name::Nodes, *second as usize);
            let place = Subject::Member(node, Name::Children);
            broken(*first != *second, Code::NodeParentOverride, place)
        }
        HierarchyFault::Cycle { node } => Some(Finding {
            code: Code::NodeLoop,
            place: Subject::Object(Object::Item(Name::Nodes, *node as usize)),
        }),
        HierarchyFault::NoSuchChild { .. }
        | HierarchyFault::TooManyNodes
        | HierarchyFault::Memory(_) => None,
    }
}
