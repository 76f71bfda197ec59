//! Extensions that a document uses and requires (glTF 2.0, section 3.12).

ghost use Rattle.std.specs.Prelude.{◌≡◌, ◌++◌, ◌||◌, [], ℕ, List, bytes_eq, IfOk, OnOk};
ghost use Rattle.std.specs.BTreeSet.{contains_text};
ghost use Rattle.gltf_findings_codes.specs.Found.{findings_from};
ghost use Rattle.gltf_findings.specs.ExtensionNames.{is_listed, required_findings, name_repeats};

use gltf_findings_codes::{Code, Finding, Name, Object, Subject, add_found, broken};
use std::alloc::{AllocError, Global};
use std::collections::BTreeSet;

/// Adds the findings of extensions that are required and not used. This and the calls below take
/// `n log n` steps, and fail only if out of memory.
pub fn add_required(
    to: &mut Vec<Finding>,
    used: &[String],
    required: &[String],
) -> Result<(), AllocError>
    ensures { OnOk result (to.new.items
        ≡ to.old.items ++ findings_from (required_findings used.now) 0 required.now) }
{
    let names = names_in(*to.allocator(), used)?;
    for number in 0..required.len() {
        let is_used = names.contains(required[number].as_str());
        let place = Subject::Entry(Object::Document, Name::ExtensionsRequired, number);
        add_found(
            to,
            &[broken(!is_used, Code::UnusedExtensionRequired, place)],
        )?;
    }
    Ok(())
}

/// Adds the findings of the names that a list has again.
pub fn add_name_repeats(
    to: &mut Vec<Finding>,
    list: Name,
    names: &[String],
) -> Result<(), AllocError>
    ensures { OnOk result (to.new.items ≡ to.old.items ++ name_repeats list [] 0 names.now) }
{
    let alloc = *to.allocator();
    let mut before = BTreeSet::new(alloc);
    for number in 0..names.len() {
        let name = names[number].as_str();
        let is_repeat = before.contains(name);
        let place = Subject::Entry(Object::Document, list, number);
        add_found(to, &[broken(is_repeat, Code::DuplicateElements, place)])?;
        add_name(alloc, &mut before, name)?;
    }
    Ok(())
}

/// The set of some names.
fn names_in(alloc: Global, names: &[String]) -> Result<BTreeSet<String>, AllocError>
    ensures { IfOk result (λ set. (q : List ℕ) → contains_text set q ≡ is_listed names.now q) }
{
    let mut set = BTreeSet::new(alloc);
    for name in names {
        add_name(alloc, &mut set, name.as_str())?;
    }
    Ok(set)
}

/// Adds a name to a set.
fn add_name(alloc: Global, set: &mut BTreeSet<String>, name: &str) -> Result<(), AllocError>
    ensures { OnOk result ((q : List ℕ)
        → contains_text set.new q ≡ (bytes_eq name.now q || contains_text set.old q)) }
{
    set.insert(String::from_str(alloc, name)?)?;
    Ok(())
}
