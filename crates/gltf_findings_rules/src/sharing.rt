//! The buffer views of the accessors that are chosen.

ghost use Rattle.std.specs.Prelude.{◌≡◌, replicate, false, IfOk};
ghost use Rattle.gltf_findings_rules.specs.Sharing.{views_of, shared_views, mark_if, mark_twice};

use gltf_base::Index;
use gltf_findings_codes::{is_marked, mark, mark_some};
use gltf_parts::accessor::Accessor;
use gltf_parts::buffer::View;
use std::alloc::{AllocError, Global};

/// Marks the buffer views, of so many, that the chosen accessors name. This and the call below fail
/// only if out of memory.
pub fn views_of(
    alloc: Global,
    count: usize,
    accessors: &[Accessor],
    chosen: &[bool],
) -> Result<Vec<bool>, AllocError>
    ensures { IfOk result (λ marks. marks.items
        ≡ views_of chosen.now 0 accessors.now (replicate count false)) }
{
    let mut marks = vec![in alloc; false; count]?;
    for number in 0..accessors.len() {
        let is_chosen = is_marked(chosen, number);
        mark_if(is_chosen, &mut marks, accessors[number].buffer_view);
    }
    Ok(marks)
}

/// Marks the buffer views, of so many, that two or more of the chosen accessors name.
pub fn shared_views(
    alloc: Global,
    count: usize,
    accessors: &[Accessor],
    chosen: &[bool],
) -> Result<Vec<bool>, AllocError>
    ensures { IfOk result (λ marks. marks.items ≡ shared_views chosen.now 0 accessors.now
        (replicate count false) (replicate count false)) }
{
    let mut once = vec![in alloc; false; count]?;
    let mut twice = vec![in alloc; false; count]?;
    for number in 0..accessors.len() {
        let is_chosen = is_marked(chosen, number);
        mark_twice(is_chosen, &once, &mut twice, accessors[number].buffer_view);
        mark_if(is_chosen, &mut once, accessors[number].buffer_view);
    }
    Ok(twice)
}

/// Which buffer views accessors use for attributes and for indices.
#[derive(Drop)]
pub struct ViewUses {
    /// Which are used for attributes.
    pub attributes: Vec<bool>,
    /// Which are used for indices.
    pub indices: Vec<bool>,
    /// Which several accessors use for attributes.
    pub shared: Vec<bool>,
}

/// Marks the buffer views, of so many, that the accessors of attributes and those of indices name,
/// in one pass. Fails only if out of memory.
pub fn view_uses(
    alloc: Global,
    count: usize,
    accessors: &[Accessor],
    attributes: &[bool],
    indices: &[bool],
) -> Result<ViewUses, AllocError>
    ensures attributes { IfOk result (λ marks. marks.attributes.items
        ≡ views_of attributes.now 0 accessors.now (replicate count false)) }
    ensures indices { IfOk result (λ marks. marks.indices.items
        ≡ views_of indices.now 0 accessors.now (replicate count false)) }
    ensures shared { IfOk result (λ marks. marks.shared.items
        ≡ shared_views attributes.now 0 accessors.now (replicate count false)
        (replicate count false)) }
{
    let mut once = vec![in alloc; false; count]?;
    let mut twice = vec![in alloc; false; count]?;
    let mut others = vec![in alloc; false; count]?;
    for number in 0..accessors.len() {
        let view = accessors[number].buffer_view;
        let is_chosen = is_marked(attributes, number);
        mark_twice(is_chosen, &once, &mut twice, view);
        mark_if(is_chosen, &mut once, view);
        mark_if(is_marked(indices, number), &mut others, view);
    }
    Ok(ViewUses {
        attributes: once,
        indices: others,
        shared: twice,
    })
}

/// Marks the view that an index names, if the accessor is chosen.
fn mark_if(is_chosen: bool, marks: &mut Vec<bool>, view: Option<Index<View>>)
    ensures { marks.new.items ≡ mark_if is_chosen marks.old.items view }
{
    if is_chosen {
        mark_some(marks, view);
    }
}

/// The same in a second list, if the view is marked in the first.
fn mark_twice(is_chosen: bool, once: &[bool], twice: &mut Vec<bool>, view: Option<Index<View>>)
    ensures { twice.new.items ≡ mark_twice is_chosen view once.now twice.old.items }
{
    if let Some(view) = view {
        if is_chosen && is_marked(once, view.value()) {
            mark(twice, view.number());
        }
    }
}
