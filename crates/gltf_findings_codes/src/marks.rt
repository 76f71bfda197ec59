//! Which items of a list others name.

ghost use Rattle.std.specs.Prelude.{◌≡◌, map};
ghost use Rattle.gltf_base.specs.Indexes.{index_number};
ghost use Rattle.gltf_findings_codes.specs.Marks.{mark, mark_all, mark_some, is_marked};

use gltf_base::IndexTo;

/// Marks the item with a number, if there is one.
pub fn mark(marks: &mut Vec<bool>, number: u32)
    ensures { marks.new.items ≡ mark marks.old.items number }
{
    let number = number as usize;
    if number < marks.len() {
        marks[number] = true;
    }
}

/// Marks the item that an index names, if it is there.
pub fn mark_some<P>(marks: &mut Vec<bool>, index: Option<IndexTo<P>>)
    ensures { marks.new.items ≡ mark_some marks.old.items index }
{
    if let Some(index) = index {
        mark(marks, index.number());
    }
}

/// Marks the items that indexes name.
pub fn mark_all<P>(marks: &mut Vec<bool>, indexes: &[IndexTo<P>])
    ensures { marks.new.items ≡ mark_all marks.old.items (map index_number indexes.now) }
{
    for index in indexes {
        mark(marks, index.number());
    }
}

/// Whether the item with a number is marked.
pub fn is_marked(marks: &[bool], number: usize) -> bool
    ensures { result ≡ is_marked marks.now number }
{
    // derived
    match marks.get(number) {
        Some(mark) => *mark,
        None => false,
    }
}
