//! Numbers of elements.

ghost use Rattle.std.specs.Prelude.{◌≡◌, option_map};
ghost use Rattle.gltf_base.specs.Indexes.{index_number};
ghost use Rattle.gltf_findings_rules.specs.Counts.{count_at, differ};

use gltf_base::Index;
use gltf_parts::accessor::Accessor;

/// How many elements the accessor with a number has.
pub fn count_at(accessors: &[Accessor], number: Option<u32>) -> Option<u64>
    ensures { result ≡ count_at accessors.now number }
{
    // derived
    match number {
        Some(number) => match accessors.get(number as usize) {
            Some(accessor) => Some(accessor.count.0),
            None => None,
        },
        None => None,
    }
}

/// The number that an index is.
pub fn number_of(index: Option<Index<Accessor>>) -> Option<u32>
    ensures { result ≡ option_map index_number index }
{
    match index {
        Some(index) => Some(index.number()),
        None => None,
    }
}

/// Whether two numbers are known and differ.
pub fn differ(a: Option<u64>, b: Option<u64>) -> bool
    ensures { result ≡ differ a b }
{
    // derived
    match (a, b) {
        (Some(a), Some(b)) => a != b,
        _ => false,
    }
}
