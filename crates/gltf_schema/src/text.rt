//! Whole texts.

ghost use Rattle.std.specs.Prelude.{◌≡◌, Some, IfOk};
ghost use Rattle.serde_json.specs.Data.{Data};
ghost use Rattle.serde_json.specs.Read.{read as read_json};
ghost use Rattle.gltf_schema.specs.Read.{read};

use crate::reader::Reader;
use crate::schema::Schema;
use crate::stream::{Stream, Unread};
use std::alloc::Global;

/// How deep the arrays and objects of a text may nest, as in `serde_json`.
const MAX_DEPTH: usize = 127;

/// Returns what the table reads of a text, in one pass. Fails for whatever reason: a text that
/// fails may still be read by way of a `Value`, which also says why it is refused.
pub fn read_text<T: Schema>(alloc: Global, text: &str) -> Result<T, Unread>
    ensures { IfOk result (λ x. (d : Data) × (read_json text.now ≡ Some d)
        × (read T.kind d ≡ Some (T.tree x))) }
{
    let mut from = Stream::new(alloc, Reader::new(text), MAX_DEPTH);
    // With `?` the value would be moved once more.
    let read = T::from_token(&mut from);
    if read.is_ok() && !from.reader.is_over() {
        return Err(Unread);
    }
    read
}
