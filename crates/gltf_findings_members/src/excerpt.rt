//! The members of some names that a text has. Those of other names are passed, and no value is made
//! of them.

ghost use Rattle.std.specs.Prelude.{◌≡◌, Some, IfOk, IfSome, OnOk};
ghost use Rattle.std.specs.BTreeSet.{contains_text};
ghost use Rattle.serde_json.specs.Data.{Data};
ghost use Rattle.serde_json.specs.Read.{read};
ghost use Rattle.serde_json.specs.View.{view, members_view};
ghost use Rattle.gltf_findings_members.specs.Kept.{excerpt, FindsKept, LeavesText, LeavesTokens, Takes};

use gltf_schema::{Reader, Stream, Unread};
use serde_json::{Map, Value};
use std::alloc::Global;
use std::collections::BTreeSet;

/// How deep arrays and objects may nest in what `serde_json` reads.
const MAX_DEPTH: usize = 127;

/// The object that a text is, without the members whose names are not kept. Those that are kept are
/// among the first `reach` members. `None` says nothing: the text may be another value or no JSON,
/// or memory was refused.
pub(crate) fn excerpt_of(
    alloc: Global,
    keep: &BTreeSet<String>,
    reach: usize,
    text: &str,
) -> Option<Value>
    requires { LeavesText (contains_text keep.now) text.now reach }
    ensures { IfSome result (λ v. (d : Data) → read text.now ≡ Some d
        → view v ≡ excerpt (contains_text keep.now) d) }
{
    let mut from = Stream::new(alloc, Reader::new(text), MAX_DEPTH - 1);
    from.reader.begin_object().ok()?;
    let found = kept_members(keep, reach, &mut from).ok()?;
    Some(Value::Object(found))
}

/// The members of an object whose brace was taken, without those whose names are not kept. Nothing
/// is read behind the first `reach` members.
fn kept_members<'a>(
    keep: &BTreeSet<String>,
    reach: usize,
    from: &mut Stream<'a>,
) -> Result<Map<String, Value>, Unread>
    requires { LeavesTokens (contains_text keep.now) from.old.depth from.old.reader reach }
    ensures { IfOk result (λ found. FindsKept (contains_text keep.now) from.old.depth
        from.old.reader (members_view found.entries)) }
{
    let mut found = Map::new(from.alloc);
    let mut left = reach;
    'members: while left > 0 {
        let Some(name) = from.reader.next_key()? else {
            return Ok(found);
        };
        take_member(keep, name, from, &mut found)?;
        left -= 1;
    }
    Ok(found)
}

/// Takes the value that is next, and puts it under its name if that is kept.
fn take_member<'a>(
    keep: &BTreeSet<String>,
    name: &str,
    from: &mut Stream<'a>,
    found: &mut Map<String, Value>,
) -> Result<(), Unread>
    ensures takes { OnOk result (Takes (contains_text keep.now name.now) from.old.depth name.now
        from.old.reader from.new.reader (members_view found.old.entries)
        (members_view found.new.entries)) }
    ensures depth { OnOk result (from.new.depth ≡ from.old.depth) }
{
    if !keep.contains(name) {
        from.skip_value()?;
        return Ok(());
    }
    let value = from.value()?;
    let key = String::from_str(from.alloc, name)?;
    drop(found.insert(key, value)?);
    Ok(())
}
