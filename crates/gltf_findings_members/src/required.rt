//! Members that the format requires and the ported crate doesn't.

ghost use Rattle.std.specs.Prelude.{◌≡◌};
ghost use Rattle.serde_json.specs.View.{view, items_view};
ghost use Rattle.gltf_findings_members.specs.Noted.{steps_in, Adds};
ghost use Rattle.gltf_findings_members.specs.Required.{required_notices, required_in, lacking_notices, lacking_code};

use crate::notice::Noticing;
use crate::uses::items_at;
use gltf_base::Step;
use gltf_findings_codes::Code;
use serde_json::Value;
use std::alloc::AllocError;

/// Notes items of the document's lists without a member that the format requires, and that the
/// table reads as if it were there.
#[tactic(auto, using(std::proofs::lemmas::List::append_assoc))]
pub(crate) fn note_required<'a>(value: &'a Value, to: &mut Noticing<'a>) -> Result<(), AllocError>
    ensures { Adds to.old result to.new (required_notices (steps_in to.old) (view value.now)) }
{
    note_required_in(value, "animations", "channels", to)?;
    note_required_in(value, "animations", "samplers", to)?;
    note_required_in(value, "buffers", "byteLength", to)?;
    note_required_in(value, "skins", "joints", to)
}

/// Notes the items of one list without a member.
fn note_required_in<'a>(
    value: &'a Value,
    list: &'a str,
    name: &'a str,
    to: &mut Noticing<'a>,
) -> Result<(), AllocError>
    ensures { Adds to.old result to.new
        (required_in (steps_in to.old) list.now name.now (view value.now)) }
{
    let Some(items) = items_at(value, list) else {
        return Ok(());
    };
    to.enter(Step::Field(list))?;
    note_lacking(items, name, to)?;
    to.leave();
    Ok(())
}

/// Notes the items without a member.
fn note_lacking<'a>(
    items: &'a [Value],
    name: &'a str,
    to: &mut Noticing<'a>,
) -> Result<(), AllocError>
    ensures { Adds to.old result to.new
        (lacking_notices (steps_in to.old) name.now 0 (items_view items.now)) }
{
    for number in 0..items.len() {
        to.enter(Step::Index(number))?;
        to.note_below(Step::Field(name), lacking_code(&items[number], name))?;
        to.leave();
    }
    Ok(())
}

/// The code of an object without a member.
fn lacking_code(value: &Value, name: &str) -> Option<Code>
    ensures { result ≡ lacking_code name.now (view value.now) }
{
    if value.is_object() && value.get(name).is_none() {
        Some(Code::UndefinedProperty)
    } else {
        None
    }
}
