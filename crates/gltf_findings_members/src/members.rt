//! Members that no row names: attributes and extension objects.

ghost use Rattle.std.specs.Prelude.{◌≡◌, option_map};
ghost use Rattle.serde_json.specs.View.{members_view};
ghost use Rattle.gltf_findings_members.specs.Members.{attribute_code, attribute_notices, attributes_notices, extension_row};
ghost use Rattle.gltf_findings_members.specs.Noted.{steps_in, Adds};
ghost use Rattle.gltf_findings_members.specs.Empty.{empty_object_code};

use crate::attribute::is_attribute;
use crate::misfit::index_misfit;
use crate::notice::Noticing;
use crate::rows::row_named;
use gltf_base::Step;
use gltf_findings_codes::Code;
use gltf_schema::Member;
use serde_json::{Map, Value};
use std::alloc::AllocError;

/// Notes what is wrong with the attributes of a primitive: names that have no meaning, and values
/// that are no indexes.
pub(crate) fn note_attributes<'a>(
    members: &'a Map<String, Value>,
    to: &mut Noticing<'a>,
) -> Result<(), AllocError>
    ensures { Adds to.old result to.new (attributes_notices (steps_in to.old)
        (members_view members.now.entries)) }
{
    to.note_some(empty_object_code(members))?;
    note_each_attribute(members, to)
}

/// Notes what is wrong with each attribute, in the byte order of names.
fn note_each_attribute<'a>(
    members: &'a Map<String, Value>,
    to: &mut Noticing<'a>,
) -> Result<(), AllocError>
    ensures { Adds to.old result to.new (attribute_notices (steps_in to.old)
        (members_view members.now.entries)) }
{
    for (name, member) in members.iter() {
        let step = Step::Field(name.as_str());
        to.note_below(step, attribute_code(name.as_str()))?;
        to.note_below(step, index_misfit(member))?;
    }
    Ok(())
}

/// The code of an object that must not be empty and is.
pub(crate) fn empty_object_code(members: &Map<String, Value>) -> Option<Code>
    ensures { result ≡ empty_object_code (members_view members.now.entries) }
{
    if members.is_empty() {
        Some(Code::EmptyEntity)
    } else {
        None
    }
}

/// The code of an attribute whose name has no meaning.
fn attribute_code(name: &str) -> Option<Code>
    ensures { result ≡ attribute_code name.now }
{
    // derived
    if is_attribute(name) {
        None
    } else {
        Some(Code::MeshPrimitiveInvalidAttribute)
    }
}

/// The row of an extension object.
pub(crate) fn extension_row<'a>(rows: Option<&'a Vec<Member>>, name: &str) -> Option<&'a Member>
    ensures { option_map (λ m. m.now) result
        ≡ extension_row (option_map (λ rows. rows.now.items) rows.entry) name.now }
{
    row_named(rows?, name)
}
