//! Buffers and buffer views (glTF 2.0, sections 5.10 and 5.11).

ghost use Rattle.std.specs.Prelude.{◌≡◌, ◌++◌, Option, OnOk};
ghost use Rattle.gltf_findings_codes.specs.Found.{found};
ghost use Rattle.gltf_findings_rules.specs.Views.{buffer_rules, view_rules, view_findings, stride_rules, stride_findings, is_stride, ends_behind, is_behind_buffer, is_for_indices};

use gltf_base::buffer::Target;
use gltf_base::validation::{Checked, USize64};
use gltf_findings_codes::{
    Code, Finding, Name, Object, Rules, Subject, add_found, broken, is_some_invalid, is_unresolved,
};
use gltf_parts::buffer::{Buffer, View};
use std::alloc::AllocError;

/// The rules for buffers.
#[derive(Clone, Copy)]
pub struct BufferRules;

impl Rules<Buffer> for BufferRules {
    ghost findings = { λ s n buffer. found (buffer_rules n buffer) };

    fn add(&self, number: usize, item: &Buffer, to: &mut Vec<Finding>) -> Result<(), AllocError> {
        add_found(to, &buffer_rules(number, item))
    }
}

/// The rules for one buffer.
fn buffer_rules(number: usize, buffer: &Buffer) -> [Option<Finding>; 1]
    ensures { result ≡ buffer_rules number buffer.now }
{
    // derived
    [broken(
        buffer.byte_length.0 < 1,
        Code::ValueNotInRange,
        Subject::Member(Object::Item(Name::Buffers, number), Name::ByteLength),
    )]
}

/// The rules for buffer views, which name buffers.
#[derive(Clone, Copy)]
pub struct ViewRules<'a>(pub &'a [Buffer]);

impl Rules<View> for ViewRules<'_> {
    ghost findings = { λ s n view. view_findings s.0.now n view };

    #[tactic(auto, using(std::proofs::lemmas::List::append_assoc))]
    fn add(&self, number: usize, item: &View, to: &mut Vec<Finding>) -> Result<(), AllocError> {
        add_found(to, &view_rules(self.0, number, item))?;
        add_stride(to, number, item)
    }
}

/// The rules for one buffer view.
fn view_rules(buffers: &[Buffer], number: usize, view: &View) -> [Option<Finding>; 4]
    ensures { result ≡ view_rules buffers.now number view.now }
{
    // derived
    let at = Object::Item(Name::BufferViews, number);
    let byte_length_at = Subject::Member(at, Name::ByteLength);
    [
        broken(
            is_unresolved(view.buffer, buffers.len()),
            Code::UnresolvedReference,
            Subject::Member(at, Name::Buffer),
        ),
        broken(
            view.byte_length.0 < 1,
            Code::ValueNotInRange,
            byte_length_at,
        ),
        broken(
            is_some_invalid(&view.target),
            Code::ValueNotInList,
            Subject::Member(at, Name::Target),
        ),
        broken(
            is_behind_buffer(buffers, view),
            Code::BufferViewTooLong,
            byte_length_at,
        ),
    ]
}

/// Adds the findings of the stride that a view may define.
fn add_stride(to: &mut Vec<Finding>, number: usize, view: &View) -> Result<(), AllocError>
    ensures { OnOk result (to.new.items
        ≡ to.old.items ++ stride_findings number view.now view.now.byte_stride) }
{
    match view.byte_stride {
        Some(stride) => {
            let is_for_indices = is_for_indices(view.target);
            let rules = stride_rules(number, view.byte_length.0, is_for_indices, stride.0 as u64);
            add_found(to, &rules)
        }
        None => Ok(()),
    }
}

/// The rules for the stride of a view of so many bytes.
fn stride_rules(
    number: usize,
    length: u64,
    is_for_indices: bool,
    stride: u64,
) -> [Option<Finding>; 4]
    ensures { result ≡ stride_rules number length is_for_indices stride }
{
    // derived
    let at = Subject::Member(Object::Item(Name::BufferViews, number), Name::ByteStride);
    let is_stride = is_stride(stride);
    [
        broken(!is_stride, Code::ValueNotInRange, at),
        broken(is_stride && stride % 4 != 0, Code::ValueMultipleOf, at),
        broken(
            is_stride && length < stride,
            Code::BufferViewTooBigByteStride,
            at,
        ),
        broken(
            is_stride && is_for_indices,
            Code::BufferViewInvalidByteStride,
            at,
        ),
    ]
}

/// Whether a number is a stride.
fn is_stride(stride: u64) -> bool
    ensures { result ≡ is_stride stride }
{
    // derived
    4 <= stride && stride <= 252
}

/// Whether a view is for indices.
fn is_for_indices(target: Option<Checked<Target>>) -> bool
    ensures { result ≡ is_for_indices target }
{
    // derived
    match target {
        Some(Checked::Valid(Target::ElementArrayBuffer)) => true,
        _ => false,
    }
}

/// Whether a view ends behind its buffer.
fn is_behind_buffer(buffers: &[Buffer], view: &View) -> bool
    ensures { result ≡ is_behind_buffer buffers.now view.now }
{
    // derived
    match buffers.get(view.buffer.value()) {
        Some(buffer) => ends_behind(view.byte_offset, view.byte_length.0, buffer.byte_length.0),
        None => false,
    }
}

/// Whether so many bytes from an offset on end behind a length.
fn ends_behind(offset: Option<USize64>, size: u64, length: u64) -> bool
    ensures { result ≡ ends_behind offset size length }
{
    let offset = match offset {
        Some(offset) => offset.0,
        None => 0,
    };
    length < offset || length - offset < size
}
