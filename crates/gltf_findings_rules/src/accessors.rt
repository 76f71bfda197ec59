//! Accessors (glTF 2.0, sections 5.1 to 5.4 and 3.6.2).

ghost use Rattle.std.specs.Prelude.{◌≡◌, ◌++◌, ◌+◌, ◌*◌, length, Option, OnOk, nat_lt, nat_le, not, ◌%◌, ◌<◌, ◌==◌, option_copied};
ghost use Rattle.gltf_findings_codes.specs.Found.{found, findings_if};
ghost use Rattle.gltf_findings_codes.specs.Formats.{offset_number};
ghost use Rattle.gltf_base.specs.Elements.{component_size};
ghost use Rattle.gltf_findings_rules.specs.Accessors.{accessor_findings, accessor_rules, bound_rules, has_other_length, item_count, is_other_count, sparse_rules, elements_rules, layout_rules, cannot_be_normalized, is_matrix, component_of, type_of_elements, view_of, is_small, is_behind_view};

use gltf_base::accessor::{AccessorType, ComponentType, GenericComponentType};
use gltf_base::validation::Checked;
use gltf_findings_codes::{
    Code, Finding, Name, Object, Rules, Subject, add_found, broken, is_invalid, is_some_unresolved,
    is_unresolved, offset_number,
};
use gltf_layout::element_size;
use gltf_parts::accessor::Accessor;
use gltf_parts::accessor::sparse::Sparse;
use gltf_parts::buffer::{Stride, View};
use serde_json::Value;
use std::alloc::AllocError;

/// The rules for accessors, which name buffer views.
#[derive(Clone, Copy)]
pub struct AccessorRules<'a>(pub &'a [View]);

impl Rules<Accessor> for AccessorRules<'_> {
    ghost findings = { λ s n accessor. accessor_findings s.0.now n accessor };

    #[tactic(auto, using(std::proofs::lemmas::List::append_assoc))]
    fn add(&self, number: usize, item: &Accessor, to: &mut Vec<Finding>) -> Result<(), AllocError> {
        add_found(to, &accessor_rules(self.0, number, item))?;
        add_found(to, &bound_rules(number, item))?;
        add_sparse(to, self.0, number, item)?;
        add_elements(to, self.0, number, item)
    }
}

/// The rules for an accessor by itself.
fn accessor_rules(views: &[View], number: usize, accessor: &Accessor) -> [Option<Finding>; 7]
    ensures { result ≡ accessor_rules (length views.now) number accessor.now }
{
    // derived
    let at = Object::Item(Name::Accessors, number);
    let byte_offset_at = Subject::Member(at, Name::ByteOffset);
    [
        broken(
            is_some_unresolved(accessor.buffer_view, views.len()),
            Code::UnresolvedReference,
            Subject::Member(at, Name::BufferView),
        ),
        broken(
            accessor.byte_offset.is_some() && accessor.buffer_view.is_none(),
            Code::UnsatisfiedDependency,
            byte_offset_at,
        ),
        broken(
            is_invalid(&accessor.component_type),
            Code::ValueNotInList,
            Subject::Member(at, Name::ComponentType),
        ),
        broken(
            is_invalid(&accessor.type_),
            Code::ValueNotInList,
            Subject::Member(at, Name::Type),
        ),
        broken(
            accessor.count.0 < 1,
            Code::ValueNotInRange,
            Subject::Member(at, Name::Count),
        ),
        broken(
            accessor.normalized && cannot_be_normalized(accessor.component_type),
            Code::AccessorNormalizedInvalid,
            Subject::Member(at, Name::Normalized),
        ),
        broken(
            is_matrix(accessor.type_) && offset_number(accessor.byte_offset) % 4 != 0,
            Code::AccessorMatrixAlignment,
            byte_offset_at,
        ),
    ]
}

/// The rules for the bounds of an accessor.
fn bound_rules(number: usize, accessor: &Accessor) -> [Option<Finding>; 2]
    ensures { result ≡ bound_rules number accessor.now }
{
    // derived
    let at = Object::Item(Name::Accessors, number);
    let type_of_elements = type_of_elements(accessor.type_);
    [
        broken(
            has_other_length(&accessor.min, type_of_elements),
            Code::ArrayLengthNotInList,
            Subject::Member(at, Name::Min),
        ),
        broken(
            has_other_length(&accessor.max, type_of_elements),
            Code::ArrayLengthNotInList,
            Subject::Member(at, Name::Max),
        ),
    ]
}

/// Whether a bound is a list of another number of numbers than elements have components.
fn has_other_length(bound: &Option<Value>, type_: Option<AccessorType>) -> bool
    ensures { result ≡ has_other_length bound.now type_ }
{
    // derived
    match bound {
        Some(bound) => is_other_count(item_count(bound), type_),
        None => false,
    }
}

/// How many items a value has, if it is an array.
#[tactic(auto, using(crate::proofs::Counted::counted))]
fn item_count(value: &Value) -> Option<usize>
    ensures { result ≡ item_count value.now }
{
    match value.as_array() {
        Some(items) => Some(items.len()),
        None => None,
    }
}

/// Whether a number is known and not that of an element's components.
fn is_other_count(count: Option<usize>, type_: Option<AccessorType>) -> bool
    ensures { result ≡ is_other_count count type_ }
{
    // derived
    match (count, type_) {
        (Some(count), Some(type_)) => count != type_.multiplicity(),
        _ => false,
    }
}

/// Whether components are none that can be normalized.
fn cannot_be_normalized(component_type: Checked<GenericComponentType>) -> bool
    ensures { result ≡ cannot_be_normalized component_type }
{
    // derived
    match component_of(component_type) {
        Some(ComponentType::U32 | ComponentType::F32) => true,
        _ => false,
    }
}

/// Whether elements are matrices.
fn is_matrix(type_: Checked<AccessorType>) -> bool
    ensures { result ≡ is_matrix type_ }
{
    // derived
    match type_ {
        Checked::Valid(AccessorType::Mat2 | AccessorType::Mat3 | AccessorType::Mat4) => true,
        _ => false,
    }
}

/// The type of components, if it is valid.
fn component_of(component_type: Checked<GenericComponentType>) -> Option<ComponentType>
    ensures { result ≡ component_of component_type }
{
    // derived
    match component_type {
        Checked::Valid(component_type) => Some(component_type.0),
        Checked::Invalid => None,
    }
}

/// The type of elements, if it is valid.
fn type_of_elements(type_: Checked<AccessorType>) -> Option<AccessorType>
    ensures { result ≡ type_of_elements type_ }
{
    // derived
    match type_ {
        Checked::Valid(type_) => Some(type_),
        Checked::Invalid => None,
    }
}

/// Adds the findings of the elements that deviate.
fn add_sparse(
    to: &mut Vec<Finding>,
    views: &[View],
    number: usize,
    accessor: &Accessor,
) -> Result<(), AllocError>
    ensures { OnOk result (to.new.items ≡ to.old.items
        ++ findings_if (λ s. found (sparse_rules (length views.now) number accessor.now.count.0 s))
        accessor.now.sparse) }
{
    match &accessor.sparse {
        Some(sparse) => { add_found(to, &sparse_rules(views, number, accessor.count.0, sparse)) }
        None => Ok(()),
    }
}

/// The rules for the elements of an accessor that deviate.
fn sparse_rules(views: &[View], number: usize, count: u64, sparse: &Sparse) -> [Option<Finding>; 5]
    ensures { result ≡ sparse_rules (length views.now) number count sparse.now }
{
    // derived
    let at = Object::Part(Name::Accessors, number, Name::Sparse);
    let count_at = Subject::Member(at, Name::Count);
    let indices = Object::Inner(Name::Accessors, number, Name::Sparse, Name::Indices);
    let values = Object::Inner(Name::Accessors, number, Name::Sparse, Name::Values);
    [
        broken(sparse.count.0 < 1, Code::ValueNotInRange, count_at),
        broken(
            count < sparse.count.0,
            Code::AccessorSparseCountOutOfRange,
            count_at,
        ),
        broken(
            is_unresolved(sparse.indices.buffer_view, views.len()),
            Code::UnresolvedReference,
            Subject::Member(indices, Name::BufferView),
        ),
        broken(
            is_invalid(&sparse.indices.component_type),
            Code::ValueNotInList,
            Subject::Member(indices, Name::ComponentType),
        ),
        broken(
            is_unresolved(sparse.values.buffer_view, views.len()),
            Code::UnresolvedReference,
            Subject::Member(values, Name::BufferView),
        ),
    ]
}

/// Adds the findings of where the elements of an accessor lie in its view.
fn add_elements(
    to: &mut Vec<Finding>,
    views: &[View],
    number: usize,
    accessor: &Accessor,
) -> Result<(), AllocError>
    ensures { OnOk result (to.new.items ≡ to.old.items
        ++ found (elements_rules views.now number accessor.now)) }
{
    let component_type = match component_of(accessor.component_type) {
        Some(component_type) => component_type,
        None => return Ok(()),
    };
    let type_ = match type_of_elements(accessor.type_) {
        Some(type_) => type_,
        None => return Ok(()),
    };
    match view_of(views, accessor) {
        Some(view) => {
            let size = element_size(type_, component_type);
            let component = component_length(component_type);
            add_found(to, &layout_rules(number, accessor, view, component, size))
        }
        None => Ok(()),
    }
}

/// How many bytes a component takes.
fn component_length(component_type: ComponentType) -> u64
    ensures size { result ≡ component_size component_type }
    ensures some { 0 < result }
{
    match component_type {
        ComponentType::I8 | ComponentType::U8 => 1,
        ComponentType::I16 | ComponentType::U16 => 2,
        ComponentType::U32 | ComponentType::F32 => 4,
    }
}

/// The view that an accessor names.
fn view_of<'a>(views: &'a [View], accessor: &Accessor) -> Option<&'a View>
    ensures { option_copied result ≡ view_of views.now accessor.now }
{
    match accessor.buffer_view {
        Some(view) => views.get(view.value()),
        None => None,
    }
}

/// The rules for where elements of so many bytes lie in a view.
fn layout_rules(
    number: usize,
    accessor: &Accessor,
    view: &View,
    component: u64,
    size: u64,
) -> [Option<Finding>; 4]
    requires { 0 < component }
    ensures { result ≡ layout_rules number accessor.now view.now component size }
{
    // derived
    let at = Object::Item(Name::Accessors, number);
    let byte_offset_at = Subject::Member(at, Name::ByteOffset);
    let offset = offset_number(accessor.byte_offset);
    [
        broken(
            offset % component != 0,
            Code::AccessorOffsetAlignment,
            byte_offset_at,
        ),
        broken(
            is_misaligned(offset_number(view.byte_offset), offset, component),
            Code::AccessorTotalOffsetAlignment,
            byte_offset_at,
        ),
        broken(
            is_small(view.byte_stride, size),
            Code::AccessorSmallBytestride,
            Subject::Object(at),
        ),
        broken(
            is_behind_view(accessor, view, size),
            Code::AccessorTooLong,
            Subject::Object(at),
        ),
    ]
}

/// Whether a stride is less than a size.
fn is_small(stride: Option<Stride>, size: u64) -> bool
    ensures { result ≡ is_small stride size }
{
    // derived
    match stride {
        Some(stride) => (stride.0 as u64) < size,
        None => false,
    }
}

/// Whether the sum of two offsets is no multiple of a size.
fn is_misaligned(start: u64, offset: u64, size: u64) -> bool
    requires { 0 < size }
    ensures { result ≡ not ((start + offset) % size == 0) }
{
    (start as u128 + offset as u128) % (size as u128) != 0
}

/// Whether the elements of an accessor end behind its view.
fn is_behind_view(accessor: &Accessor, view: &View, size: u64) -> bool
    ensures { result ≡ is_behind_view accessor.now view.now size }
{
    let stride = match view.byte_stride {
        Some(stride) => stride.0 as u64,
        None => size,
    };
    let last = accessor.count.0.saturating_sub(1);
    ends_behind(
        offset_number(accessor.byte_offset),
        stride,
        last,
        size,
        view.byte_length.0,
    )
}

/// Whether element `last` ends behind so many bytes.
fn ends_behind(offset: u64, stride: u64, last: u64, size: u64, length: u64) -> bool
    ensures { result ≡ nat_lt length (offset + stride * last + size) }
{
    match stride.checked_mul(last) {
        None => true,
        Some(skipped) => match skipped.checked_add(offset) {
            None => true,
            Some(start) => length < start || length - start < size,
        },
    }
}
