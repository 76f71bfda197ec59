//! Accessors and buffer views that are used in two ways.

ghost use Rattle.std.specs.Prelude.{◌≡◌};
ghost use Rattle.gltf_findings_codes.specs.Found.{found};
ghost use Rattle.gltf_findings_rules.specs.Usage.{usage_findings, view_usage_findings, view_usage_rules, is_used_otherwise, lacks_target, lacks_stride, other_use};

use gltf_base::buffer::Target;
use gltf_base::validation::Checked;
use gltf_findings_codes::{
    Code, Finding, Name, Object, Rules, Subject, add_found, broken, is_marked,
};
use gltf_parts::accessor::Accessor;
use gltf_parts::buffer::View;
use std::alloc::AllocError;

/// The rule for accessors: none is used for attributes and for indices.
#[derive(Clone, Copy)]
pub struct UsageRules<'a> {
    /// Which accessors are used for attributes.
    pub attributes: &'a [bool],
    /// Which accessors are used for indices.
    pub indices: &'a [bool],
}

impl Rules<Accessor> for UsageRules<'_> {
    ghost findings = { λ s n accessor. usage_findings s.attributes.now s.indices.now n };

    fn add(
        &self,
        number: usize,
        _item: &Accessor,
        to: &mut Vec<Finding>,
    ) -> Result<(), AllocError> {
        let is_both = is_marked(self.attributes, number) && is_marked(self.indices, number);
        let place = Subject::Object(Object::Item(Name::Accessors, number));
        add_found(to, &[broken(is_both, Code::AccessorUsageOverride, place)])
    }
}

/// The rules for the targets and strides of buffer views.
#[derive(Clone, Copy)]
pub struct ViewUsageRules<'a> {
    /// Which buffer views are used for attributes.
    pub attributes: &'a [bool],
    /// Which buffer views are used for indices.
    pub indices: &'a [bool],
    /// Which buffer views several accessors use for attributes.
    pub shared: &'a [bool],
}

impl Rules<View> for ViewUsageRules<'_> {
    ghost findings = { λ s n view. view_usage_findings s.attributes.now s.indices.now
        s.shared.now n view };

    fn add(&self, number: usize, item: &View, to: &mut Vec<Finding>) -> Result<(), AllocError> {
        let for_attributes = is_marked(self.attributes, number);
        let for_indices = is_marked(self.indices, number);
        let is_shared = is_marked(self.shared, number);
        add_found(
            to,
            &view_usage_rules(for_attributes, for_indices, is_shared, number, item),
        )
    }
}

/// The rules for one buffer view, by its uses.
fn view_usage_rules(
    for_attributes: bool,
    for_indices: bool,
    is_shared: bool,
    number: usize,
    view: &View,
) -> [Option<Finding>; 3]
    ensures { result ≡ view_usage_rules for_attributes for_indices is_shared number view.now }
{
    // derived
    let at = Object::Item(Name::BufferViews, number);
    [
        broken(
            is_used_otherwise(for_attributes, for_indices, view),
            Code::BufferViewTargetOverride,
            Subject::Object(at),
        ),
        broken(
            lacks_target(for_attributes, for_indices, view),
            Code::BufferViewTargetMissing,
            Subject::Member(at, Name::Target),
        ),
        broken(
            lacks_stride(is_shared, view),
            Code::MeshPrimitiveAccessorWithoutBytestride,
            Subject::Member(at, Name::ByteStride),
        ),
    ]
}

/// Whether a buffer view is used in two ways.
fn is_used_otherwise(for_attributes: bool, for_indices: bool, view: &View) -> bool
    ensures { result ≡ is_used_otherwise for_attributes for_indices view.now }
{
    // derived
    (for_attributes && for_indices) || is_other_use(view.target, for_attributes, for_indices)
}

/// Whether a buffer view has a use and no target.
fn lacks_target(for_attributes: bool, for_indices: bool, view: &View) -> bool
    ensures { result ≡ lacks_target for_attributes for_indices view.now }
{
    // derived
    (for_attributes || for_indices) && view.target.is_none()
}

/// Whether several accessors share a buffer view without a stride.
fn lacks_stride(is_shared: bool, view: &View) -> bool
    ensures { result ≡ lacks_stride is_shared view.now }
{
    // derived
    is_shared && view.byte_stride.is_none()
}

/// Whether a target is not that of a use.
fn is_other_use(target: Option<Checked<Target>>, for_attributes: bool, for_indices: bool) -> bool
    ensures { result ≡ other_use target for_attributes for_indices }
{
    match target {
        Some(Checked::Valid(Target::ArrayBuffer)) => for_indices,
        Some(Checked::Valid(Target::ElementArrayBuffer)) => for_attributes,
        _ => false,
    }
}
