//! Skins (glTF 2.0, section 5.28).

ghost use Rattle.std.specs.Prelude.{◌≡◌, ◌++◌, length, Option, OnOk, option_copied};
ghost use Rattle.gltf_findings_codes.specs.Found.{found, findings_from};
ghost use Rattle.gltf_findings_codes.specs.Rules.{reference_findings};
ghost use Rattle.gltf_findings_codes.specs.Formats.{accessor_of};
ghost use Rattle.gltf_findings_rules.specs.Skins.{skin_findings, skin_rules, has_few_matrices};

use gltf_findings_codes::{
    AllowedFormat, Code, Finding, Name, Object, References, Rules, Subject, accessor_of, add_all,
    add_found, add_repeats, broken, is_accessor_strided, is_some_unresolved,
};
use gltf_parts::accessor::Accessor;
use gltf_parts::buffer::View;
use gltf_scene::skin::Skin;
use std::alloc::AllocError;

/// The rules for skins, which name nodes and accessors.
#[derive(Clone, Copy)]
pub struct SkinRules<'a> {
    /// How many nodes there are.
    pub nodes: usize,
    /// The buffer views of the document.
    pub views: &'a [View],
    /// The accessors of the document.
    pub accessors: &'a [Accessor],
}

impl Rules<Skin> for SkinRules<'_> {
    ghost findings = { λ s n skin. skin_findings s.nodes s.views.now s.accessors.now n skin };

    #[tactic(auto, using(std::proofs::lemmas::List::append_assoc))]
    fn add(&self, number: usize, item: &Skin, to: &mut Vec<Finding>) -> Result<(), AllocError> {
        add_found(to, &skin_rules(self, number, item))?;
        let joints = References {
            object: Object::Item(Name::Skins, number),
            name: Name::Joints,
            count: self.nodes,
        };
        add_all(to, &joints, &item.joints)?;
        add_repeats(to, joints.object, Name::Joints, &item.joints)
    }
}

/// The rules for a skin by itself.
fn skin_rules(lists: &SkinRules<'_>, number: usize, skin: &Skin) -> [Option<Finding>; 5]
    ensures { result ≡ skin_rules lists.now.nodes lists.now.views.now lists.now.accessors.now
        number skin.now }
{
    // derived
    let at = Object::Item(Name::Skins, number);
    let inverse_bind_matrices_at = Subject::Member(at, Name::InverseBindMatrices);
    [
        broken(
            is_some_unresolved(skin.skeleton, lists.nodes),
            Code::UnresolvedReference,
            Subject::Member(at, Name::Skeleton),
        ),
        broken(
            is_some_unresolved(skin.inverse_bind_matrices, lists.accessors.len()),
            Code::UnresolvedReference,
            inverse_bind_matrices_at,
        ),
        broken(
            AllowedFormat::Matrices.excludes_named(lists.accessors, skin.inverse_bind_matrices),
            Code::SkinIbmInvalidFormat,
            inverse_bind_matrices_at,
        ),
        broken(
            has_few_matrices(lists.accessors, skin),
            Code::InvalidIbmAccessorCount,
            inverse_bind_matrices_at,
        ),
        broken(
            is_accessor_strided(lists.views, lists.accessors, skin.inverse_bind_matrices),
            Code::SkinIbmAccessorWithBytestride,
            inverse_bind_matrices_at,
        ),
    ]
}

/// Whether a skin has fewer inverse bind matrices than joints.
fn has_few_matrices(accessors: &[Accessor], skin: &Skin) -> bool
    ensures { result ≡ has_few_matrices accessors.now skin.now }
{
    // derived
    match accessor_of(accessors, skin.inverse_bind_matrices) {
        Some(accessor) => accessor.count.0 < skin.joints.len() as u64,
        None => false,
    }
}
