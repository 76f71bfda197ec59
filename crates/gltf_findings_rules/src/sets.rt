//! Attributes of which there can be several (glTF 2.0, section 3.7.2.1).

ghost use Rattle.std.specs.Prelude.{◌≡◌, ◌++◌, IfOk, length, Option};
ghost use Rattle.gltf_base.specs.Semantics.{checked_key};
ghost use Rattle.gltf_findings_codes.specs.Attributes.{attributes_in};
ghost use Rattle.gltf_findings_rules.specs.Sets.{set_of, sets_of, has_gap, set_rules};

use gltf_base::Index;
use gltf_base::mesh::Semantic;
use gltf_base::validation::Checked;
use gltf_findings_codes::{Code, Finding, Name, Object, Subject, broken};
use gltf_parts::accessor::Accessor;
use std::alloc::{AllocError, Global};
use std::collections::BTreeMap;

/// What attributes with numbers mean.
#[derive(Clone, Copy)]
pub enum Kind {
    /// `COLOR_n`.
    Colors,
    /// `TEXCOORD_n`.
    TexCoords,
    /// `JOINTS_n`.
    Joints,
    /// `WEIGHTS_n`.
    Weights,
}

impl Kind {
    /// The number of a set of this kind.
    fn set_of(&self, semantic: &Checked<Semantic>) -> Option<u32>
        ensures { result ≡ set_of self.now (checked_key semantic.now) }
    {
        // derived
        match (self, semantic) {
            (Kind::Colors, Checked::Valid(Semantic::Colors(set))) => Some(*set),
            (Kind::TexCoords, Checked::Valid(Semantic::TexCoords(set))) => Some(*set),
            (Kind::Joints, Checked::Valid(Semantic::Joints(set))) => Some(*set),
            (Kind::Weights, Checked::Valid(Semantic::Weights(set))) => Some(*set),
            _ => None,
        }
    }

    /// The numbers of the sets of this kind.
    pub fn sets_of(
        &self,
        alloc: Global,
        attributes: &BTreeMap<Checked<Semantic>, Index<Accessor>>,
    ) -> Result<Vec<u32>, AllocError>
        ensures { IfOk result (λ sets. sets.items
            ≡ sets_of self.now (attributes_in attributes.now)) }
    {
        let mut sets = Vec::new(alloc);
        for (semantic, _) in attributes {
            if let Some(set) = self.set_of(semantic) {
                sets.push(set)?;
            }
        }
        Ok(sets)
    }
}

/// Whether the numbers of so many sets are not those from 0 on.
fn has_gap(sets: &[u32]) -> bool
    ensures { result ≡ has_gap sets.now }
{
    for set in sets {
        if sets.len() <= *set as usize {
            return true;
        }
    }
    false
}

/// The rules for the sets of a primitive of a mesh whose first primitive has so many sets of
/// joints. Fails only if out of memory.
pub fn set_rules(
    alloc: Global,
    at: Object,
    joints: usize,
    attributes: &BTreeMap<Checked<Semantic>, Index<Accessor>>,
) -> Result<[Option<Finding>; 6], AllocError>
    ensures { IfOk result (λ rules. rules ≡ set_rules at joints (attributes_in attributes.now)) }
{
    let all = Subject::Member(at, Name::Attributes);
    let color_sets = Kind::Colors.sets_of(alloc, attributes)?;
    let tex_coord_sets = Kind::TexCoords.sets_of(alloc, attributes)?;
    let joint_sets = Kind::Joints.sets_of(alloc, attributes)?;
    let weight_sets = Kind::Weights.sets_of(alloc, attributes)?;
    Ok([
        broken(
            has_gap(&color_sets),
            Code::MeshPrimitiveIndexedSemanticContinuity,
            all,
        ),
        broken(
            has_gap(&tex_coord_sets),
            Code::MeshPrimitiveIndexedSemanticContinuity,
            all,
        ),
        broken(
            has_gap(&joint_sets),
            Code::MeshPrimitiveIndexedSemanticContinuity,
            all,
        ),
        broken(
            has_gap(&weight_sets),
            Code::MeshPrimitiveIndexedSemanticContinuity,
            all,
        ),
        broken(
            joint_sets.len() != weight_sets.len(),
            Code::MeshPrimitiveJointsWeightsMismatch,
            all,
        ),
        broken(
            joint_sets.len() != joints,
            Code::MeshPrimitivesUnequalJointsCount,
            all,
        ),
    ])
}
