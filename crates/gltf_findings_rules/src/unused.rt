//! Items that nothing uses.

ghost use Rattle.std.specs.Prelude.{◌≡◌};
ghost use Rattle.gltf_findings_rules.specs.Unused.{unused_findings, weight_findings};

use gltf_findings_codes::{
    Code, Finding, Name, Object, Rules, Subject, add_found, broken, is_marked,
};
use gltf_scene::mesh::Mesh;
use std::alloc::AllocError;

/// The rule for the items of a list: something names each.
#[derive(Clone, Copy)]
pub struct UnusedRules<'a> {
    /// The name of the list.
    pub list: Name,
    /// Which items others name.
    pub marks: &'a [bool],
}

impl<T> Rules<T> for UnusedRules<'_> {
    ghost findings = { λ s n item. unused_findings s.list s.marks.now n };

    fn add(&self, number: usize, _item: &T, to: &mut Vec<Finding>) -> Result<(), AllocError> {
        let is_used = is_marked(self.marks, number);
        let place = Subject::Object(Object::Item(self.list, number));
        add_found(to, &[broken(!is_used, Code::UnusedObject, place)])
    }
}

/// The rule for the weights of meshes: a node uses them.
#[derive(Clone, Copy)]
pub struct WeightRules<'a> {
    /// Which meshes nodes name.
    pub used: &'a [bool],
    /// Which of them a node without weights names.
    pub defaults: &'a [bool],
}

impl Rules<Mesh> for WeightRules<'_> {
    ghost findings = { λ s n mesh. weight_findings s.used.now s.defaults.now n mesh };

    fn add(&self, number: usize, item: &Mesh, to: &mut Vec<Finding>) -> Result<(), AllocError> {
        let is_used = is_marked(self.used, number);
        let is_default = is_marked(self.defaults, number);
        let is_broken = item.weights.is_some() && is_used && !is_default;
        let place = Subject::Member(Object::Item(Name::Meshes, number), Name::Weights);
        add_found(to, &[broken(is_broken, Code::UnusedMeshWeights, place)])
    }
}
