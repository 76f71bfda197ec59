//! Materials of a primitive for variants (`KHR_materials_variants`).

ghost use Rattle.std.specs.Prelude.{◌≡◌, ◌++◌, OnOk};
ghost use Rattle.gltf_findings_codes.specs.Found.{found, findings_from};
ghost use Rattle.gltf_findings_rules.specs.Variants.{variant_findings, mapping_findings, mappings_findings, variants_findings};

use gltf_findings_codes::{
    Code, Finding, Name, Object, Rules, Subject, add_all, add_found, broken,
};
use gltf_scene::extensions::mesh::{KhrMaterialsVariants, Mapping, Primitive as Extensions};
use std::alloc::AllocError;

/// The rules for the mappings of a primitive.
#[derive(Clone, Copy)]
pub struct MappingRules {
    /// How many materials there are.
    pub materials: usize,
    /// How many variants there are.
    pub variants: usize,
    /// The number of the mesh.
    pub mesh: usize,
    /// The number of the primitive.
    pub primitive: usize,
}

impl Rules<Mapping> for MappingRules {
    ghost findings = { λ s j mapping.
        mapping_findings s.materials s.variants s.mesh s.primitive j mapping };

    #[tactic(auto, using(std::proofs::lemmas::List::append_assoc))]
    fn add(&self, number: usize, item: &Mapping, to: &mut Vec<Finding>) -> Result<(), AllocError> {
        let at = Object::Mapping(self.mesh, self.primitive, number);
        let is_unresolved = self.materials <= item.material as usize;
        let place = Subject::Member(at, Name::Material);
        add_found(
            to,
            &[broken(is_unresolved, Code::UnresolvedReference, place)],
        )?;
        let variants = VariantRules {
            count: self.variants,
            mesh: self.mesh,
            primitive: self.primitive,
            mapping: number,
        };
        add_all(to, &variants, &item.variants)
    }
}

/// The rule for the variants of a mapping.
#[derive(Clone, Copy)]
struct VariantRules {
    count: usize,
    mesh: usize,
    primitive: usize,
    mapping: usize,
}

impl Rules<u32> for VariantRules {
    ghost findings = { λ s i variant.
        variant_findings s.count s.mesh s.primitive s.mapping i variant };

    fn add(&self, number: usize, item: &u32, to: &mut Vec<Finding>) -> Result<(), AllocError> {
        let at = Object::Mapping(self.mesh, self.primitive, self.mapping);
        let is_unresolved = self.count <= *item as usize;
        let place = Subject::Entry(at, Name::Variants, number);
        add_found(
            to,
            &[broken(is_unresolved, Code::UnresolvedReference, place)],
        )
    }
}

impl MappingRules {
    /// Adds the findings of all mappings. Fails only if out of memory.
    pub fn add_all(
        &self,
        to: &mut Vec<Finding>,
        extensions: &Option<Extensions>,
    ) -> Result<(), AllocError>
        ensures { OnOk result (to.new.items ≡ to.old.items ++ variants_findings
            self.now.materials self.now.variants self.now.mesh self.now.primitive
            extensions.now) }
    {
        match extensions {
            Some(extensions) => self.add_mappings(to, &extensions.khr_materials_variants),
            None => Ok(()),
        }
    }

    /// The same for the extension object.
    fn add_mappings(
        &self,
        to: &mut Vec<Finding>,
        variants: &Option<KhrMaterialsVariants>,
    ) -> Result<(), AllocError>
        ensures { OnOk result (to.new.items ≡ to.old.items ++ mappings_findings
            self.now.materials self.now.variants self.now.mesh self.now.primitive
            variants.now) }
    {
        match variants {
            Some(variants) => add_all(to, self, &variants.mappings),
            None => Ok(()),
        }
    }
}
