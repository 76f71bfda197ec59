//! Variants of a document's materials (the extension `KHR_materials_variants`).

ghost use Rattle.std.specs.Prelude.{◌≡◌, [], ◌∷◌, codes};
ghost use Rattle.gltf_base.specs.Lists.{variants};
ghost use Rattle.gltf_schema.specs.WithDefaults.{with_defaults};
ghost use Rattle.gltf_schema.specs.Fields.{text_tree};
ghost use Rattle.gltf_scene.specs.Light.{variant_rows, variant_members};

use gltf_base::Listed;

mod derived;

/// A material variant of a document.
#[derive(Clone, Debug)]
pub struct Variant {
    pub name: String,
}

// Written by tools/derive.py: begin
impl Drop for Variant {
    #[inline(always)]
    fn drop(self) {
        let Variant { name: _ } = self;
    }
}
// Written by tools/derive.py: end

impl Variant {
    /// Returns a variant with this name.
    #[tactic(auto, unfolding(crate::specs::Light::variant_rows, crate::specs::Light::variant_members))]
    pub fn new(name: String) -> Variant
        ensures { variant_members result ≡ with_defaults variant_rows (
            (codes "name", text_tree name)
            ∷ []) }
    {
        Variant { name }
    }
}

impl Listed for Variant {
    ghost list = { variants };
}
