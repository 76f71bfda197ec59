//! Documents that are stripped of what applications add to them.

ghost use Rattle.std.specs.Prelude.{◌≡◌};
ghost use Rattle.gltf_schema.specs.Stripped.{stripped};
ghost use Rattle.gltf_schema.specs.declared.stripping.Strip.TheVariants.{Extras as extras, Unknown as unknown};
ghost use Rattle.gltf_root.specs.Root.{root_kind, root_tree};

use super::Root;
use gltf_schema::{Schema, Strip};

impl Root {
    /// Makes the `extras` of each object of the document absent, also of extension objects (glTF
    /// 2.0, sections 3.12 and 5.16). It takes no memory, and all else stays as it is: an unknown
    /// extension too, whatever is in it.
    pub fn strip_extras(&mut self)
        ensures { root_tree self.new ≡ stripped extras root_kind (root_tree self.old) }
    {
        self.strip(Strip::Extras);
    }

    /// Drops the unknown members that objects of the document keep, as unknown extensions (glTF
    /// 2.0, section 3.12). It takes no memory, and all else stays as it is: an object `extensions`
    /// too that is left empty, and the names in `extensions_used` and `extensions_required`.
    pub fn drop_unknown(&mut self)
        ensures { root_tree self.new ≡ stripped unknown root_kind (root_tree self.old) }
    {
        self.strip(Strip::Unknown);
    }
}
