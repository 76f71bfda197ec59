//! Values that hold all their faults.

ghost use Rattle.std.specs.Prelude.{◌≡◌, ◌&&◌};
ghost use Rattle.gltf_validation_rules.specs.Context.{Context as SpecContext};
ghost use Rattle.gltf_validation_objects.specs.ValueRefs.{is_found, checklist_of};
ghost use Rattle.gltf_validation_objects.specs.Checklist.{quiet};

use crate::lists::are_positions_quiet;
use crate::value_ref::ValueRef;

impl<'a> ValueRef<'a> {
    /// Whether this is a value that holds all its faults, and holds none.
    pub fn has_no_fault(&self) -> bool
        ensures { (context : SpecContext)
            → result ≡ is_found self.now && quiet (checklist_of context self.now) }
    {
        match self {
            ValueRef::Leaf(fault) => fault.is_none(),
            ValueRef::Attribute(key, index) => key.is_none() && index.is_none(),
            ValueRef::TextureReference(state) => state.is_quiet(),
            ValueRef::OneTexture(state, _) => state.is_quiet(),
            ValueRef::TwoTextures(first, second, ..) => first.is_quiet() && second.is_quiet(),
            ValueRef::AtPositions(faults) | ValueRef::Positions(faults) => {
                are_positions_quiet(*faults)
            }
            _ => false,
        }
    }
}
