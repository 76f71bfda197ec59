//! Written by tools/derive.py from crates/gltf_parts/src/accessor.rt and
//! crates/gltf_parts/specs/Accessor.antt. Do not edit.

ghost use Rattle.gltf_parts.specs.Accessor.{accessor_members, accessor_rows};
ghost use Rattle.gltf_parts.specs.AccessorDerived.{accessor_height, accessor_sound};
ghost use Rattle.gltf_schema.specs.Kind.{needs_data};
ghost use Rattle.serde_json.specs.Data.{no_members};
ghost use Rattle.std.proofs.Common.{lit≤};
ghost use Rattle.std.specs.Prelude.{false};

use super::Accessor;
use gltf_base::validation::{Checked, USize64};
use gltf_schema::{Object, ReadRows, WriteRows};
use std::alloc::Global;

impl Object for Accessor {
    ghost rule = { needs_data };

    ghost rows = { accessor_rows };

    ghost keeps = { false };

    ghost members = { accessor_members };

    ghost unknown = { λ _. no_members };

    ghost kind_is_sound = { accessor_sound };

    ghost height = { 3 };

    ghost height_bounds_kind = { (accessor_height.1, lit≤ tt) };

    #[tactic(auto, unfolding(crate::specs::Accessor::accessor_rows, crate::specs::Accessor::accessor_members))]
    fn start(_alloc: Global) -> Accessor {
        Accessor {
            buffer_view: None,
            byte_offset: None,
            count: USize64(0),
            component_type: Checked::Invalid,
            type_: Checked::Invalid,
            min: None,
            max: None,
            name: None,
            normalized: false,
            sparse: None,
            extensions: None,
            extras: None,
        }
    }

    #[tactic(auto, unfolding(crate::specs::Accessor::accessor_rows))]
    fn count_required() -> usize {
        3
    }

    fn read_rows<R: ReadRows>(&mut self, from: &mut R) {
        from.optional("bufferView", &mut self.buffer_view);
        from.optional("byteOffset", &mut self.byte_offset);
        from.required("count", &mut self.count);
        from.required("componentType", &mut self.component_type);
        from.required("type", &mut self.type_);
        from.optional("min", &mut self.min);
        from.optional("max", &mut self.max);
        from.optional("name", &mut self.name);
        from.or_default("normalized", &mut self.normalized);
        from.optional("sparse", &mut self.sparse);
        from.optional("extensions", &mut self.extensions);
        from.optional("extras", &mut self.extras);
    }

    fn write_members<W: WriteRows>(&self, to: &mut W) {
        to.optional("bufferView", &self.buffer_view);
        to.optional("byteOffset", &self.byte_offset);
        to.always("componentType", &self.component_type);
        to.always("count", &self.count);
        to.optional("extensions", &self.extensions);
        to.optional("extras", &self.extras);
        to.optional("max", &self.max);
        to.optional("min", &self.min);
        to.optional("name", &self.name);
        to.unless("normalized", &self.normalized, false);
        to.optional("sparse", &self.sparse);
        to.always("type", &self.type_);
    }
}
