//! Written by tools/derive.py from crates/gltf_parts/src/extensions/material/transmission.rt and
//! crates/gltf_parts/specs/MaterialExtension.antt. Do not edit.

ghost use Rattle.gltf_parts.specs.MaterialExtension.{transmission_members, transmission_rows};
ghost use Rattle.gltf_parts.specs.MaterialExtensionDerived.{transmission_height, transmission_sound};
ghost use Rattle.gltf_schema.specs.Defaults.{defaults};
ghost use Rattle.gltf_schema.specs.Fields.{real_tree};
ghost use Rattle.gltf_schema.specs.Floats.{float_or};
ghost use Rattle.gltf_schema.specs.Kind.{Number};
ghost use Rattle.gltf_schema.specs.Tree.{tree_or_absent};
ghost use Rattle.serde_json.specs.Data.{no_members};
ghost use Rattle.std.proofs.Common.{lit≤};
ghost use Rattle.std.specs.Prelude.{false, ◌≡◌};

use super::{Transmission, TransmissionFactor};
use gltf_schema::{Object, ReadRows, StrictObject, StrictRows, Tabled, WriteRows};
use std::alloc::Global;

impl Transmission {
    /// Returns an object by which no light is transmitted.
    #[tactic(auto, unfolding(crate::specs::MaterialExtension::transmission_rows, crate::specs::MaterialExtension::transmission_members))]
    pub fn new() -> Transmission
        ensures { transmission_members result ≡ defaults transmission_rows }
    {
        Transmission {
            transmission_factor: TransmissionFactor(None),
            transmission_texture: None,
            extras: None,
        }
    }
}

impl Object for Transmission {
    ghost rows = { transmission_rows };

    ghost keeps = { false };

    ghost members = { transmission_members };

    ghost unknown = { λ _. no_members };

    ghost kind_is_sound = { transmission_sound };

    ghost height = { 2 };

    ghost height_bounds_kind = { (transmission_height.1, lit≤ tt) };

    #[tactic(auto, unfolding(crate::specs::MaterialExtension::transmission_rows, crate::specs::MaterialExtension::transmission_members))]
    fn start(_alloc: Global) -> Transmission {
        Transmission::new()
    }

    #[tactic(auto, unfolding(crate::specs::MaterialExtension::transmission_rows))]
    fn count_required() -> usize {
        0
    }

    fn read_rows<R: ReadRows>(&mut self, from: &mut R) {
        from.sometimes("transmissionFactor", &mut self.transmission_factor.0);
        from.optional("transmissionTexture", &mut self.transmission_texture);
        from.optional("extras", &mut self.extras);
    }

    fn write_members<W: WriteRows>(&self, to: &mut W) {
        to.optional("extras", &self.extras);
        to.optional("transmissionFactor", &self.transmission_factor.0);
        to.optional("transmissionTexture", &self.transmission_texture);
    }
}

impl StrictObject for Transmission {
    fn write_strictly<W: StrictRows>(&self, to: &mut W) {
        to.optional("extras", &self.extras);
        to.optional("transmissionFactor", &self.transmission_factor.0);
        to.optional_strictly("transmissionTexture", &self.transmission_texture);
    }
}

impl TransmissionFactor {
    /// The number as a float, or [`TransmissionFactor::DEFAULT`] if it is absent.
    pub fn value(&self) -> f64
        ensures { result ≡ float_or Self.DEFAULT self.now.0 }
    {
        match &self.0 {
            Some(number) => number.as_f64(),
            None => TransmissionFactor::DEFAULT,
        }
    }
}

impl Tabled for TransmissionFactor {
    ghost kind = { Number };

    ghost tree = { λ factor. tree_or_absent real_tree factor.0 };
}
