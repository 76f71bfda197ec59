//! Written by tools/derive.py from crates/gltf_parts/src/extensions/material/volume.rt and
//! crates/gltf_parts/specs/MaterialExtension.antt. Do not edit.

ghost use Rattle.gltf_parts.specs.MaterialExtension.{volume_members, volume_rows};
ghost use Rattle.gltf_parts.specs.MaterialExtensionDerived.{volume_height, volume_sound};
ghost use Rattle.gltf_schema.specs.Defaults.{defaults};
ghost use Rattle.gltf_schema.specs.Fields.{real_tree, reals_tree};
ghost use Rattle.gltf_schema.specs.Floats.{float_or, floats_or};
ghost use Rattle.gltf_schema.specs.Kind.{Number, Numbers};
ghost use Rattle.gltf_schema.specs.Tree.{tree_or_absent};
ghost use Rattle.serde_json.specs.Data.{no_members};
ghost use Rattle.std.proofs.Common.{lit≤};
ghost use Rattle.std.specs.Prelude.{false, ◌≡◌};

use super::{AttenuationColor, AttenuationDistance, ThicknessFactor, Volume};
use gltf_schema::{Object, ReadRows, StrictObject, StrictRows, Tabled, WriteRows};
use std::alloc::Global;

impl Volume {
    /// Returns an object for a thin-walled surface.
    #[tactic(auto, unfolding(crate::specs::MaterialExtension::volume_rows, crate::specs::MaterialExtension::volume_members))]
    pub fn new() -> Volume
        ensures { volume_members result ≡ defaults volume_rows }
    {
        Volume {
            thickness_factor: ThicknessFactor(None),
            thickness_texture: None,
            attenuation_distance: AttenuationDistance(None),
            attenuation_color: AttenuationColor(None),
            extras: None,
        }
    }
}

impl Object for Volume {
    ghost rows = { volume_rows };

    ghost keeps = { false };

    ghost members = { volume_members };

    ghost unknown = { λ _. no_members };

    ghost kind_is_sound = { volume_sound };

    ghost height = { 2 };

    ghost height_bounds_kind = { (volume_height.1, lit≤ tt) };

    #[tactic(auto, unfolding(crate::specs::MaterialExtension::volume_rows, crate::specs::MaterialExtension::volume_members))]
    fn start(_alloc: Global) -> Volume {
        Volume::new()
    }

    #[tactic(auto, unfolding(crate::specs::MaterialExtension::volume_rows))]
    fn count_required() -> usize {
        0
    }

    fn read_rows<R: ReadRows>(&mut self, from: &mut R) {
        from.sometimes("thicknessFactor", &mut self.thickness_factor.0);
        from.optional("thicknessTexture", &mut self.thickness_texture);
        from.sometimes("attenuationDistance", &mut self.attenuation_distance.0);
        from.sometimes("attenuationColor", &mut self.attenuation_color.0);
        from.optional("extras", &mut self.extras);
    }

    fn write_members<W: WriteRows>(&self, to: &mut W) {
        to.optional("attenuationColor", &self.attenuation_color.0);
        to.optional("attenuationDistance", &self.attenuation_distance.0);
        to.optional("extras", &self.extras);
        to.optional("thicknessFactor", &self.thickness_factor.0);
        to.optional("thicknessTexture", &self.thickness_texture);
    }
}

impl StrictObject for Volume {
    fn write_strictly<W: StrictRows>(&self, to: &mut W) {
        to.optional("attenuationColor", &self.attenuation_color.0);
        to.optional("attenuationDistance", &self.attenuation_distance.0);
        to.optional("extras", &self.extras);
        to.optional("thicknessFactor", &self.thickness_factor.0);
        to.optional_strictly("thicknessTexture", &self.thickness_texture);
    }
}

impl ThicknessFactor {
    /// The number as a float, or [`ThicknessFactor::DEFAULT`] if it is absent.
    pub fn value(&self) -> f64
        ensures { result ≡ float_or Self.DEFAULT self.now.0 }
    {
        match &self.0 {
            Some(number) => number.as_f64(),
            None => ThicknessFactor::DEFAULT,
        }
    }
}

impl Tabled for ThicknessFactor {
    ghost kind = { Number };

    ghost tree = { λ factor. tree_or_absent real_tree factor.0 };
}

impl Tabled for AttenuationDistance {
    ghost kind = { Number };

    ghost tree = { λ factor. tree_or_absent real_tree factor.0 };
}

impl AttenuationColor {
    /// The numbers as floats, or [`AttenuationColor::DEFAULT`] if they are absent.
    pub fn values(&self) -> [f64; 3]
        ensures { result ≡ floats_or Self.DEFAULT self.now.0 }
    {
        match &self.0 {
            Some([r, g, b]) => [r.as_f64(), g.as_f64(), b.as_f64()],
            None => AttenuationColor::DEFAULT,
        }
    }
}

impl Tabled for AttenuationColor {
    ghost kind = { Numbers 3 };

    ghost tree = { λ factor. tree_or_absent reals_tree factor.0 };
}
