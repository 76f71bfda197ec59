//! The body that a surface bounds (`KHR_materials_volume`).

ghost use Rattle.std.specs.Prelude.{◌≡◌, option_map};
ghost use Rattle.gltf_schema.specs.Floats.{real_float};

use crate::extras::Extras;
use crate::texture::Info;
use gltf_base::Real;

mod derived;

/// The volume that a surface bounds (`KHR_materials_volume`).
#[derive(Clone, Debug)]
pub struct Volume {
    /// The thickness of the volume.
    pub thickness_factor: ThicknessFactor,
    /// The texture with the thickness in its green channel.
    pub thickness_texture: Option<Info>,
    /// The average distance that light travels in the volume before it is absorbed.
    pub attenuation_distance: AttenuationDistance,
    /// The color that white light turns into at that distance.
    pub attenuation_color: AttenuationColor,
    pub extras: Extras,
}

// Written by tools/derive.py: begin
impl Drop for Volume {
    #[inline(always)]
    fn drop(self) {
        let Volume {
            thickness_factor: _,
            thickness_texture: _,
            attenuation_distance: _,
            attenuation_color: _,
            extras: _,
        } = self;
    }
}
// Written by tools/derive.py: end

/// The thickness of a volume, in the mesh's coordinate space; `None` means 0, a thin-walled
/// surface.
#[derive(Clone, Debug, Default, Drop)]
pub struct ThicknessFactor(pub Option<Real>);

impl ThicknessFactor {
    /// The number that an absent factor means.
    pub const DEFAULT: f64 = 0.0;
}

/// The attenuation distance in world space; `None` means infinite.
#[derive(Clone, Debug, Default, Drop)]
pub struct AttenuationDistance(pub Option<Real>);

impl AttenuationDistance {
    /// The number as a float; `None` means that there is no end.
    pub fn value(&self) -> Option<f64>
        ensures { result ≡ option_map real_float self.now.0 }
    {
        match &self.0 {
            Some(number) => Some(number.as_f64()),
            None => None,
        }
    }
}

/// The color that white light turns into at the attenuation distance: red, green, blue; `None`
/// means ones.
#[derive(Clone, Debug, Default, Drop)]
pub struct AttenuationColor(pub Option<[Real; 3]>);

impl AttenuationColor {
    /// The numbers that an absent factor means.
    pub const DEFAULT: [f64; 3] = [1.0; 3];
}
