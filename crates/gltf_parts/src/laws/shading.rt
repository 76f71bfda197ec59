//! Laws of the crate's types. Each function does nothing; its contract is the law.

ghost use Rattle.std.specs.Prelude.{◌≡◌, None, false, replicate};
ghost use Rattle.std.specs.Float.{binary64, float_one, float_zero};
ghost use Rattle.std.specs.Float.Ieee.{round};

use crate::extensions::material::{
    AttenuationColor, AttenuationDistance, EmissiveStrengthFactor, IndexOfRefraction,
    PbrDiffuseFactor, PbrSpecularFactor, SpecularColorFactor, SpecularFactor, ThicknessFactor,
    TransmissionFactor,
};
use crate::material::StrengthFactor;

/// The default of each factor is `None`.
pub fn factors_are_absent_by_default()
    ensures strength { (x : _) → ⟦<StrengthFactor as Default>⟧.is_default x → x.0 ≡ None }
    ensures diffuse { (x : _) → ⟦<PbrDiffuseFactor as Default>⟧.is_default x → x.0 ≡ None }
    ensures specular_color_of_glossiness { (x : _) → ⟦<PbrSpecularFactor as Default>⟧.is_default x
        → x.0 ≡ None }
    ensures transmission { (x : _) → ⟦<TransmissionFactor as Default>⟧.is_default x → x.0 ≡ None }
    ensures thickness { (x : _) → ⟦<ThicknessFactor as Default>⟧.is_default x → x.0 ≡ None }
    ensures attenuation_distance { (x : _) → ⟦<AttenuationDistance as Default>⟧.is_default x
        → x.0 ≡ None }
    ensures attenuation_color { (x : _) → ⟦<AttenuationColor as Default>⟧.is_default x
        → x.0 ≡ None }
    ensures specular { (x : _) → ⟦<SpecularFactor as Default>⟧.is_default x → x.0 ≡ None }
    ensures specular_color { (x : _) → ⟦<SpecularColorFactor as Default>⟧.is_default x
        → x.0 ≡ None }
    ensures refraction { (x : _) → ⟦<IndexOfRefraction as Default>⟧.is_default x → x.0 ≡ None }
    ensures emissive_strength { (x : _) → ⟦<EmissiveStrengthFactor as Default>⟧.is_default x
        → x.0 ≡ None }
{}

/// Each number that stands for an absent one is that of glTF 2.0 (sections 5.21 and 5.22) or of the
/// extension. The float that is nearest to `n / d` is `round binary64 false n d`.
pub fn defaults_are_listed()
    ensures strength { StrengthFactor.DEFAULT ≡ float_one }
    ensures diffuse { PbrDiffuseFactor.DEFAULT ≡ replicate 4 float_one }
    ensures specular_color_of_glossiness { PbrSpecularFactor.DEFAULT ≡ replicate 3 float_one }
    ensures transmission { TransmissionFactor.DEFAULT ≡ float_zero }
    ensures thickness { ThicknessFactor.DEFAULT ≡ float_zero }
    ensures attenuation_color { AttenuationColor.DEFAULT ≡ replicate 3 float_one }
    ensures specular { SpecularFactor.DEFAULT ≡ float_one }
    ensures specular_color { SpecularColorFactor.DEFAULT ≡ replicate 3 float_one }
    ensures refraction { IndexOfRefraction.DEFAULT ≡ round binary64 false 3 2 }
    ensures emissive_strength { EmissiveStrengthFactor.DEFAULT ≡ float_one }
{}
