//! Laws of the crate's types. Each function does nothing; its contract is the law.

ghost use Rattle.std.specs.Prelude.{◌≡◌, None, false, replicate};
ghost use Rattle.std.specs.Float.{binary64, float_one, float_zero};
ghost use Rattle.std.specs.Float.Ieee.{round};

use crate::material::{AlphaCutoff, EmissiveFactor, NormalTexture, PbrBaseColorFactor};

/// The default of each factor is `None`.
pub fn factors_are_absent_by_default()
    ensures emissive { (x : _) → ⟦<EmissiveFactor as Default>⟧.is_default x → x.0 ≡ None }
    ensures base_color { (x : _) → ⟦<PbrBaseColorFactor as Default>⟧.is_default x → x.0 ≡ None }
{}

/// Each number that stands for an absent one is that of glTF 2.0 (sections 5.19, 5.20 and 5.22).
/// The float that is nearest to `n / d` is `round binary64 false n d`.
pub fn defaults_are_listed()
    ensures alpha_cutoff { AlphaCutoff.DEFAULT ≡ round binary64 false 1 2 }
    ensures emissive { EmissiveFactor.DEFAULT ≡ replicate 3 float_zero }
    ensures scale { NormalTexture.DEFAULT_SCALE ≡ float_one }
    ensures base_color { PbrBaseColorFactor.DEFAULT ≡ replicate 4 float_one }
{}
