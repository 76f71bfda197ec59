//! Laws of the crate's types. Each function does nothing; its contract is the law.

ghost use Rattle.std.specs.Prelude.{◌≡◌, None, replicate};
ghost use Rattle.std.specs.Float.{float_one, float_zero};

use crate::extensions::texture::{
    TextureTransformOffset, TextureTransformRotation, TextureTransformScale,
};

/// The default of each factor is `None`.
pub fn factors_are_absent_by_default()
    ensures offset { (x : _) → ⟦<TextureTransformOffset as Default>⟧.is_default x → x.0 ≡ None }
    ensures rotation { (x : _) → ⟦<TextureTransformRotation as Default>⟧.is_default x → x.0 ≡ None }
    ensures scale { (x : _) → ⟦<TextureTransformScale as Default>⟧.is_default x → x.0 ≡ None }
{}

/// Each number that stands for an absent one is that of `KHR_texture_transform`.
pub fn defaults_are_listed()
    ensures offset { TextureTransformOffset.DEFAULT ≡ replicate 2 float_zero }
    ensures rotation { TextureTransformRotation.DEFAULT ≡ float_zero }
    ensures scale { TextureTransformScale.DEFAULT ≡ replicate 2 float_one }
{}
