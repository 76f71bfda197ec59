//! What holds of the objects, as contracts of functions that do nothing.

ghost use Rattle.std.specs.Prelude.{◌≡◌, [], ◌∷◌, ◌++◌, replicate};
ghost use Rattle.std.specs.Float.{float_one, float_zero};
ghost use Rattle.gltf_scene.specs.Light.{quarter_of_pi};
ghost use Rattle.gltf_scene.specs.Scene.{unit_quaternion_tree, no_rotation};

use crate::extensions::scene::khr_lights_punctual::{Light, Spot};
use crate::scene::{Node, UnitQuaternion};

/// The default quaternion is the identity rotation.
pub fn quaternions_turn_nothing_by_default()
    ensures { (q : _) → ⟦<UnitQuaternion as Default>⟧.is_default q
        → unit_quaternion_tree q ≡ no_rotation }
{}

/// Each number that stands for an absent one is that of glTF 2.0 (section 5.25) or of
/// `KHR_lights_punctual`.
pub fn defaults_are_listed()
    ensures translation { Node.DEFAULT_TRANSLATION ≡ replicate 3 float_zero }
    ensures rotation { Node.DEFAULT_ROTATION ≡ replicate 3 float_zero ++ float_one ∷ [] }
    ensures scale { Node.DEFAULT_SCALE ≡ replicate 3 float_one }
    ensures intensity { Light.DEFAULT_INTENSITY ≡ float_one }
    ensures color { Light.DEFAULT_COLOR ≡ replicate 3 float_one }
    ensures inner_cone_angle { Spot.DEFAULT_INNER_CONE_ANGLE ≡ float_zero }
    ensures outer_cone_angle { Spot.DEFAULT_OUTER_CONE_ANGLE ≡ quarter_of_pi }
{}
