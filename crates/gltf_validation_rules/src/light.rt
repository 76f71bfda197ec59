//! Spot lights without a cone.

ghost use Rattle.std.specs.Prelude.{◌≡◌, List, ◌∷◌, [], ◌++◌, codes};
ghost use Rattle.gltf_base.specs.Steps.{Step, field};
ghost use Rattle.gltf_scene.specs.Light.{light_members};
ghost use Rattle.gltf_validation_rules.specs.Report.{found_at};
ghost use Rattle.gltf_validation_rules.specs.Rules.{light_rule};

use gltf_base::extensions::scene::khr_lights_punctual::LightType;
use gltf_base::validation::{Checked, Error};
use gltf_scene::extensions::scene::khr_lights_punctual::Light;

/// What is wrong with a light's cone: `Missing`, for `spot`, if the type is a spot light and there
/// is no cone.
#[tactic(auto, unfolding(gltf_scene::specs::Light::light_rows, gltf_scene::specs::Light::light_members))]
pub fn spot_fault(light: &Light) -> Option<Error>
    ensures { (base : List Step) → found_at result (base ++ field (codes "spot") ∷ [])
        ≡ light_rule (light_members light.now) base }
{
    match (light.type_, &light.spot) {
        (Checked::Valid(LightType::Spot), None) => Some(Error::Missing),
        _ => None,
    }
}
