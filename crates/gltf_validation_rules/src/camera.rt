//! Cameras without a projection.

ghost use Rattle.std.specs.Prelude.{◌≡◌, List};
ghost use Rattle.gltf_base.specs.Steps.{Step};
ghost use Rattle.gltf_scene.specs.Camera.{camera_members};
ghost use Rattle.gltf_validation_rules.specs.Report.{found_at};
ghost use Rattle.gltf_validation_rules.specs.Rules.{camera_rule};

use gltf_base::validation::Error;
use gltf_scene::camera::Camera;

/// What is wrong with a camera's projection: `Missing`, for the camera itself, where it has
/// neither, whatever its type.
#[tactic(auto, unfolding(gltf_scene::specs::Camera::camera_rows, gltf_scene::specs::Camera::camera_members))]
pub fn projection_fault(camera: &Camera) -> Option<Error>
    ensures { (base : List Step)
        → found_at result base ≡ camera_rule (camera_members camera.now) base }
{
    match (&camera.orthographic, &camera.perspective) {
        (None, None) => Some(Error::Missing),
        _ => None,
    }
}
