//! The choices of cameras.

ghost use Rattle.std.specs.Prelude.{◌≡◌, map};
ghost use Rattle.gltf_base.specs.Spelling.{by_name};
ghost use Rattle.gltf_base.specs.SceneChoices.{camera_type_spelling, camera_types};

mod derived;

pub use CameraType as Type;
pub use derived::VALID_CAMERA_TYPES;

/// The type of a camera's projection (glTF 2.0, section 5.12.3).
#[derive(Clone, Copy, Debug, PartialEq, Eq)]
pub enum CameraType {
    /// A perspective projection.
    Perspective = 1,
    /// An orthographic projection.
    Orthographic,
}

/// The constants of this module are those by which the choices are spelled.
pub fn constants_are_listed()
    ensures { map (λ name. by_name name.now) VALID_CAMERA_TYPES.now
        ≡ map camera_type_spelling camera_types }
{}
