//! Cameras (glTF 2.0, sections 5.12 to 5.14).

ghost use Rattle.std.specs.Prelude.{◌≡◌, [], ◌∷◌, codes};
ghost use Rattle.gltf_base.specs.Lists.{cameras};
ghost use Rattle.gltf_base.specs.Spelling.{by_name};
ghost use Rattle.gltf_schema.specs.Tree.{chosen};
ghost use Rattle.gltf_schema.specs.WithDefaults.{with_defaults};
ghost use Rattle.gltf_schema.specs.Fields.{real_tree, closed_object};
ghost use Rattle.gltf_scene.specs.Camera.{camera_rows, orthographic_rows, perspective_rows, camera_members, orthographic_members, perspective_members};

use crate::extensions;
pub use gltf_base::camera::{CameraType, Type, VALID_CAMERA_TYPES};
use gltf_base::validation::Checked;
use gltf_base::{Listed, Real};
use gltf_parts::extras::Extras;

mod derived;

/// A camera's projection (glTF 2.0, section 5.12).
// What takes longest to drop comes last (docs/DECISIONS.md, "Order of fields").
#[derive(Clone, Debug)]
pub struct Camera {
    /// Whether the projection is perspective or orthographic.
    pub type_: Checked<CameraType>,
    pub name: Option<String>,
    pub extensions: Option<extensions::camera::Camera>,
    pub extras: Extras,
    /// The projection of a camera of type `Orthographic`.
    pub orthographic: Option<Orthographic>,
    /// The projection of a camera of type `Perspective`.
    pub perspective: Option<Perspective>,
}

// Written by tools/derive.py: begin
impl Drop for Camera {
    #[inline(always)]
    fn drop(self) {
        let Camera {
            type_: _,
            name: _,
            extensions: _,
            extras: _,
            orthographic: _,
            perspective: _,
        } = self;
    }
}
// Written by tools/derive.py: end

impl Camera {
    /// Returns a camera with a perspective projection.
    #[tactic(auto, unfolding(crate::specs::Camera::camera_rows, crate::specs::Camera::camera_members))]
    pub fn perspective(projection: Perspective) -> Camera
        ensures { camera_members result ≡ with_defaults camera_rows (
            (codes "type", chosen (by_name (codes "perspective")))
            ∷ (codes "perspective", closed_object (perspective_members projection))
            ∷ []) }
    {
        Camera {
            type_: Checked::Valid(CameraType::Perspective),
            perspective: Some(projection),
            name: None,
            extensions: None,
            extras: None,
            orthographic: None,
        }
    }

    /// Returns a camera with an orthographic projection.
    #[tactic(auto, unfolding(crate::specs::Camera::camera_rows, crate::specs::Camera::camera_members))]
    pub fn orthographic(projection: Orthographic) -> Camera
        ensures { camera_members result ≡ with_defaults camera_rows (
            (codes "type", chosen (by_name (codes "orthographic")))
            ∷ (codes "orthographic", closed_object (orthographic_members projection))
            ∷ []) }
    {
        Camera {
            type_: Checked::Valid(CameraType::Orthographic),
            orthographic: Some(projection),
            name: None,
            extensions: None,
            extras: None,
            perspective: None,
        }
    }
}

impl Listed for Camera {
    ghost list = { cameras };
}

/// An orthographic projection (glTF 2.0, section 5.13).
#[derive(Clone, Debug, Drop)]
pub struct Orthographic {
    /// The horizontal magnification: half of the visible width, in meters.
    pub xmag: Real,
    /// The vertical magnification: half of the visible height, in meters.
    pub ymag: Real,
    /// The distance to the far clipping plane, in meters.
    pub zfar: Real,
    /// The distance to the near clipping plane, in meters.
    pub znear: Real,
    pub extensions: Option<extensions::camera::Orthographic>,
    pub extras: Extras,
}

impl Orthographic {
    /// Returns a projection with these magnifications and clipping planes.
    #[tactic(auto, unfolding(crate::specs::Camera::orthographic_rows, crate::specs::Camera::orthographic_members))]
    pub fn new(xmag: Real, ymag: Real, zfar: Real, znear: Real) -> Orthographic
        ensures { orthographic_members result ≡ with_defaults orthographic_rows (
            (codes "xmag", real_tree xmag)
            ∷ (codes "ymag", real_tree ymag)
            ∷ (codes "zfar", real_tree zfar)
            ∷ (codes "znear", real_tree znear)
            ∷ []) }
    {
        Orthographic {
            xmag,
            ymag,
            zfar,
            znear,
            extensions: None,
            extras: None,
        }
    }
}

/// A perspective projection (glTF 2.0, section 5.14).
#[derive(Clone, Debug, Drop)]
pub struct Perspective {
    /// The aspect ratio: width divided by height; if absent, that of the viewport.
    pub aspect_ratio: Option<Real>,
    /// The angle between the lowest and the highest direction that the camera sees, in radians.
    pub yfov: Real,
    /// The distance to the far clipping plane, in meters; if absent, it is infinite.
    pub zfar: Option<Real>,
    /// The distance to the near clipping plane, in meters.
    pub znear: Real,
    pub extensions: Option<extensions::camera::Perspective>,
    pub extras: Extras,
}

impl Perspective {
    /// Returns a projection with an infinite far distance.
    #[tactic(auto, unfolding(crate::specs::Camera::perspective_rows, crate::specs::Camera::perspective_members))]
    pub fn new(yfov: Real, znear: Real) -> Perspective
        ensures { perspective_members result ≡ with_defaults perspective_rows (
            (codes "yfov", real_tree yfov)
            ∷ (codes "znear", real_tree znear)
            ∷ []) }
    {
        Perspective {
            yfov,
            znear,
            aspect_ratio: None,
            zfar: None,
            extensions: None,
            extras: None,
        }
    }
}
