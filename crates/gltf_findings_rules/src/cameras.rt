//! Cameras (glTF 2.0, sections 5.12 to 5.14).

ghost use Rattle.std.specs.Prelude.{◌≡◌, ◌++◌, Option, OnOk};
ghost use Rattle.gltf_findings_codes.specs.Found.{found, findings_if};
ghost use Rattle.gltf_findings_rules.specs.Cameras.{camera_findings, camera_rules, perspective_rules, orthographic_rules, is_orthographic, is_perspective, is_zero, is_negative, is_half_turn, is_not_behind, is_some_not_behind};

use gltf_base::Real;
use gltf_base::camera::CameraType;
use gltf_base::validation::Checked;
use gltf_findings_codes::{
    Code, Finding, Name, Object, Range, Rules, Subject, add_found, add_some, broken, is_invalid,
};
use gltf_scene::camera::{Camera, Orthographic, Perspective};
use std::alloc::AllocError;
use std::f64::consts::PI;

/// The rules for cameras.
#[derive(Clone, Copy)]
pub struct CameraRules;

impl Rules<Camera> for CameraRules {
    ghost findings = { λ s n camera. camera_findings n camera };

    #[tactic(auto, using(std::proofs::lemmas::List::append_assoc))]
    fn add(&self, number: usize, item: &Camera, to: &mut Vec<Finding>) -> Result<(), AllocError> {
        add_found(to, &camera_rules(number, item))?;
        add_some(to, self, number, &item.orthographic)?;
        add_some(to, self, number, &item.perspective)
    }
}

/// The rules for a camera by itself.
fn camera_rules(number: usize, camera: &Camera) -> [Option<Finding>; 4]
    ensures { result ≡ camera_rules number camera.now }
{
    // derived
    let at = Object::Item(Name::Cameras, number);
    let has_orthographic = camera.orthographic.is_some();
    let has_perspective = camera.perspective.is_some();
    [
        broken(
            is_invalid(&camera.type_),
            Code::ValueNotInList,
            Subject::Member(at, Name::Type),
        ),
        broken(
            has_orthographic && has_perspective,
            Code::OneOfMismatch,
            Subject::Object(at),
        ),
        broken(
            is_orthographic(camera.type_) && !has_orthographic,
            Code::UndefinedProperty,
            Subject::Member(at, Name::Orthographic),
        ),
        broken(
            is_perspective(camera.type_) && !has_perspective,
            Code::UndefinedProperty,
            Subject::Member(at, Name::Perspective),
        ),
    ]
}

/// Whether a camera is orthographic.
fn is_orthographic(type_: Checked<CameraType>) -> bool
    ensures { result ≡ is_orthographic type_ }
{
    // derived
    match type_ {
        Checked::Valid(CameraType::Orthographic) => true,
        _ => false,
    }
}

/// Whether a camera is perspective.
fn is_perspective(type_: Checked<CameraType>) -> bool
    ensures { result ≡ is_perspective type_ }
{
    // derived
    match type_ {
        Checked::Valid(CameraType::Perspective) => true,
        _ => false,
    }
}

impl Rules<Perspective> for CameraRules {
    ghost findings = { λ s n x. found (perspective_rules n x) };

    fn add(
        &self,
        number: usize,
        item: &Perspective,
        to: &mut Vec<Finding>,
    ) -> Result<(), AllocError> {
        add_found(to, &perspective_rules(number, item))
    }
}

/// The rules for a perspective projection.
fn perspective_rules(number: usize, projection: &Perspective) -> [Option<Finding>; 6]
    ensures { result ≡ perspective_rules number projection.now }
{
    // derived
    let at = Object::Part(Name::Cameras, number, Name::Perspective);
    let yfov_at = Subject::Member(at, Name::Yfov);
    [
        broken(
            Range::Positive.excludes(&projection.yfov),
            Code::ValueNotInRange,
            yfov_at,
        ),
        broken(
            is_half_turn(&projection.yfov),
            Code::CameraYfovGequalPi,
            yfov_at,
        ),
        Range::Positive.rule(at, Name::AspectRatio, &projection.aspect_ratio),
        broken(
            Range::Positive.excludes(&projection.znear),
            Code::ValueNotInRange,
            Subject::Member(at, Name::Znear),
        ),
        Range::Positive.rule(at, Name::Zfar, &projection.zfar),
        broken(
            is_some_not_behind(&projection.zfar, &projection.znear),
            Code::CameraZfarLequalZnear,
            Subject::Object(at),
        ),
    ]
}

impl Rules<Orthographic> for CameraRules {
    ghost findings = { λ s n x. found (orthographic_rules n x) };

    fn add(
        &self,
        number: usize,
        item: &Orthographic,
        to: &mut Vec<Finding>,
    ) -> Result<(), AllocError> {
        add_found(to, &orthographic_rules(number, item))
    }
}

/// The rules for an orthographic projection.
fn orthographic_rules(number: usize, projection: &Orthographic) -> [Option<Finding>; 7]
    ensures { result ≡ orthographic_rules number projection.now }
{
    // derived
    let at = Object::Part(Name::Cameras, number, Name::Orthographic);
    let xmag_at = Subject::Member(at, Name::Xmag);
    let ymag_at = Subject::Member(at, Name::Ymag);
    [
        broken(is_zero(&projection.xmag), Code::CameraXmagYmagZero, xmag_at),
        broken(
            is_negative(&projection.xmag),
            Code::CameraXmagYmagNegative,
            xmag_at,
        ),
        broken(is_zero(&projection.ymag), Code::CameraXmagYmagZero, ymag_at),
        broken(
            is_negative(&projection.ymag),
            Code::CameraXmagYmagNegative,
            ymag_at,
        ),
        broken(
            Range::NotNegative.excludes(&projection.znear),
            Code::ValueNotInRange,
            Subject::Member(at, Name::Znear),
        ),
        broken(
            Range::Positive.excludes(&projection.zfar),
            Code::ValueNotInRange,
            Subject::Member(at, Name::Zfar),
        ),
        broken(
            is_not_behind(&projection.zfar, &projection.znear),
            Code::CameraZfarLequalZnear,
            Subject::Object(at),
        ),
    ]
}

/// Whether a number is 0.
pub fn is_zero(number: &Real) -> bool
    ensures { result ≡ is_zero number.now }
{
    // derived
    number.as_f64() == 0.0
}

/// Whether a number is below 0.
fn is_negative(number: &Real) -> bool
    ensures { result ≡ is_negative number.now }
{
    // derived
    number.as_f64() < 0.0
}

/// Whether an angle is at least a half turn.
fn is_half_turn(angle: &Real) -> bool
    ensures { result ≡ is_half_turn angle.now }
{
    // derived
    PI <= angle.as_f64()
}

/// Whether a far plane is not behind a near one.
fn is_not_behind(far: &Real, near: &Real) -> bool
    ensures { result ≡ is_not_behind far.now near.now }
{
    // derived
    far.as_f64() <= near.as_f64()
}

/// The same for a far plane that may be absent.
fn is_some_not_behind(far: &Option<Real>, near: &Real) -> bool
    ensures { result ≡ is_some_not_behind far.now near.now }
{
    // derived
    match far {
        Some(far) => is_not_behind(far, near),
        None => false,
    }
}
