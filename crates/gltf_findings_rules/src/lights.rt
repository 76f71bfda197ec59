//! Lights (`KHR_lights_punctual`).

ghost use Rattle.std.specs.Prelude.{◌≡◌, ◌++◌, Option, OnOk};
ghost use Rattle.gltf_findings_codes.specs.Found.{found, findings_if};
ghost use Rattle.gltf_findings_codes.specs.Ranges.{numbers_findings};
ghost use Rattle.gltf_findings_rules.specs.Lights.{light_findings, light_rules, spot_rules, is_spot, is_directional, is_no_spot, are_spot_angles};
ghost use Rattle.gltf_schema.specs.Floats.{float_or};

use gltf_base::Real;
use gltf_base::extensions::scene::khr_lights_punctual::LightType;
use gltf_base::validation::Checked;
use gltf_findings_codes::{
    Code, Finding, Name, Numbers, Object, Range, Rules, Subject, add_found, add_some, broken,
    is_invalid,
};
use gltf_scene::extensions::scene::khr_lights_punctual::{Light, Spot};
use std::alloc::AllocError;
use std::f64::consts::FRAC_PI_4;

/// The rules for lights.
#[derive(Clone, Copy)]
pub struct LightRules;

impl Rules<Light> for LightRules {
    ghost findings = { λ s n light. light_findings n light };

    #[tactic(auto, using(std::proofs::lemmas::List::append_assoc))]
    fn add(&self, number: usize, item: &Light, to: &mut Vec<Finding>) -> Result<(), AllocError> {
        let color = Numbers {
            object: Object::Light(number),
            name: Name::Color,
            range: Range::Factor,
        };
        add_found(to, &light_rules(number, item))?;
        color.add_to(to, &item.color)?;
        add_some(to, self, number, &item.spot)
    }
}

/// The rules for a light by itself.
fn light_rules(number: usize, light: &Light) -> [Option<Finding>; 6]
    ensures { result ≡ light_rules number light.now }
{
    // derived
    let at = Object::Light(number);
    let spot_at = Subject::Member(at, Name::Spot);
    [
        broken(
            is_invalid(&light.type_),
            Code::ValueNotInList,
            Subject::Member(at, Name::Type),
        ),
        Range::NotNegative.rule(at, Name::Intensity, &light.intensity),
        Range::Positive.rule(at, Name::Range, &light.range),
        broken(
            is_spot(light.type_) && light.spot.is_none(),
            Code::UndefinedProperty,
            spot_at,
        ),
        broken(
            is_no_spot(light.type_) && light.spot.is_some(),
            Code::ExtraProperty,
            spot_at,
        ),
        broken(
            is_directional(light.type_) && light.range.is_some(),
            Code::ExtraProperty,
            Subject::Member(at, Name::Range),
        ),
    ]
}

/// Whether a light is a spot light.
fn is_spot(type_: Checked<LightType>) -> bool
    ensures { result ≡ is_spot type_ }
{
    // derived
    match type_ {
        Checked::Valid(LightType::Spot) => true,
        _ => false,
    }
}

/// Whether a light is a directional light.
fn is_directional(type_: Checked<LightType>) -> bool
    ensures { result ≡ is_directional type_ }
{
    // derived
    match type_ {
        Checked::Valid(LightType::Directional) => true,
        _ => false,
    }
}

/// Whether a light is a directional light or a point light.
fn is_no_spot(type_: Checked<LightType>) -> bool
    ensures { result ≡ is_no_spot type_ }
{
    // derived
    match type_ {
        Checked::Valid(LightType::Directional | LightType::Point) => true,
        _ => false,
    }
}

impl Rules<Spot> for LightRules {
    ghost findings = { λ s n spot. found (spot_rules n spot) };

    fn add(&self, number: usize, item: &Spot, to: &mut Vec<Finding>) -> Result<(), AllocError> {
        add_found(to, &spot_rules(number, item))
    }
}

/// The rules for the cone of a light.
fn spot_rules(number: usize, spot: &Spot) -> [Option<Finding>; 3]
    ensures { result ≡ spot_rules number spot.now }
{
    // derived
    let at = Object::Spot(number);
    [
        Range::InnerAngle.rule(at, Name::InnerConeAngle, &spot.inner_cone_angle),
        Range::OuterAngle.rule(at, Name::OuterConeAngle, &spot.outer_cone_angle),
        broken(
            !are_spot_angles(spot),
            Code::KhrLightsPunctualLightSpotAngles,
            Subject::Object(at),
        ),
    ]
}

/// Whether the outer angle of a cone is greater than the inner one.
fn are_spot_angles(spot: &Spot) -> bool
    ensures { result ≡ are_spot_angles spot.now }
{
    // derived
    angle_or(&spot.inner_cone_angle, 0.0) < angle_or(&spot.outer_cone_angle, FRAC_PI_4)
}

/// An angle, or another if it is absent.
fn angle_or(angle: &Option<Real>, otherwise: f64) -> f64
    ensures { result ≡ float_or otherwise angle.now }
{
    match angle {
        Some(angle) => angle.as_f64(),
        None => otherwise,
    }
}
