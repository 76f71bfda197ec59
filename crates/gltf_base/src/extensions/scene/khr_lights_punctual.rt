//! The choices of punctual lights (`KHR_lights_punctual`).

ghost use Rattle.std.specs.Prelude.{◌≡◌, map};
ghost use Rattle.gltf_base.specs.Spelling.{by_name};
ghost use Rattle.gltf_base.specs.SceneChoices.{light_type_spelling, light_types};

mod derived;

pub use LightType as Type;
pub use derived::VALID_TYPES;

/// The type of a punctual light (`KHR_lights_punctual`).
#[derive(Clone, Copy, Debug, PartialEq, Eq, Hash)]
pub enum LightType {
    /// A directional light, infinitely far away.
    Directional = 1,
    /// A point light, which emits in all directions.
    Point,
    /// A spot light, which emits in a cone.
    Spot,
}

/// The constants of this module are those by which the choices are spelled.
pub fn constants_are_listed()
    ensures { map (λ name. by_name name.now) VALID_TYPES.now ≡ map light_type_spelling light_types }
{}
