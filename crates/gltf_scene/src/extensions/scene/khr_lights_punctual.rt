//! Punctual lights: directional lights, point lights and spot lights (`KHR_lights_punctual`).

ghost use Rattle.std.specs.Prelude.{◌≡◌, [], ◌∷◌, codes};
ghost use Rattle.gltf_base.specs.Lists.{lights};
ghost use Rattle.gltf_base.specs.SceneChoices.{light_type_spelling};
ghost use Rattle.gltf_schema.specs.Tree.{chosen};
ghost use Rattle.gltf_schema.specs.WithDefaults.{with_defaults};
ghost use Rattle.gltf_schema.specs.Fields.{index_tree};
ghost use Rattle.gltf_scene.specs.Light.{light_of_node_rows, light_rows, light_of_node_members, light_members};

pub use gltf_base::extensions::scene::khr_lights_punctual::{LightType, Type, VALID_TYPES};
use gltf_base::validation::Checked;
use gltf_base::{Index, Listed, Real};
use gltf_parts::extras::Extras;
use serde_json::Value;
use std::f64::consts::FRAC_PI_4;

mod derived;

/// The light of a node. It is at the node's origin; a directional or a spot light shines along the
/// node's local -z axis.
#[derive(Clone, Debug, Drop)]
pub struct KhrLightsPunctual {
    pub light: Index<Light>,
}

impl KhrLightsPunctual {
    /// Returns a reference to a light of the document.
    #[tactic(auto, unfolding(crate::specs::Light::light_of_node_rows, crate::specs::Light::light_of_node_members))]
    pub fn new(light: Index<Light>) -> KhrLightsPunctual
        ensures { light_of_node_members result ≡ with_defaults light_of_node_rows (
            (codes "light", index_tree light)
            ∷ []) }
    {
        KhrLightsPunctual { light }
    }
}

/// A punctual light.
// What takes longest to drop comes last (docs/DECISIONS.md, "Order of fields").
#[derive(Clone, Debug)]
pub struct Light {
    /// Whether it is a directional light, a point light or a spot light.
    pub type_: Checked<LightType>,
    pub name: Option<String>,
    /// The intensity, in candela, or in lux if it is directional; `None` means 1.
    pub intensity: Option<Real>,
    /// The distance at which the intensity reaches zero, in meters; if absent, it is infinite.
    pub range: Option<Real>,
    /// The color: red, green, blue; `None` means ones.
    pub color: Option<[Real; 3]>,
    /// The extensions, as a JSON value.
    pub extensions: Option<Value>,
    pub extras: Extras,
    /// The cone of a spot light.
    pub spot: Option<Spot>,
}

// Written by tools/derive.py: begin
impl Drop for Light {
    #[inline(always)]
    fn drop(self) {
        let Light {
            type_: _,
            name: _,
            intensity: _,
            range: _,
            color: _,
            extensions: _,
            extras: _,
            spot: _,
        } = self;
    }
}
// Written by tools/derive.py: end

impl Light {
    /// Returns a white light. A spot light also needs its `spot`.
    #[tactic(auto, unfolding(crate::specs::Light::light_rows, crate::specs::Light::light_members))]
    pub fn new(type_: LightType) -> Light
        ensures { light_members result ≡ with_defaults light_rows (
            (codes "type", chosen (light_type_spelling type_))
            ∷ []) }
    {
        Light {
            type_: Checked::Valid(type_),
            name: None,
            intensity: None,
            range: None,
            color: None,
            extensions: None,
            extras: None,
            spot: None,
        }
    }

    /// The number that an absent `intensity` means.
    pub const DEFAULT_INTENSITY: f64 = 1.0;

    /// The numbers that an absent `color` means.
    pub const DEFAULT_COLOR: [f64; 3] = [1.0; 3];
}

impl Listed for Light {
    ghost list = { lights };
}

/// The cone of a spot light.
#[derive(Clone, Debug, Drop)]
pub struct Spot {
    /// The angle from the axis at which the falloff begins, in radians; `None` means 0.
    pub inner_cone_angle: Option<Real>,
    /// The angle from the axis at which the falloff ends, in radians; `None` means a quarter of pi.
    pub outer_cone_angle: Option<Real>,
}

impl Spot {
    /// The number that an absent `inner_cone_angle` means.
    pub const DEFAULT_INNER_CONE_ANGLE: f64 = 0.0;

    /// The number that an absent `outer_cone_angle` means: a quarter of pi.
    pub const DEFAULT_OUTER_CONE_ANGLE: f64 = FRAC_PI_4;
}
