//! Written by tools/derive.py from crates/gltf_scene/src/extensions/scene/khr_lights_punctual.rt
//! and crates/gltf_scene/specs/Light.antt. Do not edit.

ghost use Rattle.gltf_scene.specs.Light.{light_members, light_of_node_members, light_of_node_rows, light_rows, spot_members, spot_rows};
ghost use Rattle.gltf_scene.specs.LightDerived.{light_height, light_of_node_height, light_of_node_sound, light_sound, spot_height, spot_sound};
ghost use Rattle.gltf_schema.specs.Defaults.{defaults};
ghost use Rattle.gltf_schema.specs.Floats.{float_or, floats_or};
ghost use Rattle.gltf_schema.specs.Kind.{needs_cone};
ghost use Rattle.serde_json.specs.Data.{no_members};
ghost use Rattle.std.proofs.Common.{lit≤};
ghost use Rattle.std.specs.Prelude.{false, ◌≡◌};

use super::{KhrLightsPunctual, Light, Spot};
use gltf_base::Index;
use gltf_base::validation::Checked;
use gltf_schema::{Object, ReadRows, WriteRows};
use std::alloc::Global;

impl Object for KhrLightsPunctual {
    ghost rows = { light_of_node_rows };

    ghost keeps = { false };

    ghost members = { light_of_node_members };

    ghost unknown = { λ _. no_members };

    ghost kind_is_sound = { light_of_node_sound };

    ghost height = { 1 };

    ghost height_bounds_kind = { (light_of_node_height.1, lit≤ tt) };

    #[tactic(auto, unfolding(crate::specs::Light::light_of_node_rows, crate::specs::Light::light_of_node_members))]
    fn start(_alloc: Global) -> KhrLightsPunctual {
        KhrLightsPunctual {
            light: Index::new(0),
        }
    }

    #[tactic(auto, unfolding(crate::specs::Light::light_of_node_rows))]
    fn count_required() -> usize {
        1
    }

    fn read_rows<R: ReadRows>(&mut self, from: &mut R) {
        from.required("light", &mut self.light);
    }

    fn write_members<W: WriteRows>(&self, to: &mut W) {
        to.always("light", &self.light);
    }
}

impl Spot {
    /// Returns a cone with every member at its default.
    #[tactic(auto, unfolding(crate::specs::Light::spot_rows, crate::specs::Light::spot_members))]
    pub fn new() -> Spot
        ensures { spot_members result ≡ defaults spot_rows }
    {
        Spot {
            inner_cone_angle: None,
            outer_cone_angle: None,
        }
    }
}

impl Object for Spot {
    ghost rows = { spot_rows };

    ghost keeps = { false };

    ghost members = { spot_members };

    ghost unknown = { λ _. no_members };

    ghost kind_is_sound = { spot_sound };

    ghost height = { 0 };

    ghost height_bounds_kind = { (spot_height.1, lit≤ tt) };

    #[tactic(auto, unfolding(crate::specs::Light::spot_rows, crate::specs::Light::spot_members))]
    fn start(_alloc: Global) -> Spot {
        Spot::new()
    }

    #[tactic(auto, unfolding(crate::specs::Light::spot_rows))]
    fn count_required() -> usize {
        0
    }

    fn read_rows<R: ReadRows>(&mut self, from: &mut R) {
        from.sometimes("innerConeAngle", &mut self.inner_cone_angle);
        from.sometimes("outerConeAngle", &mut self.outer_cone_angle);
    }

    fn write_members<W: WriteRows>(&self, to: &mut W) {
        to.optional("innerConeAngle", &self.inner_cone_angle);
        to.optional("outerConeAngle", &self.outer_cone_angle);
    }
}

impl Spot {
    /// The number as a float, or [`Spot::DEFAULT_INNER_CONE_ANGLE`] if it is absent.
    pub fn inner_cone_angle_value(&self) -> f64
        ensures { result ≡ float_or Self.DEFAULT_INNER_CONE_ANGLE self.now.inner_cone_angle }
    {
        match &self.inner_cone_angle {
            Some(number) => number.as_f64(),
            None => Spot::DEFAULT_INNER_CONE_ANGLE,
        }
    }

    /// The number as a float, or [`Spot::DEFAULT_OUTER_CONE_ANGLE`] if it is absent.
    pub fn outer_cone_angle_value(&self) -> f64
        ensures { result ≡ float_or Self.DEFAULT_OUTER_CONE_ANGLE self.now.outer_cone_angle }
    {
        match &self.outer_cone_angle {
            Some(number) => number.as_f64(),
            None => Spot::DEFAULT_OUTER_CONE_ANGLE,
        }
    }
}

impl Object for Light {
    ghost rule = { needs_cone };

    ghost rows = { light_rows };

    ghost keeps = { false };

    ghost members = { light_members };

    ghost unknown = { λ _. no_members };

    ghost kind_is_sound = { light_sound };

    ghost height = { 1 };

    ghost height_bounds_kind = { (light_height.1, lit≤ tt) };

    #[tactic(auto, unfolding(crate::specs::Light::light_rows, crate::specs::Light::light_members))]
    fn start(_alloc: Global) -> Light {
        Light {
            color: None,
            extensions: None,
            extras: None,
            intensity: None,
            name: None,
            range: None,
            spot: None,
            type_: Checked::Invalid,
        }
    }

    #[tactic(auto, unfolding(crate::specs::Light::light_rows))]
    fn count_required() -> usize {
        1
    }

    fn read_rows<R: ReadRows>(&mut self, from: &mut R) {
        from.sometimes("color", &mut self.color);
        from.optional("extensions", &mut self.extensions);
        from.optional("extras", &mut self.extras);
        from.sometimes("intensity", &mut self.intensity);
        from.optional("name", &mut self.name);
        from.optional("range", &mut self.range);
        from.optional("spot", &mut self.spot);
        from.required("type", &mut self.type_);
    }

    fn write_members<W: WriteRows>(&self, to: &mut W) {
        to.optional("color", &self.color);
        to.optional("extensions", &self.extensions);
        to.optional("extras", &self.extras);
        to.optional("intensity", &self.intensity);
        to.optional("name", &self.name);
        to.optional("range", &self.range);
        to.optional("spot", &self.spot);
        to.always("type", &self.type_);
    }
}

impl Light {
    /// The numbers as floats, or [`Light::DEFAULT_COLOR`] if they are absent.
    pub fn color_values(&self) -> [f64; 3]
        ensures { result ≡ floats_or Self.DEFAULT_COLOR self.now.color }
    {
        match &self.color {
            Some([r, g, b]) => [r.as_f64(), g.as_f64(), b.as_f64()],
            None => Light::DEFAULT_COLOR,
        }
    }

    /// The number as a float, or [`Light::DEFAULT_INTENSITY`] if it is absent.
    pub fn intensity_value(&self) -> f64
        ensures { result ≡ float_or Self.DEFAULT_INTENSITY self.now.intensity }
    {
        match &self.intensity {
            Some(number) => number.as_f64(),
            None => Light::DEFAULT_INTENSITY,
        }
    }
}
