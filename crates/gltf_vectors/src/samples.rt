//! Documents, and what is written of them.

/// A document with its version alone, of 27 bytes: what a new one is written as.
pub const NEW: &str = r#"{"asset":{"version":"2.0"}}"#;

/// The same document in lines.
pub const NEW_IN_LINES: &str = "{\n  \"asset\": {\n    \"version\": \"2.0\"\n  }\n}";

/// A document in which the number of a choice is not listed, though its lower 32 bits are.
pub const PAST_32_BITS: &str =
    r#"{"asset":{"version":"2.0"},"buffers":[{"byteLength":4}],"bufferViews":[{"buffer":0,"byteLength":4}],"accessors":[{"bufferView":0,"count":1,"componentType":4294972416,"type":"SCALAR"}]}"#;

/// A document with a spot light that has no cone, and a node whose light is none of the list.
pub const WRONG_LIGHTS: &str =
    r#"{"asset":{"version":"2.0"},"extensions":{"KHR_lights_punctual":{"lights":[{"type":"spot"}]}},"nodes":[{"extensions":{"KHR_lights_punctual":{"light":1}}}]}"#;

/// A document with one accessor, in which what is missing is its view.
pub const FAULTY: &str =
    r#"{"accessors":[{"componentType":5126,"count":1,"type":"VEC3"}],"asset":{"version":"2.0"}}"#;

/// A document of six reports.
pub const SIX: &str =
    r#"{"asset":{"version":"2.0"},"accessors":[{"count":1,"componentType":5126,"type":"VEC3","max":[1,2]}],"meshes":[{"primitives":[{"attributes":{"FOO":9,"POSITION":0,"_x":9}}]}]}"#;

/// The lines of the six.
pub const SIX_LINES: &str =
    "accessors[0].bufferView: Missing data\nmeshes[0].primitives[0].attributes[\"_x\"]: Index out of bounds\nmeshes[0].primitives[0].attributes[\"<invalid semantic name>\"]: Invalid value\nmeshes[0].primitives[0].attributes[\"<invalid semantic name>\"]: Index out of bounds\nmeshes[0].primitives[0].attributes[\"POSITION\"].min: Missing data\nmeshes[0].primitives[0].attributes[\"POSITION\"].max: Invalid value\n";
