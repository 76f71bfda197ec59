//! What is wrong with the container of a binary glTF file, `.glb` (glTF 2.0, section 4.4), as
//! findings, and the rules for the URIs of buffers and images and for the BIN chunk that a buffer
//! may be (sections 2.8, 3.6.1 and 4.4.3.3). Codes and severities are those of the Khronos
//! glTF-Validator.
#![tactic(auto)]

mod chunk;
mod container;
mod finding;
mod findings;
mod objects;
mod rules;
mod uri;

pub use container::Container;
pub use finding::GlbFinding;
pub use findings::GlbFindings;
pub use gltf_findings_codes::{Code, Severity};
pub use objects::{BufferUriRules, ImageUriRules};
