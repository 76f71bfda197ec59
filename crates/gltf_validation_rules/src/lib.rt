//! What is wrong in a glTF 2.0 document, what follows where nothing is, what is wrong with an object
//! by itself, and what takes the reports of a walk over a document.
#![tactic(auto)]

mod accessor;
mod by;
mod camera;
mod collect;
mod context;
mod found;
mod indexes;
pub mod laws;
mod leaves;
mod light;
mod primitive;
mod required;
mod rules;
mod sink;
pub mod sink_laws;

pub use accessor::data_fault;
pub use by::{By, Take};
pub use camera::projection_fault;
pub use collect::Collect;
pub use context::{Context, HasContext};
pub use found::tell;
pub use indexes::{index_fault, sampler_fault, source_fault};
pub use leaves::{choice_fault, stride_fault};
pub use light::spot_fault;
pub use primitive::{PositionFaults, position_faults};
pub use required::extension_fault;
pub use rules::{ENABLED_WITH_EMPTY_TEXTURES, Rules, constant_is_listed};
pub use sink::{Count, NoRefusal, Sink, Stop};
