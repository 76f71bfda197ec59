//! What validation hands to a sink, place by place, documents that have no report, and pushes that
//! leave them so.
#![tactic(auto)]

pub mod changes;
mod clean;
mod fault;
mod held;
mod item;
pub mod laws;
mod push;
mod refused;
mod replace;
mod report;
mod reported;
mod set;
mod top_level;
mod undo;
mod validate_root;
pub mod validation;

pub use clean::Clean;
pub use item::Item;
pub use push::CleanError;
pub use refused::Refused;
pub use report::Report;
pub use top_level::TopLevelItem;
pub use validate_root::ValidateRoot;
