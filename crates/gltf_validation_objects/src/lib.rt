//! The values of a document that a walk visits, the events of each, and whether a value is quiet:
//! whether nothing is wrong in it.
#![tactic(auto)]

mod always_valid;
mod derived;
mod event;
mod events;
mod found;
mod list_item;
mod lists;
mod look;
mod material;
mod member_name;
mod quiet;
mod references;
mod value_ref;
mod visitable;

pub use event::{Event, EventBuilder};
pub use events::Events;
pub use list_item::ListItem;
pub use lists::{
    at_attributes, channel_at, extension_at, in_attribute, in_channel, in_extension, in_positions,
    is_channel_quiet, is_name_quiet, item_at, leaf_at,
};
pub use look::Look;
pub use material::{MaterialFaults, at_material, in_material, is_material_quiet};
pub use member_name::MemberName;
pub use quiet::Quiet;
pub use references::{ReferenceState, in_one_texture, in_reference, in_two_textures};
pub use value_ref::ValueRef;
pub use visitable::Visitable;
