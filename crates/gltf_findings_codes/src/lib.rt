//! Codes, findings and the places that they are about, and what rules for several objects share.
#![tactic(auto)]

mod attribute;
mod code;
mod collect;
mod finding;
mod formats;
pub mod laws;
mod marks;
mod name;
mod range;
mod repeats;
mod rules;

pub use attribute::Attribute;
pub use code::{Code, Severity};
pub use collect::{Rules, add_all, add_found, add_some, broken};
pub use finding::{Finding, Object, Subject};
pub use formats::{
    AllowedFormat, accessor_of, has_bounds, is_accessor_strided, is_strided, offset_number,
};
pub use marks::{is_marked, mark, mark_all, mark_some};
pub use name::Name;
pub use range::{Numbers, Range};
pub use repeats::add_repeats;
pub use rules::{
    References, is_empty_list, is_invalid, is_some_invalid, is_some_unresolved, is_unresolved,
};
