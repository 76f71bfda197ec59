//! Where the elements of an accessor lie in a buffer (glTF 2.0, section 3.6.2.4). It knows no
//! document: an accessor, a view and a buffer are the numbers that they give.
#![tactic(auto)]

mod fault;
mod faults;
pub mod laws;
mod layout;
mod misfit;
mod place;
mod size;
mod span;
mod storage;
mod view;

pub use fault::{AccessorFault, LayoutError, PlaceFault, SparseFault, StorageFault, ViewFault};
pub use faults::LayoutFaults;
pub use layout::Layout;
pub use misfit::Misfit;
pub use place::{Location, Place, SparsePlace};
pub use size::element_size;
pub use span::{AccessorLayout, Span};
pub use storage::{SparsePart, Storage, StoredAccessor, StoredSparse, StoredView};
pub use view::ViewLayout;
