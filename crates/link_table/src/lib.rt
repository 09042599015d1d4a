//! The links of a device in the order of their addition, changed in place.
#![tactic(auto)]

mod link;
mod table;

pub use link::Link;
pub use table::LinkTable;
