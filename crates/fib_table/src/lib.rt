//! A table of routes, as a list.
#![tactic(auto)]

mod table;

pub use table::Table;
