//! The best route of a trie of routes, found with a count of the nodes that are read.
#![tactic(auto)]

mod lookup;
mod node;

pub use lookup::{bit_at, lookup_counted, root_of};
pub use node::{NodeView, Nodes};
