//! A table of routes, as a trie.
#![tactic(auto)]

mod branch;
mod common;
mod place;
mod prune;
mod reader;
mod roots;
mod table;

pub use reader::NodeReader;
pub use table::TrieTable;
