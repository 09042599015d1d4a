//! Tests of a plan and a watch over a kernel by lists, and of what a search in a trie reads.
#![tactic(auto)]

#[cfg(test)]
mod tests;
#[cfg(test)]
mod tries;
