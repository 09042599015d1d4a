//! A script made from a seed: the same lines for the same seed, all of them lines of the program's language.
#![tactic(auto)]

mod draws;
mod line;
mod script;
mod words;

pub use script::make_script;
