//! A list of numbers, cut into runs, so that a number that comes or goes moves few of the others.
#![tactic(auto)]

mod edit;
mod find;
mod rest;
mod room;
mod runs;
mod test;

pub use rest::Rest;
pub use runs::Runs;
pub use test::Test;
