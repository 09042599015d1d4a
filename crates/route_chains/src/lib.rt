//! Routes in the order of their addition, each in one of several chains.
#![tactic(auto)]

mod chains;
mod places;
mod search;
mod slot;
mod test;

pub use chains::RouteChains;
pub use places::{held, push_held, put};
