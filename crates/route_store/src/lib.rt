//! The routes of a network, changed in place.
#![tactic(auto)]

mod key;
mod slots;
mod store;

pub use key::RouteKey;
pub use slots::Iter;
pub use store::RouteStore;
