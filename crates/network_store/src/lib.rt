//! The networks of a device, changed in place.
#![tactic(auto)]

mod network;
mod ranges;
mod rank_index;
mod store;

pub use network::{MOST_INTERFACES, StoredKind, StoredNetwork};
pub use ranges::StoredRanges;
pub use store::StoredNetworks;
