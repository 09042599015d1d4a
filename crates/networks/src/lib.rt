//! The networks of a device: their kinds, their interfaces and their routes, in the order of their creation.
#![tactic(auto)]

mod kind;
mod network;
mod networks_by_id;

pub use kind::Kind;
pub use network::{LinkRoute, LinkRoutes, Links, Network};
pub use networks_by_id::{LOCAL_ID, Networks};
