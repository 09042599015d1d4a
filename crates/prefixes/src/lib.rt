//! Addresses, prefixes and routes, and the best route of a list.
#![tactic(auto)]

mod addr;
mod best;
mod prefix;
mod route;
mod same;

pub use addr::{Addr, Family};
pub use best::{best_laws, best_route, longer_of};
pub use prefix::Prefix;
pub use route::{Answer, Out, Route};
pub use same::{
    same_addr, same_family, same_gateway, same_key, same_link, same_out, same_prefix, same_route,
};
