//! What is printed of verdicts, trails, rules, routes, networks and sockets.
#![tactic(auto)]

mod link;
mod network;
mod rule;
mod rules;
mod socket;
mod table;
mod trail;
mod verdict;

pub use network::write_networks;
pub use rule::write_rule;
pub use rules::write_rules;
pub use socket::write_sockets;
pub use table::{write_route, write_table};
pub use trail::write_trail;
pub use verdict::write_verdict;
