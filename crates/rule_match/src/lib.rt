//! Packets, rules and verdicts: which rules match a packet.
#![tactic(auto)]

mod packet;
mod rule;
mod same;
mod verdict;

pub use packet::{LOOPBACK, Packet};
pub use rule::{Action, Rule};
pub use same::{same_action, same_rule, same_selectors, same_verdict};
pub use verdict::Verdict;
