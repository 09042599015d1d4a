//! What the policy is asked to change.
#![tactic(auto)]

mod command;
mod ranges;

pub use command::{Command, Way};
pub use ranges::Ranges;
