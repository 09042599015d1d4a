//! The controller: it keeps the state of the policy, and brings a kernel's rules and routes to it, command by command.
#![tactic(auto)]

mod bring;
mod controller;

pub use controller::{Controller, StartFault};
pub use turn_text::Answer;
