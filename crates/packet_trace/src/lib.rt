//! Follows a packet through a kernel's rules, and watches a packet while a kernel changes.
#![tactic(auto)]

mod trail;
mod watched;

pub use kernel_model::Step;
pub use trail::{Trail, follow};
pub use watched::Watched;
