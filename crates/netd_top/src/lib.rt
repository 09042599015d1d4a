//! The top call: reads the words of the command line, and runs what they say.
#![tactic(auto)]

mod soak;
mod top;

pub use netd_session::{Status, Stop};
pub use soak::Sums;
pub use top::run;
