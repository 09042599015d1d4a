//! Names of links and sockets, and the codes of refusals.
#![tactic(auto)]

mod code;
mod name;

pub use code::Code;
pub use name::Name;
