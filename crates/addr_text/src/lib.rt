//! Addresses and prefixes as text: IPv4 in four octets, IPv6 in forms 1 and 2 of RFC 4291 section 2.2, written
//! as RFC 5952 section 4 recommends.
#![tactic(auto)]

mod form;
mod groups;
mod laws;
mod read;
mod row;
mod run;
mod split;
mod write;

pub use laws::{one_value, recommended_text, what_is_written};
pub use read::{read_addr, read_prefix};
pub use split::split_at_byte;
pub use write::{write_addr, write_prefix};
