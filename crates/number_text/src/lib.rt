//! Numbers as text: decimal, and hexadecimal in lower case, without leading zeros.
#![tactic(auto)]

mod append;
mod laws;
mod read;
mod write;

pub use append::{append_byte, append_bytes};
pub use laws::{one_number, one_text, what_is_written};
pub use read::{read_decimal, read_digits, read_hexadecimal};
pub use write::{write_decimal, write_hexadecimal};
