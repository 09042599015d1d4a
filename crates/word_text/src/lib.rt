//! The words of lines: which texts spell a value of each kind, how a word is read and how it is written.
#![tactic(auto)]

mod kind;
mod laws;
mod ranges;
mod read;
mod values;
mod write;

pub use kind::Kind;
pub use laws::{one_value, what_is_written};
pub use ranges::{are_ranges, read_ranges};
pub use read::{
    read_address, read_destination, read_index, read_mark, read_name, read_net, read_permission,
    read_range, read_rank, read_table, read_uid,
};
pub use values::Values;
pub use write::{
    write_mark, write_name, write_number, write_permission, write_range, write_ranges, write_uid,
    write_value,
};
