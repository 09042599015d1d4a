//! Cuts the bytes of a source into lines, and takes no byte past the most that an input may have until every line before
//! it was met.
#![tactic(auto)]

mod input;

pub use input::{INPUT_LIMIT, Input, InputFault, LINE_LIMIT, Met};
