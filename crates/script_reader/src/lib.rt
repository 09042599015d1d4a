//! The lines of a script, by one list of their forms: which texts spell them, how a text is read, and where a bad one goes wrong.
#![tactic(auto)]

mod fault;
mod find;
mod form;
mod laws;
mod line;
mod print;
mod read;
mod say;
mod words;

pub use fault::LineFault;
pub use laws::{canonical_text, one_column, one_line};
pub use line::{Line, ShowLine, SocketLine, TraceLine};
pub use print::print_line;
pub use read::read_line;
