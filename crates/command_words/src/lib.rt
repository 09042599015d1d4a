//! The words of the command line of `netd_run`, as `clap` reads them.
#![tactic(auto)]

mod command;
mod fault;
mod form;
mod laws;
mod list;
mod matched;
mod read;
mod refused;
mod usage_text;

pub use fault::WordsFault;
pub use form::{Form, Wordless};
pub use laws::one_form;
pub use read::read_words;
pub use usage_text::usage;
