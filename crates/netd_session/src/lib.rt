//! A session: reads lines from a source, answers each before it reads the next, and offers each answer to a sink. And a check, which
//! reads lines in the same way and offers their canonical text.
#![tactic(auto)]

mod answer;
mod command;
mod end;
mod line;
mod output;
mod printing;
mod question;
mod script;
mod sockets;
mod trace;
mod turn;
mod watch;

pub use end::{Ended, Status, Stop};
pub use output::offer;
pub use printing::check;
pub use script::session;
pub use turn::{Said, Turn};
pub use watch::Watch;
