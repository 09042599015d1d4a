//! The mark of a socket: its fields, the word that holds them, and the permissions in it.
#![tactic(auto)]

mod flags;
mod mark;
mod permission;

pub use flags::MarkFlags;
pub use mark::Mark;
pub use permission::{Permission, suffices};
