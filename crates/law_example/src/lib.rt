//! The two-lists law at work: a kernel of one list of rules is brought from one small table to another, and at each moment
//! each packet goes by the old table or by the new one.
#![tactic(auto)]

mod changes;
mod kernel;
mod rule;
mod tables;

pub use changes::{ChangeError, change};
pub use kernel::{Entry, Kernel};
pub use rule::{Packet, Rule, Verdict};
pub use tables::{NEW, OLD, may_change, move_over, start};
