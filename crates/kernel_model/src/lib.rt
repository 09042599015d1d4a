//! A kernel by policy routing: the requests that it is asked, the journal of what became of them, and the rules and
//! routes that the journal leaves.
#![tactic(auto)]

mod found;
mod kernel;
mod laws;
mod next;
mod plan;
mod request;
mod step;
mod walk;

pub use found::FoundRule;
pub use kernel::{Armed, Kernel, KernelFault, ask_add, ask_delete};
pub use laws::{ends, goes_over, goes_over_and_back, link_leaves, moments_go_on, routes_leave};
pub use next::next_in;
pub use plan::Plan;
pub use request::{Entry, EntryKind, Request};
pub use step::Step;
pub use walk::{DEVICE_TABLE, OWN_RULE, given, verdict_by};
