//! The sockets of a device, whose marks say by which network they go, and which networks their users may use.
#![tactic(auto)]

mod fault;
mod laws;
mod marks;
mod socket;
mod table;
mod user_access;
mod user_networks;
mod users;

pub use fault::SocketFault;
pub use laws::words_have_their_fields;
pub use socket::Socket;
pub use table::{MOST_SOCKETS, SocketTable};
pub use user_access::access;
pub use user_networks::app_net;
pub use users::{may_protect, user_permission};
