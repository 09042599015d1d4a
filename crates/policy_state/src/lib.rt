//! The state of the policy, the commands that change it, and the table of rules that it stands for.
#![tactic(auto)]

mod accept;
mod accept_links;
mod accept_networks;
mod accept_pairs;
mod accept_ranges;
mod accept_routes;
mod accept_users;
mod change;
mod commit;
mod count;
mod fault;
mod laws;
mod parts;
mod picked;
mod room;
mod routes;
mod row;
mod rows;
mod state;
mod step;
mod tether;
mod turn;
mod users;

pub use change::Change;
pub use commands::{Command, Way};
pub use count::rule_count;
pub use fault::StepFault;
pub use laws::{rows_are_those, table_rises};
pub use link_table::Link;
pub use picked::{default_network, picks};
pub use routes::{key_of, route_of};
pub use row::{Item, NetworkPart, NetworkSet, OnePer, OnlyUser, Row, Selector, Target};
pub use rows::ROWS;
pub use state::State;
pub use tether::TetherPair;
pub use users::UserPermission;
