//! What a kernel is asked when the policy changes: the rules that a state stands for, and the plan that leads from the
//! rules of one state to those of another.
#![tactic(auto)]

mod change_parts;
mod change_plan;
mod change_routes;
mod change_rules;
mod going_routes;
mod laws;
mod part;
mod requests;
mod routes;
mod rows;
mod rule;
mod shape;
mod start;
mod table;
mod touched;

pub use change_plan::plan_change;
pub use laws::{plan_ends, plan_law, requests_can_be_asked, start_law, tables_are_lawful};
pub use start::start_plan;
pub use table::rules;
