//! Where each packet is to go by the policy, and that the rules of a state mean this.
#![tactic(auto)]

mod asking;
mod decision;
mod holders;
mod laws;
mod named;
mod rights;

pub use decision::decide;
pub use laws::{barred_stays_in, more_networks_stay_in, own_rule_means_start, table_means_policy};
