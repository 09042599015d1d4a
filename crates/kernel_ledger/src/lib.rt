//! What a kernel is made of: the ledger of what it was asked, its tables of routes, and its rules, in any store that
//! keeps their order.
#![tactic(auto)]

mod faults;
mod kernel;
mod ledger;
mod numbered;
mod rule_store;
mod tables;

pub use faults::{ByLists, ByQuota, Faults};
pub use kernel::LedgerKernel;
pub use ledger::Ledger;
pub use rule_store::RuleStore;
pub use tables::Tables;
