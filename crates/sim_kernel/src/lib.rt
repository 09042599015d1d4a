//! Kernels that keep their rules in lists: one fails where it is told to, one by what it holds.
#![tactic(auto)]

mod lists;
mod rule_list;

use kernel_ledger::{ByLists, ByQuota, LedgerKernel};
pub use rule_list::RuleList;

/// A kernel that keeps its rules in lists, and fails where it is told to.
pub type SimKernel = LedgerKernel<RuleList, ByLists>;

/// A kernel that keeps its rules in lists, and refuses a rule or a route where it holds too many. No deletion breaks.
pub type QuotaKernel = LedgerKernel<RuleList, ByQuota>;
