//! The rules of one family, found by what they select: a packet's next match costs what it looks at, not the whole list.
#![tactic(auto)]

mod index;
mod search;
mod sorted;
mod spot;

pub use index::RuleIndex;
use kernel_ledger::{ByLists, LedgerKernel};

/// A kernel that finds its rules by what they select, and fails where it is told to.
pub type IndexedKernel = LedgerKernel<RuleIndex, ByLists>;
