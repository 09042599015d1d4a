//! UIDs, ranges of UIDs with both ends included, and lists of disjoint ranges.
#![tactic(auto)]

mod list;
mod range;
mod ranked;

pub use list::{RangeList, self_meets};
pub use range::{Uid, UidRange};
pub use ranked::{LAST_RANK, Ranked, RankedList};
