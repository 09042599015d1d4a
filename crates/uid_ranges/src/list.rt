ghost use Rattle.std.specs.Prelude.{◌≡◌, ◌++◌, ◌↔◌, false, [], length, slice_get, Contains, IsTrue, IfOk};
ghost use Rattle.uid_ranges.specs.Ranges.{any_holds, has, meets_any, lists_meet, self_meets, without, AreDisjoint, ListsShareUid, TwoShareUid};

use crate::range::{Uid, UidRange};
use std::alloc::{AllocError, Global};
use std::marker::Model;

fn meets_any(range: &UidRange, list: &[UidRange]) -> bool
    ensures { result ≡ meets_any range.now list.now }
{
    list.iter().any(|other| range.meets(other))
}

fn is_among(range: &UidRange, list: &[UidRange]) -> bool
    ensures { result ≡ has list.now range.now }
{
    list.iter().any(|other| range.is_same(other))
}

fn lists_meet(ranges: &[UidRange], others: &[UidRange]) -> bool
    ensures { result ≡ lists_meet ranges.now others.now }
{
    ranges.iter().any(|range| meets_any(range, others))
}

/// Whether two places of the list share a UID.
pub fn self_meets(list: &[UidRange]) -> bool
    ensures word { result ≡ self_meets list.now }
    ensures shared { IsTrue result ↔ TwoShareUid list.now }
{
    match list {
        [] => false,
        [first, rest @ ..] => meets_any(first, rest) || self_meets(rest),
    }
}

/// Disjoint ranges in the order of their addition.
#[derive(Debug, Drop)]
pub struct RangeList {
    ranges: Vec<UidRange>,
}

impl Model for RangeList {
    ghost use Rattle.std.specs.Prelude.{List};
    ghost use Rattle.uid_ranges.specs.declared.range.UidRange.{UidRange};
    ghost use Rattle.uid_ranges.specs.Ranges.{AreDisjoint};

    ghost Value = { List UidRange };

    ghost view = { λ list. list.ranges.items };

    ghost invariant = { λ list. AreDisjoint list.ranges.items };
}

impl Clone for RangeList {
    ghost use Rattle.std.specs.Prelude.{◌≡◌};

    ghost is_clone = { λ list copy. copy ≡ list };

    fn clone(&self) -> Result<RangeList, AllocError> {
        let alloc = *self.ranges.allocator();
        let ranges = Vec::from_slice(alloc, self.ranges.as_slice())?;
        Ok(RangeList { ranges })
    }
}

impl RangeList {
    /// No ranges. It takes no memory.
    pub fn empty(alloc: Global) -> RangeList
        ensures { result ≡ [] }
    {
        RangeList {
            ranges: Vec::new(alloc),
        }
    }

    /// How many ranges there are.
    pub fn len(&self) -> usize
        ensures count { result ≡ length self.now }
        ensures disjoint { AreDisjoint self.now }
    {
        self.ranges.len()
    }

    /// The range at a place, from 0.
    pub fn at(&self, place: usize) -> Option<UidRange>
        ensures { result ≡ slice_get self.now place }
    {
        self.ranges.get(place).copied()
    }

    /// Whether a range of the list holds the UID.
    pub fn holds(&self, uid: Uid) -> bool
        ensures { result ≡ any_holds self.now uid.number }
    {
        self.ranges.iter().any(|range| range.holds(uid))
    }

    /// Whether this very range stands in the list.
    pub fn has(&self, range: UidRange) -> bool
        ensures word { result ≡ has self.now range }
        ensures there { IsTrue result ↔ Contains self.now range }
    {
        is_among(&range, &self.ranges)
    }

    /// Whether a range of the list meets one of these.
    pub fn meets(&self, list: &[UidRange]) -> bool
        ensures word { result ≡ lists_meet self.now list.now }
        ensures shared { IsTrue result ↔ ListsShareUid self.now list.now }
    {
        lists_meet(&self.ranges, list)
    }

    /// The list with these after it.
    pub fn with(&self, more: &[UidRange]) -> Result<RangeList, AllocError>
        requires disjoint { AreDisjoint more.now }
        requires apart { lists_meet self.now more.now ≡ false }
        ensures { IfOk result (λ list. list ≡ self.now ++ more.now) }
    {
        let alloc = *self.ranges.allocator();
        let mut ranges = Vec::from_slice(alloc, self.ranges.as_slice())?;
        ranges.extend_from_slice(more)?;
        Ok(RangeList { ranges })
    }

    /// The list without these, in its order.
    pub fn without(&self, gone: &[UidRange]) -> Result<RangeList, AllocError>
        ensures { IfOk result (λ list. list ≡ without self.now gone.now) }
    {
        let alloc = *self.ranges.allocator();
        let ranges = self
            .ranges
            .iter()
            .copied()
            .filter(|range| !is_among(range, gone))
            .collect(alloc)?;
        Ok(RangeList { ranges })
    }
}
