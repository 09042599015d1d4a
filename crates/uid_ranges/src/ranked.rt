ghost use Rattle.std.specs.Prelude.{◌≡◌, ◌≤◌, ◌++◌, true, false, [], length, slice_get, IfOk};
ghost use Rattle.uid_ranges.specs.Ranges.{has, meets_any, AreDisjoint};
ghost use Rattle.uid_ranges.specs.Ranks.{
  last_rank,
  holds_user,
  rank_of,
  has_users,
  users_meet,
  users_meet_at,
  all_at,
  ranked_without,
  are_ranked,
};

use crate::range::{Uid, UidRange};
use std::alloc::{AllocError, Global};
use std::marker::Model;

/// The highest rank. The lower a rank, the earlier its ranges come.
pub const LAST_RANK: u8 = 99;

/// A range of users with its rank.
#[derive(Clone, Copy, PartialEq, Eq, Debug)]
pub struct Ranked {
    pub users: UidRange,
    pub rank: u8,
}

fn range_at(users: UidRange, rank: u8) -> Ranked
    ensures { result ≡ record { users = users; rank = rank } }
{
    Ranked { users, rank }
}

fn meets_any(one: &Ranked, list: &[UidRange]) -> bool
    ensures { result ≡ meets_any one.now.users list.now }
{
    list.iter().any(|other| one.users.meets(other))
}

fn is_among(one: &Ranked, list: &[UidRange]) -> bool
    ensures { result ≡ has list.now one.now.users }
{
    list.iter().any(|other| one.users.is_same(other))
}

fn push_all(ranges: &mut Vec<Ranked>, more: &[UidRange], rank: u8) -> Result<(), AllocError>
    ensures { IfOk result (λ _. ranges.new.items ≡ ranges.old.items ++ all_at rank more.now) }
{
    for users in more {
        ranges.push(range_at(*users, rank))?;
    }
    Ok(())
}

/// Disjoint ranges with their ranks, in the order of their addition.
#[derive(Debug, Drop)]
pub struct RankedList {
    ranges: Vec<Ranked>,
}

impl Model for RankedList {
    ghost use Rattle.std.specs.Prelude.{List, ◌≡◌, true};
    ghost use Rattle.uid_ranges.specs.declared.ranked.Ranked.{Ranked};
    ghost use Rattle.uid_ranges.specs.Ranks.{are_ranked};

    ghost Value = { List Ranked };

    ghost view = { λ list. list.ranges.items };

    ghost invariant = { λ list. are_ranked list.ranges.items ≡ true };
}

impl Clone for RankedList {
    ghost use Rattle.std.specs.Prelude.{◌≡◌};

    ghost is_clone = { λ list copy. copy ≡ list };

    fn clone(&self) -> Result<RankedList, AllocError> {
        let alloc = *self.ranges.allocator();
        let ranges = Vec::from_slice(alloc, self.ranges.as_slice())?;
        Ok(RankedList { ranges })
    }
}

impl RankedList {
    /// No ranges. It takes no memory.
    pub fn empty(alloc: Global) -> RankedList
        ensures { result ≡ [] }
    {
        RankedList {
            ranges: Vec::new(alloc),
        }
    }

    /// How many ranges there are.
    pub fn len(&self) -> usize
        ensures count { result ≡ length self.now }
        ensures ranked { are_ranked self.now ≡ true }
    {
        self.ranges.len()
    }

    /// The range at a place, from 0, with its rank.
    pub fn at(&self, place: usize) -> Option<Ranked>
        ensures { result ≡ slice_get self.now place }
    {
        self.ranges.get(place).copied()
    }

    pub fn as_slice(&self) -> &[Ranked]
        ensures { result.now ≡ self.now }
    {
        self.ranges.as_slice()
    }

    /// Whether a range of the list holds the UID.
    pub fn holds(&self, uid: Uid) -> bool
        ensures { result ≡ holds_user self.now uid.number }
    {
        self.ranges.iter().any(|one| one.users.holds(uid))
    }

    /// The rank of the range that holds the UID.
    pub fn rank_of(&self, uid: Uid) -> Option<u8>
        ensures { result ≡ rank_of self.now uid.number }
    {
        let found = self.ranges.iter().find(|one| one.users.holds(uid))?;
        Some(found.rank)
    }

    /// Whether this very range stands in the list, at whatever rank.
    pub fn has(&self, range: UidRange) -> bool
        ensures { result ≡ has_users self.now range }
    {
        self.ranges.iter().any(|one| range.is_same(&one.users))
    }

    /// Whether a range of the list meets one of these.
    pub fn meets(&self, list: &[UidRange]) -> bool
        ensures { result ≡ users_meet self.now list.now }
    {
        self.ranges.iter().any(|one| meets_any(one, list))
    }

    /// Whether a range of this rank meets one of these.
    pub fn meets_at(&self, list: &[UidRange], rank: u8) -> bool
        ensures { result ≡ users_meet_at rank self.now list.now }
    {
        self.ranges
            .iter()
            .any(|one| one.rank == rank && meets_any(one, list))
    }

    /// The list with these after it, each with this rank.
    pub fn with(&self, more: &[UidRange], rank: u8) -> Result<RankedList, AllocError>
        requires in_range { rank ≤ last_rank }
        requires disjoint { AreDisjoint more.now }
        requires apart { users_meet self.now more.now ≡ false }
        ensures { IfOk result (λ list. list ≡ self.now ++ all_at rank more.now) }
    {
        let alloc = *self.ranges.allocator();
        let mut ranges = Vec::from_slice(alloc, self.ranges.as_slice())?;
        push_all(&mut ranges, more, rank)?;
        Ok(RankedList { ranges })
    }

    /// The list without these ranges, in its order.
    pub fn without(&self, gone: &[UidRange]) -> Result<RankedList, AllocError>
        ensures { IfOk result (λ list. list ≡ ranked_without self.now gone.now) }
    {
        let alloc = *self.ranges.allocator();
        let ranges = self
            .ranges
            .iter()
            .copied()
            .filter(|one| !is_among(one, gone))
            .collect(alloc)?;
        Ok(RankedList { ranges })
    }
}
