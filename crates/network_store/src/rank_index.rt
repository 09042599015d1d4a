ghost use Rattle.std.specs.Prelude.{◌≡◌, ℕ, ◌≤◌, ◌<◌, ◌+◌, [], None, Some, true, false, cond, filter, not, find, length, slice_get, OnOk, IfOk, IfSome, IfNone, vec_len, vec_capacity};
ghost use Rattle.std.specs.List.{list_any, prefix_len};
ghost use Rattle.uid_ranges.specs.Ranges.{AreDisjoint};
ghost use Rattle.uid_ranges.specs.Ranks.{last_rank, all_at};
ghost use Rattle.uid_ranges.specs.declared.ranked.Ranked.{Ranked};
ghost use Rattle.network_store.specs.RankIndex.{ends_before, holds_at, same_ranked, clash, rise, put, owner_of, owner_at, IsFirstOwner, are_low, any_meets, has_ranked, has_among, stands};

use crate::ranges::{is_among, ranked};
use std::alloc::{AllocError, Global};
use std::marker::Model;
use uid_ranges::{LAST_RANK, Ranked, Uid, UidRange};

/// A range with the network to which it belongs.
#[derive(Clone, Copy, Debug)]
pub(crate) struct OwnedRange {
    pub range: Ranked,
    pub owner: u16,
}

// Ranges in rising order of rank, and of one rank in rising order of UIDs: those of one rank are disjoint. So the one that holds a
// UID at a rank is found by halving.
#[derive(Drop)]
pub(crate) struct RankIndex {
    ranges: Vec<OwnedRange>,
}

impl Model for RankIndex {
    ghost use Rattle.std.specs.Prelude.{◌≡◌, ◌-◌, true, vec_len, vec_capacity};
    ghost use Rattle.network_store.specs.RankIndex.{RankIndexView, rise, are_low};

    ghost Value = { RankIndexView };

    ghost view = { λ i. record {
      ranges = i.ranges.items;
      room = vec_capacity i.ranges - vec_len i.ranges;
    } };

    ghost invariant = { λ i. (rise i.ranges.items ≡ true) × (are_low i.ranges.items ≡ true) };
}

impl OwnedRange {
    // Whether it is of a lower rank, or ends before the UID.
    fn ends_before(&self, rank: u8, uid: Uid) -> bool
        ensures { result ≡ ends_before rank uid.number self.now.range }
    {
        if self.range.rank != rank {
            return self.range.rank < rank;
        }
        self.range.users.last().number() < uid.number()
    }

    // Whether it is of this one's rank and shares a UID with it.
    fn clashes(&self, range: &Ranked) -> bool
        ensures { result ≡ clash self.now.range range.now }
    {
        self.range.rank == range.rank && self.range.users.meets(&range.users)
    }

    fn holds_at(&self, rank: u8, uid: Uid) -> bool
        ensures { result ≡ holds_at rank uid.number self.now.range }
    {
        self.range.rank == rank && self.range.users.holds(uid)
    }
}

fn is_same(one: &Ranked, other: &Ranked) -> bool
    ensures { result ≡ same_ranked one.now other.now }
{
    one.rank == other.rank && one.users.is_same(&other.users)
}

// How many ranges come before all that hold the UID at this rank.
fn place_of(ranges: &[OwnedRange], rank: u8, uid: Uid) -> usize
    requires { rise ranges.now ≡ true }
    ensures within { result ≤ length ranges.now }
    ensures place { result ≡ prefix_len (λ e. ends_before rank uid.number e.range) ranges.now }
{
    ranges.partition_point(|one| one.ends_before(rank, uid))
}

fn range_at(ranges: &[OwnedRange], place: usize) -> Option<OwnedRange>
    ensures { result ≡ slice_get ranges.now place }
{
    ranges.get(place).copied()
}

fn owner_in(ranges: &[OwnedRange], rank: u8, uid: Uid) -> Option<u16>
    requires { rise ranges.now ≡ true }
    ensures { result ≡ owner_at rank uid.number ranges.now }
{
    let place = place_of(ranges, rank, uid);
    let Some(one) = range_at(ranges, place) else {
        return None;
    };
    if !one.holds_at(rank, uid) {
        return None;
    }
    Some(one.owner)
}

// Whether this very range of this rank stands at the place.
fn stands_at(ranges: &[OwnedRange], range: &Ranked, place: usize) -> bool
    ensures { result ≡ stands range.now (slice_get ranges.now place) }
{
    match range_at(ranges, place) {
        Some(one) => is_same(&one.range, range),
        None => false,
    }
}

// Whether a range of the list meets this one at its rank.
fn meets_one(ranges: &[OwnedRange], range: &Ranked) -> bool
    requires { rise ranges.now ≡ true }
    ensures { result ≡ list_any (λ e. clash e.range range.now) ranges.now }
{
    let place = place_of(ranges, range.rank, range.users.first());
    match range_at(ranges, place) {
        Some(one) => one.clashes(range),
        None => false,
    }
}

impl RankIndex {
    pub(crate) fn empty(alloc: Global) -> RankIndex
        ensures { result.ranges ≡ [] }
    {
        RankIndex {
            ranges: Vec::new(alloc),
        }
    }

    // The same ranges of the same networks.
    pub(crate) fn copy(&self) -> Result<RankIndex, AllocError>
        ensures { IfOk result (λ copy. copy.ranges ≡ self.now.ranges) }
    {
        Ok(RankIndex {
            ranges: Vec::from_slice(*self.ranges.allocator(), self.ranges.as_slice())?,
        })
    }

    // The network that has the range of this rank which holds the UID.
    pub(crate) fn owner_at(&self, rank: u8, uid: Uid) -> Option<u16>
        ensures owner { result ≡ owner_at rank uid.number self.now.ranges }
        ensures rises { rise self.now.ranges ≡ true }
    {
        owner_in(&self.ranges, rank, uid)
    }

    // The network that has the range of the lowest rank which holds the UID.
    pub(crate) fn first_owner(&self, uid: Uid) -> Option<u16>
        ensures first { IfSome result (IsFirstOwner uid.number self.now.ranges) }
        ensures none { IfNone result ((rank : ℕ) →
            owner_at rank uid.number self.now.ranges ≡ None) }
        ensures rises { rise self.now.ranges ≡ true }
    {
        for rank in 0..LAST_RANK + 1 {
            if let Some(owner) = owner_in(&self.ranges, rank, uid) {
                return Some(owner);
            }
        }
        None
    }

    // Whether a range of this rank meets one of these.
    pub(crate) fn meets_at(&self, more: &[UidRange], rank: u8) -> bool
        ensures { result ≡ any_meets rank more.now self.now.ranges }
    {
        for users in more {
            if meets_one(&self.ranges, &ranked(*users, rank)) {
                return true;
            }
        }
        false
    }

    pub(crate) fn reserve(&mut self, more: usize) -> Result<(), AllocError>
        ensures ranges { self.new.ranges ≡ self.old.ranges }
        ensures room { OnOk result (more ≤ self.new.room) }
    {
        self.ranges.reserve(more)
    }

    // Puts a range in its place, in the room that is there.
    pub(crate) fn insert(&mut self, range: Ranked, owner: u16)
        requires room { 0 < self.old.room }
        requires low { range.rank ≤ last_rank }
        requires apart { list_any (λ e. clash e.range range) self.old.ranges ≡ false }
        ensures ranges { self.new.ranges ≡
            put (record { range = range; owner = owner }) self.old.ranges }
        ensures owners { (r : Ranked) → owner_of self.new.ranges r ≡
            cond (same_ranked range r) (Some owner) (owner_of self.old.ranges r) }
        ensures room { self.old.room ≤ self.new.room + 1 }
    {
        let place = place_of(&self.ranges, range.rank, range.users.first());
        let _ = self.ranges.insert(place, OwnedRange { range, owner });
    }

    // Takes this very range of this rank out.
    pub(crate) fn remove(&mut self, range: &Ranked)
        ensures ranges { self.new.ranges ≡
            filter (λ e. not (same_ranked e.range range.now)) self.old.ranges }
        ensures owners { (r : Ranked) → owner_of self.new.ranges r ≡
            cond (same_ranked range.now r) None (owner_of self.old.ranges r) }
    {
        let place = place_of(&self.ranges, range.rank, range.users.first());
        if stands_at(&self.ranges, range, place) {
            self.ranges.remove(place);
        }
    }

    // Puts these ranges of one network in their places, in the room that is there.
    pub(crate) fn insert_all(&mut self, more: &[UidRange], rank: u8, owner: u16)
        requires room { length more.now ≤ self.old.room }
        requires low { rank ≤ last_rank }
        requires disjoint { AreDisjoint more.now }
        requires apart { any_meets rank more.now self.old.ranges ≡ false }
        ensures { (r : Ranked) → owner_of self.new.ranges r ≡
            cond (has_ranked (all_at rank more.now) r) (Some owner) (owner_of self.old.ranges r) }
    {
        for users in more {
            self.insert(ranked(*users, rank), owner);
        }
    }

    // Takes all these ranges out.
    pub(crate) fn remove_all(&mut self, gone: &[Ranked])
        ensures { (r : Ranked) → owner_of self.new.ranges r ≡
            cond (has_ranked gone.now r) None (owner_of self.old.ranges r) }
    {
        for one in gone {
            self.remove(one);
        }
    }

    // Takes those of the ranges out that are among these.
    pub(crate) fn remove_among(&mut self, list: &[Ranked], gone: &[UidRange])
        ensures { (r : Ranked) → owner_of self.new.ranges r ≡
            cond (has_among gone.now list.now r) None (owner_of self.old.ranges r) }
    {
        for one in list {
            if is_among(one, gone) {
                self.remove(one);
            }
        }
    }
}
