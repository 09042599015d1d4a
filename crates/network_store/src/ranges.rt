ghost use Rattle.std.specs.Prelude.{◌≡◌, ◌≤◌, ◌+◌, ◌++◌, [], length, OnOk, IfOk, true, false, filter, not, vec_len, vec_capacity};
ghost use Rattle.uid_ranges.specs.Ranges.{AreDisjoint, has};
ghost use Rattle.uid_ranges.specs.Ranks.{last_rank, users_meet, all_at, ranked_without, are_ranked};

use std::alloc::{AllocError, Global};
use std::marker::Model;
use uid_ranges::{Ranked, UidRange};

/// Disjoint ranges with their ranks in the order of their addition, which are added in room that was made before.
#[derive(Drop)]
pub struct StoredRanges {
    ranges: Vec<Ranked>,
}

impl Model for StoredRanges {
    ghost use Rattle.std.specs.Prelude.{◌≡◌, ◌-◌, true, vec_len, vec_capacity};
    ghost use Rattle.uid_ranges.specs.Ranks.{are_ranked};
    ghost use Rattle.network_store.specs.Ranges.{RangesView};

    ghost Value = { RangesView };

    ghost view = { λ s. record {
      ranges = s.ranges.items;
      room = vec_capacity s.ranges - vec_len s.ranges;
    } };

    ghost invariant = { λ s. are_ranked s.ranges.items ≡ true };
}

pub(crate) fn ranked(users: UidRange, rank: u8) -> Ranked
    ensures { result ≡ record { users = users; rank = rank } }
{
    Ranked { users, rank }
}

pub(crate) fn is_among(one: &Ranked, list: &[UidRange]) -> bool
    ensures { result ≡ has list.now one.now.users }
{
    list.iter().any(|other| one.users.is_same(other))
}

// Puts these after the others, in the room that is there.
fn push_all(ranges: &mut Vec<Ranked>, more: &[UidRange], rank: u8)
    requires { vec_len ranges.old + length more.now ≤ vec_capacity ranges.old }
    ensures { ranges.new.items ≡ ranges.old.items ++ all_at rank more.now }
{
    for users in more {
        ranges.push_reserved(ranked(*users, rank));
    }
}

impl StoredRanges {
    /// No ranges. It takes no memory.
    pub fn empty(alloc: Global) -> StoredRanges
        ensures { result.ranges ≡ [] }
    {
        StoredRanges {
            ranges: Vec::new(alloc),
        }
    }

    /// The same ranges.
    pub fn copy(&self) -> Result<StoredRanges, AllocError>
        ensures { IfOk result (λ copy. copy.ranges ≡ self.now.ranges) }
    {
        Ok(StoredRanges {
            ranges: Vec::from_slice(*self.ranges.allocator(), self.ranges.as_slice())?,
        })
    }

    pub fn as_slice(&self) -> &[Ranked]
        ensures ranges { result.now ≡ self.now.ranges }
        ensures ranked { are_ranked self.now.ranges ≡ true }
    {
        self.ranges.as_slice()
    }

    /// Makes room for so many ranges more. The ranges stay.
    pub fn reserve(&mut self, more: usize) -> Result<(), AllocError>
        ensures ranges { self.new.ranges ≡ self.old.ranges }
        ensures room { OnOk result (more ≤ self.new.room) }
    {
        self.ranges.reserve(more)
    }

    /// Puts these after the others, each with this rank, in the room that is there.
    pub fn add_all(&mut self, more: &[UidRange], rank: u8)
        requires room { length more.now ≤ self.old.room }
        requires in_range { rank ≤ last_rank }
        requires disjoint { AreDisjoint more.now }
        requires apart { users_meet self.old.ranges more.now ≡ false }
        ensures { self.new.ranges ≡ self.old.ranges ++ all_at rank more.now }
    {
        push_all(&mut self.ranges, more, rank);
    }

    /// Takes these out, at whatever rank. The others keep their order.
    pub fn remove_all(&mut self, gone: &[UidRange])
        ensures { self.new.ranges ≡ ranked_without self.old.ranges gone.now }
    {
        self.ranges.retain(|one| !is_among(one, gone));
    }
}
