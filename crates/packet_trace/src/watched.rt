ghost use Rattle.std.specs.Prelude.{◌≡◌, ◌+◌, ◌<◌, ◌≤◌, ◌++◌, ◌∷◌, [], ℕ, length, vec_len, vec_capacity, slice_get, if◌then◌else◌, nat_lt, Some, None};
ghost use Rattle.std.specs.Option.{option_map};
ghost use Rattle.packet_trace.specs.Changes.{changes_since, change_by};
ghost use Rattle.kernel_model.specs.View.{state_of};
ghost use Rattle.kernel_model.specs.Walk.{walk};

use kernel_model::{Entry, FoundRule, Kernel, KernelFault};
use prefixes::{Addr, Family, Route};
use rule_match::{Packet, Rule, Verdict, same_verdict};
use std::alloc::{AllocError, Global};

/// A kernel over another. It passes each call on, and keeps the requests after which the verdict of the watched packet
/// differs from the one before.
pub struct Watched<'a, K: Kernel> {
    inner: &'a mut K,
    packet: Option<Packet>,
    /// The length of the journal when the watching began.
    since: u64,
    /// The numbers of those requests, with the new verdict.
    seen: Vec<(u64, Verdict)>,
    /// The number of requests for which `seen` has room.
    room: u64,
    ghost kept: { seen.items ≡ changes_since packet since (K.seen inner.now).journal },
    ghost later: { since ≤ length (K.seen inner.now).journal },
    ghost has_room: { vec_len seen + room ≤ vec_capacity seen },
}

impl<'a, K: Kernel> Watched<'a, K> {
    /// Watches this packet, or none, from now on, with no room for requests.
    pub fn new(alloc: Global, inner: &'a mut K, packet: Option<Packet>) -> Watched<'a, K>
        ensures same { result.inner.ghost_name ≡ inner.entry.ghost_name }
        ensures view { K.seen result.inner.now ≡ K.seen inner.old }
        ensures room { K.room result.inner.now ≡ K.room inner.old }
        ensures packet { result.packet ≡ packet }
        ensures since { result.since ≡ length (K.seen inner.old).journal }
        ensures own_room { result.room ≡ 0 }
    {
        let since = inner.entry_count();
        Watched {
            inner,
            packet,
            since,
            seen: Vec::new(alloc),
            room: 0,
        }
    }

    /// The kernel that was watched. Whoever makes a `Watched` has to end it so.
    pub fn finish(self) -> &'a mut K
        ensures same { result.ghost_name ≡ self.entry.inner.ghost_name }
        ensures kernel { result.now ≡ self.entry.inner.now }
    {
        let Watched {
            inner,
            packet: _,
            since: _,
            seen: _,
            room: _,
        } = self;
        inner
    }

    /// After how many requests the verdict differed.
    pub fn seen_count(&self) -> usize
        ensures { result ≡ length (changes_since self.now.packet self.now.since
            (K.seen self.now.inner.now).journal) }
    {
        self.seen.len()
    }

    /// The number of the request at a place, from 0, and the verdict after it.
    pub fn seen_at(&self, place: usize) -> Option<(u64, Verdict)>
        ensures { result ≡ slice_get (changes_since self.now.packet self.now.since
            (K.seen self.now.inner.now).journal) place }
    {
        self.seen.get(place).copied()
    }
}

// Notes the verdict after the request of this number, where it differs.
fn note(
    seen: &mut Vec<(u64, Verdict)>,
    before: Option<Verdict>,
    after: Option<Verdict>,
    number: u64,
)
    requires { vec_len seen.old < vec_capacity seen.old }
    ensures items { seen.new.items ≡ seen.old.items ++ change_by before after number }
    ensures len { vec_len seen.new ≤ vec_len seen.old + 1 }
    ensures capacity { vec_capacity seen.old ≤ vec_capacity seen.new }
{
    if let (Some(before), Some(after)) = (before, after) {
        if !same_verdict(&before, &after) {
            let _ = seen.push((number, after));
        }
    }
}

// The verdict of the packet that is watched.
fn verdict_of<K: Kernel>(kernel: &K, packet: Option<Packet>) -> Option<Verdict>
    ensures { result ≡ option_map (walk (state_of (K.seen kernel.now))) packet }
{
    match packet {
        None => None,
        Some(packet) => Some(kernel.walk(&packet)),
    }
}

impl<'a, K: Kernel> Kernel for Watched<'a, K> {
    ghost use Rattle.packet_trace.specs.Seen.{watched, less_room};

    ghost seen = { λ w. watched (K.seen w.inner.now) w.packet w.since w.inner.ghost_name };

    ghost room = { λ w. less_room (K.room w.inner.now) w.room };

    fn reserve(&mut self, more: u64) -> Result<(), AllocError> {
        if more > self.room {
            self.seen.reserve(more as usize)?;
            self.room = more;
        }
        self.inner.reserve(more)
    }

    fn prepare(&mut self, table: u32) -> Result<(), AllocError> {
        self.inner.prepare(table)
    }

    fn add_rule(&mut self, family: Family, rule: &Rule) -> Result<(), KernelFault> {
        let before = verdict_of(self.inner, self.packet);
        let result = self.inner.add_rule(family, rule);
        let after = verdict_of(self.inner, self.packet);
        self.room -= 1;
        note(&mut self.seen, before, after, self.inner.entry_count());
        result
    }

    fn delete_rule(&mut self, family: Family, rule: &Rule) -> Result<(), KernelFault> {
        let before = verdict_of(self.inner, self.packet);
        let result = self.inner.delete_rule(family, rule);
        let after = verdict_of(self.inner, self.packet);
        self.room -= 1;
        note(&mut self.seen, before, after, self.inner.entry_count());
        result
    }

    fn add_route(&mut self, table: u32, route: &Route) -> Result<(), KernelFault> {
        let before = verdict_of(self.inner, self.packet);
        let result = self.inner.add_route(table, route);
        let after = verdict_of(self.inner, self.packet);
        self.room -= 1;
        note(&mut self.seen, before, after, self.inner.entry_count());
        result
    }

    fn delete_route(&mut self, table: u32, route: &Route) -> Result<(), KernelFault> {
        let before = verdict_of(self.inner, self.packet);
        let result = self.inner.delete_route(table, route);
        let after = verdict_of(self.inner, self.packet);
        self.room -= 1;
        note(&mut self.seen, before, after, self.inner.entry_count());
        result
    }

    fn next_match(&self, packet: &Packet, from: u64) -> Option<FoundRule> {
        self.inner.next_match(packet, from)
    }

    fn rule_count(&self, family: Family) -> u64 {
        self.inner.rule_count(family)
    }

    fn rule_at(&self, family: Family, place: u64) -> Option<Rule> {
        self.inner.rule_at(family, place)
    }

    fn route_count(&self, table: u32) -> u64 {
        self.inner.route_count(table)
    }

    fn route_at(&self, table: u32, place: u64) -> Option<Route> {
        self.inner.route_at(table, place)
    }

    fn lookup(&self, table: u32, dest: Addr, bound: Option<u16>) -> Option<Route> {
        self.inner.lookup(table, dest, bound)
    }

    fn entry_count(&self) -> u64 {
        self.inner.entry_count()
    }

    fn entry_at(&self, place: u64) -> Option<Entry> {
        self.inner.entry_at(place)
    }

    ghost use Rattle.packet_trace.specs.Seen.{sound_watched};

    ghost sound = { λ w. sound_watched (K.seen w.inner.now) (K.room w.inner.now) w.packet w.since
        w.inner.ghost_name w.room (K.sound w.inner.now) };
}
