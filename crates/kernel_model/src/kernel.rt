ghost use Rattle.std.specs.Prelude.{◌≡◌, ℕ, ◌+◌, ◌<◌, ◌≤◌, [], ◌∷◌, length, List, OnOk, OnErr, IsTrue, IsSome, Some, None, slice_get, is_ok, if◌then◌else◌};
ghost use Rattle.kernel_model.specs.declared.request.Request.TheVariants as req;
ghost use Rattle.kernel_model.specs.State.{is_absent, is_present, rules_of, routes_of};
ghost use Rattle.kernel_model.specs.Walk.{walk};
ghost use Rattle.kernel_model.specs.Next.{next_match};
ghost use Rattle.prefixes.specs.Addr.{family_of};
ghost use Rattle.prefixes.specs.Best.{best};
ghost use Rattle.kernel_model.specs.View.{KernelView, state_of, Room, grown, used, IsSound};
ghost use Rattle.kernel_model.specs.Journal.{entry};
ghost use Rattle.kernel_model.specs.declared.request.EntryKind.TheVariants.{Added, Deleted, Refused, Broken};

use crate::found::FoundRule;
use crate::request::{Entry, Request};
use crate::walk::walk_by_matches;
use prefixes::{Addr, Family, Route};
use rule_match::{Packet, Rule, Verdict};
use std::alloc::AllocError;

/// An addition was refused, or a deletion broke.
#[derive(Clone, Copy, Debug, PartialEq, Eq)]
pub struct KernelFault;

/// A kernel is seen by its journal: its rules and tables are what the journal leaves, and only a request writes an entry.
/// An addition or deletion that answers an error is the one entry that its journal grew by, `Refused` or `Broken`.
/// Only `reserve` and `prepare` take memory.
pub trait Kernel {
    /// The journal, and what arming and watching add. A call leaves all of it as it is, other than what it says here.
    ghost seen: { Self → KernelView };

    /// The room that was made for requests.
    ghost room: { Self → Room };

    /// Makes room for this number of requests at least.
    fn reserve(&mut self, more: u64) -> Result<(), AllocError>
        ensures seen { seen self.new ≡ seen self.old }
        ensures ready { (room self.new).ready ≡ (room self.old).ready }
        ensures spare { OnOk result (more ≤ (room self.new).spare) }
        ensures no_less { (room self.old).spare ≤ (room self.new).spare };

    /// Makes room for one route in this table. Room that was made for a route in another table may be given up.
    fn prepare(&mut self, table: u32) -> Result<(), AllocError>
        ensures seen { seen self.new ≡ seen self.old }
        ensures ready { OnOk result ((room self.new).ready ≡ Some table) }
        ensures spare { (room self.new).spare ≡ (room self.old).spare };

    /// Puts the rule into the list of its family, after the rules whose priority isn't greater.
    fn add_rule(&mut self, family: Family, rule: &Rule) -> Result<(), KernelFault>
        requires absent { IsTrue (is_absent (state_of (seen self.old)) (req.Rule family rule.now)) }
        requires spare { 0 < (room self.old).spare }
        ensures grown { seen self.new ≡ grown (seen self.old)
            (entry (if is_ok result then Added else Refused) (req.Rule family rule.now) ∷ []) }
        ensures used { room self.new ≡ used (room self.old)
            (entry (if is_ok result then Added else Refused) (req.Rule family rule.now)) };

    /// Takes the rule out of the list of its family.
    fn delete_rule(&mut self, family: Family, rule: &Rule) -> Result<(), KernelFault>
        requires present { IsTrue (is_present (state_of (seen self.old))
            (req.Rule family rule.now)) }
        requires spare { 0 < (room self.old).spare }
        ensures grown { seen self.new ≡ grown (seen self.old)
            (entry (if is_ok result then Deleted else Broken) (req.Rule family rule.now) ∷ []) }
        ensures used { room self.new ≡ used (room self.old)
            (entry (if is_ok result then Deleted else Broken) (req.Rule family rule.now)) };

    /// Puts the route last in its table, which uses up the room there.
    fn add_route(&mut self, table: u32, route: &Route) -> Result<(), KernelFault>
        requires absent { IsTrue (is_absent (state_of (seen self.old))
            (req.Route table route.now)) }
        requires spare { 0 < (room self.old).spare }
        requires ready { (room self.old).ready ≡ Some table }
        ensures grown { seen self.new ≡ grown (seen self.old)
            (entry (if is_ok result then Added else Refused) (req.Route table route.now) ∷ []) }
        ensures used { room self.new ≡ used (room self.old)
            (entry (if is_ok result then Added else Refused) (req.Route table route.now)) };

    /// Takes the route out of its table.
    fn delete_route(&mut self, table: u32, route: &Route) -> Result<(), KernelFault>
        requires present { IsTrue (is_present (state_of (seen self.old))
            (req.Route table route.now)) }
        requires spare { 0 < (room self.old).spare }
        ensures grown { seen self.new ≡ grown (seen self.old)
            (entry (if is_ok result then Deleted else Broken) (req.Route table route.now) ∷ []) }
        ensures used { room self.new ≡ used (room self.old)
            (entry (if is_ok result then Deleted else Broken) (req.Route table route.now)) };

    /// Where the packet goes: unreachable where no rule decides.
    final fn walk(&self, packet: &Packet) -> Verdict
    where
        Self: Sized,
        ensures { result ≡ walk (state_of (seen self.now)) packet.now }
    {
        walk_by_matches(self, packet)
    }

    /// The first rule that the packet matches, from this place on in the list of its family.
    fn next_match(&self, packet: &Packet, from: u64) -> Option<FoundRule>
        ensures { result ≡ next_match
            (rules_of (state_of (seen self.now)) (family_of packet.now.dest)) packet.now from };

    fn rule_count(&self, family: Family) -> u64
        ensures { result ≡ length (rules_of (state_of (seen self.now)) family) };

    /// The rule at a place of its family's list, from 0.
    fn rule_at(&self, family: Family, place: u64) -> Option<Rule>
        ensures { result ≡ slice_get (rules_of (state_of (seen self.now)) family) place };

    /// The number of routes in a table, 0 for one that isn't there.
    fn route_count(&self, table: u32) -> u64
        ensures { result ≡ length (routes_of table (state_of (seen self.now)).tables) };

    /// The route at a place of a table, from 0.
    fn route_at(&self, table: u32, place: u64) -> Option<Route>
        ensures { result ≡ slice_get (routes_of table (state_of (seen self.now)).tables) place };

    /// The best route of a table for a packet to this destination, bound to this link or to none. A throw is given as a
    /// route.
    fn lookup(&self, table: u32, dest: Addr, bound: Option<u16>) -> Option<Route>
        ensures { result ≡ best (routes_of table (state_of (seen self.now)).tables) dest bound };

    fn entry_count(&self) -> u64
        ensures { result ≡ length (seen self.now).journal };

    /// The entry at a place of the journal, from 0. A request's number is its place counted from 1.
    fn entry_at(&self, place: u64) -> Option<Entry>
        ensures { result ≡ slice_get (seen self.now).journal place };

    /// The journal and the room fit a number, what was asked could be asked, and what failed was listed.
    ghost sound: { (kernel : Self) → IsSound (seen kernel) (room kernel) };
}

/// A kernel that can be told what to refuse and what to break.
pub trait Armed: Kernel {
    /// From now on the additions of these numbers are refused and the deletions of these numbers break, counted from 1
    /// over rules and routes together. Takes no memory.
    fn arm(&mut self, refuse: Vec<u64>, breaks: Vec<u64>)
        requires { (Self.seen self.old).journal ≡ [] }
        ensures seen { Self.seen self.new ≡ record (Self.seen self.old)
            { lists = Some (record { refuse = refuse.items; breaks = breaks.items }) } }
        ensures room { Self.room self.new ≡ Self.room self.old };

    /// It keeps such lists.
    ghost has_lists: { (kernel : Self) → IsSome (Self.seen kernel).lists };
}

/// Asks the kernel for an addition.
pub fn ask_add<K: Kernel>(kernel: &mut K, request: &Request) -> Result<(), KernelFault>
    requires absent { IsTrue (is_absent (state_of (K.seen kernel.old)) request.now) }
    requires spare { 0 < (K.room kernel.old).spare }
    requires ready { (n : ℕ) (route : _) → request.now ≡ req.Route n route →
        (K.room kernel.old).ready ≡ Some n }
    ensures grown { K.seen kernel.new ≡ grown (K.seen kernel.old)
        (entry (if is_ok result then Added else Refused) request.now ∷ []) }
    ensures used { K.room kernel.new ≡ used (K.room kernel.old)
        (entry (if is_ok result then Added else Refused) request.now) }
{
    match request {
        Request::Rule { family, rule } => kernel.add_rule(*family, rule),
        Request::Route { table, route } => kernel.add_route(*table, route),
    }
}

/// Asks the kernel for a deletion.
pub fn ask_delete<K: Kernel>(kernel: &mut K, request: &Request) -> Result<(), KernelFault>
    requires present { IsTrue (is_present (state_of (K.seen kernel.old)) request.now) }
    requires spare { 0 < (K.room kernel.old).spare }
    ensures grown { K.seen kernel.new ≡ grown (K.seen kernel.old)
        (entry (if is_ok result then Deleted else Broken) request.now ∷ []) }
    ensures used { K.room kernel.new ≡ used (K.room kernel.old)
        (entry (if is_ok result then Deleted else Broken) request.now) }
{
    match request {
        Request::Rule { family, rule } => kernel.delete_rule(*family, rule),
        Request::Route { table, route } => kernel.delete_route(*table, route),
    }
}
