ghost use Rattle.std.specs.Prelude.{◌≡◌, ◌<◌, ◌≤◌, [], ◌∷◌, not, length, IfOk, OnOk, IsTrue, is_some, is_ok, Some, None, if◌then◌else◌};
ghost use Rattle.kernel_model.specs.State.{own_rule, is_absent, is_present, rules_of};
ghost use Rattle.kernel_model.specs.Journal.{replay, entry};
ghost use Rattle.kernel_model.specs.View.{state_of, grown, used};
ghost use Rattle.kernel_model.specs.declared.request.EntryKind.TheVariants.{Added, Deleted, Refused, Broken};
ghost use Rattle.kernel_model.specs.declared.request.Request.TheVariants as req;
ghost use Rattle.kernel_ledger.specs.Tables.{route_total};

use crate::faults::{ByLists, ByQuota, Faults};
use crate::ledger::Ledger;
use crate::rule_store::RuleStore;
use crate::tables::Tables;
use kernel_model::{Armed, Entry, FoundRule, Kernel, KernelFault, OWN_RULE, Request};
use prefixes::{Addr, Family, Route};
use rule_match::{Packet, Rule};
use std::alloc::{AllocError, Global};

/// A kernel that keeps each family's rules in such a store and its routes in tables, and fails where `F` says so.
/// Its ledger and its rules have room for the same number of requests.
#[derive(Drop)]
pub struct LedgerKernel<R: RuleStore, F: Faults> {
    ledger: Ledger,
    faults: F,
    rules4: R,
    rules6: R,
    tables: Tables,
    ghost replayed: { replay ledger.journal.items ≡ record {
      rules4 = R.rules rules4;
      rules6 = R.rules rules6;
      tables = tables.tables;
    } },
    ghost rules4_room: { ledger.spare ≤ R.room rules4 },
    ghost rules6_room: { ledger.spare ≤ R.room rules6 },
    ghost keeps_lists: { is_some ledger.lists ≡ F.has_lists },
}

// A store with the rule that each family has from the start.
fn own_rules<R: RuleStore>(alloc: Global) -> Result<R, AllocError>
    ensures { IfOk result (λ store. R.rules store ≡ own_rule ∷ []) }
{
    let mut store = R::empty(alloc);
    store.reserve(1)?;
    store.put(&OWN_RULE);
    Ok(store)
}

// The starting kernel, over a ledger whose journal is empty.
fn started<R: RuleStore, F: Faults>(
    alloc: Global,
    ledger: Ledger,
    faults: F,
) -> Result<LedgerKernel<R, F>, AllocError>
    requires empty { ledger.journal.items ≡ [] }
    requires spare { ledger.spare ≡ 0 }
    requires lists { is_some ledger.lists ≡ F.has_lists }
    ensures ledger { IfOk result (λ kernel. kernel.ledger ≡ ledger) }
    ensures faults { IfOk result (λ kernel. kernel.faults ≡ faults) }
{
    let rules4 = own_rules(alloc)?;
    let rules6 = own_rules(alloc)?;
    let tables = Tables::start(alloc)?;
    Ok(LedgerKernel {
        ledger,
        faults,
        rules4,
        rules6,
        tables,
    })
}

impl<R: RuleStore> LedgerKernel<R, ByLists> {
    ghost use Rattle.kernel_ledger.specs.Seen.{starting};

    /// The starting kernel with an empty journal. The k-th addition asked for is refused exactly where k is in
    /// `refuse`, and the k-th deletion breaks exactly where k is in `breaks`.
    pub fn new(alloc: Global, refuse: Vec<u64>, breaks: Vec<u64>) -> Result<Self, AllocError>
        ensures { IfOk result (λ kernel. ⟦<LedgerKernel<R, ByLists> as Kernel>⟧.seen kernel ≡
            starting (Some (record { refuse = refuse.items; breaks = breaks.items }))) }
    {
        let mut ledger = Ledger::new(alloc);
        ledger.arm(refuse, breaks);
        started(alloc, ledger, ByLists)
    }
}

impl<R: RuleStore> LedgerKernel<R, ByQuota> {
    ghost use Rattle.kernel_ledger.specs.Seen.{starting};

    /// The starting kernel with an empty journal. It refuses a rule where the family's list has `limit` rules or more,
    /// and a route where all tables together have `limit` routes or more.
    pub fn new(alloc: Global, limit: u64) -> Result<Self, AllocError>
        requires { 1 ≤ limit }
        ensures seen { IfOk result (λ kernel. ⟦<LedgerKernel<R, ByQuota> as Kernel>⟧.seen kernel ≡
            starting None) }
        ensures limit { IfOk result (λ kernel. kernel.faults.limit ≡ limit) }
    {
        started(alloc, Ledger::new(alloc), ByQuota { limit })
    }
}

impl<R: RuleStore, F: Faults> Kernel for LedgerKernel<R, F> {
    ghost use Rattle.kernel_ledger.specs.Seen.{seen_by, room_by, sound_by};

    ghost seen = { λ k. seen_by k.ledger };

    ghost room = { λ k. room_by k.ledger k.tables };

    ghost sound = { λ k. sound_by k.ledger k.tables.ready };

    fn reserve(&mut self, more: u64) -> Result<(), AllocError>
        ensures seen { seen_by self.new.ledger ≡ seen_by self.old.ledger }
        ensures ready { (room_by self.new.ledger self.new.tables).ready ≡
            (room_by self.old.ledger self.old.tables).ready }
        ensures spare { OnOk result (more ≤ (room_by self.new.ledger self.new.tables).spare) }
        ensures no_less { (room_by self.old.ledger self.old.tables).spare ≤
            (room_by self.new.ledger self.new.tables).spare }
        ensures faults { self.new.faults ≡ self.old.faults }
    {
        if more > self.ledger.spare() {
            self.rules4.reserve(more)?;
            self.rules6.reserve(more)?;
            self.ledger.reserve(more)?;
        }
        Ok(())
    }

    fn prepare(&mut self, table: u32) -> Result<(), AllocError>
        ensures seen { seen_by self.new.ledger ≡ seen_by self.old.ledger }
        ensures ready { OnOk result ((room_by self.new.ledger self.new.tables).ready ≡ Some table) }
        ensures spare { (room_by self.new.ledger self.new.tables).spare ≡
            (room_by self.old.ledger self.old.tables).spare }
        ensures faults { self.new.faults ≡ self.old.faults }
    {
        self.tables.prepare(table)
    }

    /// It is refused by the number of the rules of its family.
    fn add_rule(&mut self, family: Family, rule: &Rule) -> Result<(), KernelFault>
        requires absent { IsTrue (is_absent (state_of (seen_by self.old.ledger)) (req.Rule family rule.now)) }
        requires spare { 0 < (room_by self.old.ledger self.old.tables).spare }
        ensures cause { is_ok result ≡ not (F.refuses self.old.faults (seen_by self.old.ledger)
            (length (rules_of (state_of (seen_by self.old.ledger)) family))) }
        ensures grown { seen_by self.new.ledger ≡ grown (seen_by self.old.ledger)
            (entry (if is_ok result then Added else Refused) (req.Rule family rule.now) ∷ []) }
        ensures used { room_by self.new.ledger self.new.tables ≡ used (room_by self.old.ledger self.old.tables)
            (entry (if is_ok result then Added else Refused) (req.Rule family rule.now)) }
        ensures faults { self.new.faults ≡ self.old.faults }
    {
        let rule = *rule;
        let refused = self
            .faults
            .refuses_next(&self.ledger, self.rule_count(family));
        self.ledger
            .ask_addition(Request::Rule { family, rule }, refused)?;
        match family {
            Family::V4 => self.rules4.put(&rule),
            Family::V6 => self.rules6.put(&rule),
        }
        Ok(())
    }

    fn delete_rule(&mut self, family: Family, rule: &Rule) -> Result<(), KernelFault>
        requires present { IsTrue (is_present (state_of (seen_by self.old.ledger))
            (req.Rule family rule.now)) }
        requires spare { 0 < (room_by self.old.ledger self.old.tables).spare }
        ensures cause { is_ok result ≡ not (F.breaks self.old.faults (seen_by self.old.ledger)) }
        ensures grown { seen_by self.new.ledger ≡ grown (seen_by self.old.ledger)
            (entry (if is_ok result then Deleted else Broken) (req.Rule family rule.now) ∷ []) }
        ensures used { room_by self.new.ledger self.new.tables ≡ used (room_by self.old.ledger self.old.tables)
            (entry (if is_ok result then Deleted else Broken) (req.Rule family rule.now)) }
        ensures faults { self.new.faults ≡ self.old.faults }
    {
        let rule = *rule;
        let breaks = self.faults.breaks_next(&self.ledger);
        self.ledger
            .ask_deletion(Request::Rule { family, rule }, breaks)?;
        match family {
            Family::V4 => self.rules4.cut(&rule),
            Family::V6 => self.rules6.cut(&rule),
        }
        Ok(())
    }

    /// It is refused by the number of the routes of all tables.
    fn add_route(&mut self, table: u32, route: &Route) -> Result<(), KernelFault>
        requires absent { IsTrue (is_absent (state_of (seen_by self.old.ledger))
            (req.Route table route.now)) }
        requires spare { 0 < (room_by self.old.ledger self.old.tables).spare }
        requires ready { (room_by self.old.ledger self.old.tables).ready ≡ Some table }
        ensures cause { is_ok result ≡ not (F.refuses self.old.faults (seen_by self.old.ledger)
            (route_total (state_of (seen_by self.old.ledger)).tables)) }
        ensures grown { seen_by self.new.ledger ≡ grown (seen_by self.old.ledger)
            (entry (if is_ok result then Added else Refused) (req.Route table route.now) ∷ []) }
        ensures used { room_by self.new.ledger self.new.tables ≡ used (room_by self.old.ledger self.old.tables)
            (entry (if is_ok result then Added else Refused) (req.Route table route.now)) }
        ensures faults { self.new.faults ≡ self.old.faults }
    {
        let route = *route;
        let refused = self.faults.refuses_next(&self.ledger, self.tables.total());
        match self
            .ledger
            .ask_addition(Request::Route { table, route }, refused)
        {
            Err(fault) => {
                self.tables.use_up();
                Err(fault)
            }
            Ok(()) => {
                self.tables.add(table, route);
                Ok(())
            }
        }
    }

    fn delete_route(&mut self, table: u32, route: &Route) -> Result<(), KernelFault>
        requires present { IsTrue (is_present (state_of (seen_by self.old.ledger))
            (req.Route table route.now)) }
        requires spare { 0 < (room_by self.old.ledger self.old.tables).spare }
        ensures cause { is_ok result ≡ not (F.breaks self.old.faults (seen_by self.old.ledger)) }
        ensures grown { seen_by self.new.ledger ≡ grown (seen_by self.old.ledger)
            (entry (if is_ok result then Deleted else Broken) (req.Route table route.now) ∷ []) }
        ensures used { room_by self.new.ledger self.new.tables ≡ used (room_by self.old.ledger self.old.tables)
            (entry (if is_ok result then Deleted else Broken) (req.Route table route.now)) }
        ensures faults { self.new.faults ≡ self.old.faults }
    {
        let route = *route;
        let breaks = self.faults.breaks_next(&self.ledger);
        self.ledger
            .ask_deletion(Request::Route { table, route }, breaks)?;
        self.tables.delete(table, &route);
        Ok(())
    }

    fn next_match(&self, packet: &Packet, from: u64) -> Option<FoundRule> {
        match packet.family() {
            Family::V4 => self.rules4.next_match(packet, from),
            Family::V6 => self.rules6.next_match(packet, from),
        }
    }

    fn rule_count(&self, family: Family) -> u64 {
        match family {
            Family::V4 => self.rules4.count(),
            Family::V6 => self.rules6.count(),
        }
    }

    fn rule_at(&self, family: Family, place: u64) -> Option<Rule> {
        match family {
            Family::V4 => self.rules4.rule_at(place),
            Family::V6 => self.rules6.rule_at(place),
        }
    }

    fn route_count(&self, table: u32) -> u64 {
        self.tables.route_count(table) as u64
    }

    fn route_at(&self, table: u32, place: u64) -> Option<Route> {
        self.tables.route_at(table, place as usize)
    }

    fn lookup(&self, table: u32, dest: Addr, bound: Option<u16>) -> Option<Route> {
        self.tables.lookup(table, dest, bound)
    }

    fn entry_count(&self) -> u64 {
        self.ledger.len()
    }

    fn entry_at(&self, place: u64) -> Option<Entry> {
        self.ledger.entry_at(place)
    }
}

impl<R: RuleStore> Armed for LedgerKernel<R, ByLists> {
    ghost use Rattle.kernel_ledger.specs.Seen.{some_lists};

    ghost has_lists = { λ k. some_lists k.ledger.lists k.keeps_lists };

    fn arm(&mut self, refuse: Vec<u64>, breaks: Vec<u64>) {
        self.ledger.arm(refuse, breaks);
    }
}
