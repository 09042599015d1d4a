ghost use Rattle.std.specs.Prelude.{◌≡◌, slice_get};
ghost use Rattle.kernel_model.specs.Next.{next_match};
ghost use Rattle.rule_index.specs.Index.{IsIndexed, listed_of};

use crate::search::{first_same, least};
use crate::sorted::{cut, place_of, put};
use crate::spot::{Sorting, keyed_of, spot_by};
use kernel_ledger::RuleStore;
use kernel_model::FoundRule;
use number_runs::Runs;
use rule_match::{Packet, Rule};
use std::alloc::{AllocError, Global};
use std::marker::Model;

/// The rules of one family, by rising priority, new ones after those of equal priority.
#[derive(Drop)]
pub struct RuleIndex {
    /// All that arrived, in order; those that were taken out too. The number of a rule is its place here.
    rules: Vec<Rule>,
    /// The numbers of those that stand, by priority and arrival.
    order: Runs,
    /// The same, by priority, group, value and arrival.
    keyed: Runs,
}

impl Model for RuleIndex {
    ghost use Rattle.std.specs.Prelude.{◌-◌, vec_len, vec_capacity};
    ghost use Rattle.rule_index.specs.Index.{IndexView, listed_of, IsIndexed, room_of};

    ghost Value = { IndexView };

    ghost view = { λ x. record {
      list = listed_of x.rules.items x.order.numbers;
      room = room_of (vec_len x.rules) (vec_capacity x.rules - vec_len x.rules) x.order.room x.keyed.room;
    } };

    ghost invariant = { λ x. IsIndexed x.rules.items x.order.numbers x.keyed.numbers };
}

impl RuleStore for RuleIndex {
    ghost rules = { λ index. index.list };

    ghost room = { λ index. index.room };

    fn empty(alloc: Global) -> Self {
        RuleIndex {
            rules: Vec::new(alloc),
            order: Runs::new(alloc),
            keyed: Runs::new(alloc),
        }
    }

    /// Makes room for this number of rules more. A number has 32 bits, so after 4,294,967,295 arrivals there is none.
    fn reserve(&mut self, more: u64) -> Result<(), AllocError> {
        if more > (u32::MAX as u64).saturating_sub(self.rules.len() as u64) {
            return Err(AllocError);
        }
        self.rules.reserve(more as usize)?;
        self.order.reserve(more as usize)?;
        self.keyed.reserve(more as usize)
    }

    fn put(&mut self, rule: &Rule) {
        let number = self.rules.len() as u32;
        let _ = self.rules.push(*rule);
        put(&self.rules, Sorting::ByArrival, &mut self.order, number);
        put(&self.rules, Sorting::ByKey, &mut self.keyed, number);
    }

    fn cut(&mut self, rule: &Rule) {
        if let Some(number) = first_same(&self.rules, &self.keyed, rule, &keyed_of(rule, 0)) {
            cut(&self.rules, Sorting::ByArrival, &mut self.order, number);
            cut(&self.rules, Sorting::ByKey, &mut self.keyed, number);
        }
    }

    fn count(&self) -> u64 {
        self.order.len() as u64
    }

    fn rule_at(&self, place: u64) -> Option<Rule> {
        rule_in(&self.rules, &self.order, &self.keyed, place as usize)
    }

    fn next_match(&self, packet: &Packet, from: u64) -> Option<FoundRule> {
        // Often it is the rule at the place itself.
        let rule = self.rule_at(from)?;
        if rule.matches(packet) {
            return Some(FoundRule { place: from, rule });
        }
        next_in(&self.rules, &self.order, &self.keyed, packet, from as usize)
    }
}

fn rule_of(rules: &[Rule], number: u32) -> Option<Rule>
    ensures { result ≡ slice_get rules.now number }
{
    rules.get(number as usize).copied()
}

fn rule_in(rules: &[Rule], order: &Runs, keyed: &Runs, place: usize) -> Option<Rule>
    requires { IsIndexed rules.now order.now.numbers keyed.now.numbers }
    ensures { result ≡ slice_get (listed_of rules.now order.now.numbers) place }
{
    match order.get(place) {
        Some(number) => rule_of(rules, number),
        None => None,
    }
}

// The first rule that matches, from a place on, looked for by what rules select.
fn next_in(
    rules: &[Rule],
    order: &Runs,
    keyed: &Runs,
    packet: &Packet,
    from: usize,
) -> Option<FoundRule>
    requires { IsIndexed rules.now order.now.numbers keyed.now.numbers }
    ensures { result ≡ next_match (listed_of rules.now order.now.numbers) packet.now from }
{
    let Some(number) = order.get(from) else {
        return None;
    };
    let first = spot_by(rules, Sorting::ByArrival, number);
    let Some(spot) = least(rules, keyed, packet, &first) else {
        return None;
    };
    let place = place_of(rules, Sorting::ByArrival, order, &spot.flat()) as u64;
    match rule_of(rules, spot.number) {
        Some(rule) => Some(FoundRule { place, rule }),
        None => None,
    }
}
