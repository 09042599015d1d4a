ghost use Rattle.std.specs.Prelude.{◌-◌, vec_len, vec_capacity};

use crate::lists::{insert_rule, remove_rule};
use kernel_ledger::RuleStore;
use kernel_model::{FoundRule, next_in};
use rule_match::{Packet, Rule};
use std::alloc::{AllocError, Global};

/// The rules of one family, in a list.
#[derive(Drop)]
pub struct RuleList {
    rules: Vec<Rule>,
}

impl RuleStore for RuleList {
    ghost rules = { λ list. list.rules.items };

    ghost room = { λ list. vec_capacity list.rules - vec_len list.rules };

    fn empty(alloc: Global) -> Self {
        RuleList {
            rules: Vec::new(alloc),
        }
    }

    fn reserve(&mut self, more: u64) -> Result<(), AllocError> {
        self.rules.reserve(more as usize)
    }

    fn put(&mut self, rule: &Rule) {
        insert_rule(&mut self.rules, *rule);
    }

    fn cut(&mut self, rule: &Rule) {
        remove_rule(&mut self.rules, rule);
    }

    fn count(&self) -> u64 {
        self.rules.len() as u64
    }

    fn rule_at(&self, place: u64) -> Option<Rule> {
        self.rules.get(place as usize).copied()
    }

    fn next_match(&self, packet: &Packet, from: u64) -> Option<FoundRule> {
        next_in(&self.rules, packet, from)
    }
}
