// A kernel that keeps one list of rules, and a journal of what it was asked.
ghost use Rattle.std.specs.Prelude.{◌≡◌, ◌+◌, ◌<◌, ◌≤◌, ◌++◌, ◌∷◌, [], is_ok, if◌then◌else◌, length, nat_lt, vec_len, vec_capacity};
ghost use Rattle.std.specs.List.{position, position_or_len};
ghost use Rattle.rule_law.specs.Rules.{placed, without};
ghost use Rattle.rule_law.specs.Plans.{Add, Delete};
ghost use Rattle.law_example.specs.Rules.{same_rule};
ghost use Rattle.law_example.specs.Kinds.{rule_kind};
ghost use Rattle.law_example.specs.Kernels.{rules_of, verdict_by};

use crate::rule::{Packet, Rule, Verdict};
use std::alloc::{AllocError, Global};
use std::marker::Model;

/// What a kernel has carried out.
#[derive(Clone, Copy, Debug, PartialEq, Eq)]
pub enum Entry {
    Added(Rule),
    Deleted(Rule),
}

/// A kernel. Contracts see it as the requests that it has carried out, the first one first.
#[derive(Drop)]
pub struct Kernel {
    rules: Vec<Rule>,
    journal: Vec<Entry>,
}

impl Model for Kernel {
    ghost use Rattle.std.specs.Prelude.{◌≡◌, List, map};
    ghost use Rattle.rule_law.specs.Plans.{Request};
    ghost use Rattle.law_example.specs.Kernels.{request_of, rules_of};
    ghost use Rattle.law_example.specs.declared.rule.Rule.{Rule};

    ghost Value = { List (Request Rule) };

    ghost view = { λ kernel. map request_of kernel.journal.items };

    ghost invariant = { λ kernel. kernel.rules.items ≡
        rules_of (map request_of kernel.journal.items) };
}

impl Kernel {
    /// A kernel without rules.
    pub fn new(alloc: Global) -> Self
        ensures { result ≡ [] }
    {
        Kernel {
            rules: Vec::new(alloc),
            journal: Vec::new(alloc),
        }
    }

    /// Puts a rule in after the last one whose priority isn't greater. Running out of memory changes nothing.
    pub fn add(&mut self, rule: &Rule) -> Result<(), AllocError>
        ensures { self.new ≡ (if is_ok result then self.old ++ Add rule.now ∷ [] else self.old) }
    {
        self.rules.reserve(1)?;
        self.journal.push(Entry::Added(*rule))?;
        put_in(&mut self.rules, *rule);
        Ok(())
    }

    /// Takes a rule out. Running out of memory changes nothing.
    pub fn delete(&mut self, rule: &Rule) -> Result<(), AllocError>
        ensures { self.new ≡ (if is_ok result then self.old ++ Delete rule.now ∷ [] else self.old) }
    {
        self.journal.push(Entry::Deleted(*rule))?;
        take_out(&mut self.rules, rule);
        Ok(())
    }

    /// What the first rule gives the packet that gives it anything.
    pub fn walk(&self, packet: &Packet) -> Verdict
        ensures { result ≡ verdict_by packet.now (rules_of self.now) }
    {
        walk_through(&self.rules, packet)
    }
}

fn walk_through(rules: &[Rule], packet: &Packet) -> Verdict
    ensures { result ≡ verdict_by packet.now rules.now }
{
    for rule in rules {
        if let Some(verdict) = rule.verdict(packet) {
            return verdict;
        }
    }
    Verdict::Unreachable
}

fn first_behind(rules: &[Rule], priority: u32) -> Option<usize>
    ensures { result ≡ position (λ other. nat_lt priority other.priority) rules.now }
{
    rules.iter().position(|other| priority < other.priority)
}

fn place_for(rules: &[Rule], priority: u32) -> usize
    ensures within { result ≤ length rules.now }
    ensures place { result ≡ position_or_len (λ other. nat_lt priority other.priority) rules.now }
{
    first_behind(rules, priority).unwrap_or(rules.len())
}

fn put_in(rules: &mut Vec<Rule>, rule: Rule)
    requires { vec_len rules.old < vec_capacity rules.old }
    ensures { rules.new.items ≡ placed rule_kind rule rules.old.items }
{
    let place = place_for(rules, rule.priority);
    let _ = rules.insert(place, rule);
}

fn find_rule(rules: &[Rule], rule: &Rule) -> Option<usize>
    ensures { result ≡ position (λ other. same_rule rule.now other) rules.now }
{
    rules.iter().position(|other| rule.is_same(other))
}

fn take_out(rules: &mut Vec<Rule>, rule: &Rule)
    ensures { rules.new.items ≡ without rule_kind rule.now rules.old.items }
{
    if let Some(place) = find_rule(rules, rule) {
        rules.remove(place);
    }
}
