ghost use Rattle.std.specs.Prelude.{◌≡◌, ℕ, List, [], ◌+◌, ◌<◌, ◌≤◌, IsTrue, OnOk, length, slice_get};
ghost use Rattle.rule_law.specs.Rules.{placed, without};
ghost use Rattle.rule_match.specs.declared.rule.Rule.{Rule};
ghost use Rattle.kernel_model.specs.Kind.{rule_kind};
ghost use Rattle.kernel_model.specs.Next.{next_match};
ghost use Rattle.kernel_model.specs.State.{has_rule};

use kernel_model::FoundRule;
use rule_match::{Packet, Rule};
use std::alloc::{AllocError, Global};

/// The rules of one family, in a kernel's order. Only `reserve` takes memory.
pub trait RuleStore: Drop {
    ghost rules: { Self → List Rule };

    /// How many rules can be put in without memory.
    ghost room: { Self → ℕ };

    /// No rules.
    fn empty(alloc: Global) -> Self
    where
        Self: Sized,
        ensures { rules result ≡ [] };

    /// Makes room for this number of rules more.
    fn reserve(&mut self, more: u64) -> Result<(), AllocError>
        ensures rules { rules self.new ≡ rules self.old }
        ensures room { OnOk result (more ≤ room self.new) }
        ensures no_less { room self.old ≤ room self.new };

    /// Puts a rule after those whose priority isn't greater, in the room that is there.
    fn put(&mut self, rule: &Rule)
        requires { 0 < room self.old }
        ensures rules { rules self.new ≡ placed rule_kind rule.now (rules self.old) }
        ensures room { room self.old ≤ room self.new + 1 };

    /// Takes a rule out.
    fn cut(&mut self, rule: &Rule)
        requires { IsTrue (has_rule rule.now (rules self.old)) }
        ensures rules { rules self.new ≡ without rule_kind rule.now (rules self.old) }
        ensures room { room self.old ≤ room self.new };

    fn count(&self) -> u64
        ensures { result ≡ length (rules self.now) };

    /// The rule at a place, from 0.
    fn rule_at(&self, place: u64) -> Option<Rule>
        ensures { result ≡ slice_get (rules self.now) place };

    /// The first rule that the packet matches, from this place on.
    fn next_match(&self, packet: &Packet, from: u64) -> Option<FoundRule>
        ensures { result ≡ next_match (rules self.now) packet.now from };
}
