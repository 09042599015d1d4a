// When two values are equal.
ghost use Rattle.std.specs.Prelude.{◌≡◌, ◌↔◌, IsTrue};
ghost use Rattle.std.specs.Option.{option_eq};
ghost use Rattle.uid_ranges.specs.Range.{same_range};
ghost use Rattle.rule_match.specs.Rule.{same_action, same_selectors, same_rule, AreSelectorsEqual};
ghost use Rattle.rule_match.specs.Verdict.{same_verdict};

use crate::rule::{Action, Rule};
use crate::verdict::Verdict;
use prefixes::{same_gateway, same_link};
use uid_ranges::UidRange;

fn same_uids(a: Option<UidRange>, b: Option<UidRange>) -> bool
    ensures { result ≡ option_eq same_range a b }
{
    match (a, b) {
        (None, None) => true,
        (Some(a), Some(b)) => a.is_same(&b),
        (Some(_), None) | (None, Some(_)) => false,
    }
}

/// Whether two actions are equal.
pub fn same_action(a: Action, b: Action) -> bool
    ensures value { result ≡ same_action a b }
    ensures equal { IsTrue result ↔ (a ≡ b) }
{
    match (a, b) {
        (Action::Table(a), Action::Table(b)) => a == b,
        (Action::Prohibit, Action::Prohibit) | (Action::Unreachable, Action::Unreachable) => true,
        (Action::Table(_) | Action::Prohibit | Action::Unreachable, _) => false,
    }
}

/// Whether two rules have the same selectors, and so match the same packets.
pub fn same_selectors(a: &Rule, b: &Rule) -> bool
    ensures value { result ≡ same_selectors a.now b.now }
    ensures equal { IsTrue result ↔ AreSelectorsEqual a.now b.now }
{
    a.mark == b.mark
        && a.mask == b.mask
        && same_link(a.incoming, b.incoming)
        && same_link(a.outgoing, b.outgoing)
        && same_uids(a.uids, b.uids)
}

/// Whether two rules are equal.
pub fn same_rule(a: &Rule, b: &Rule) -> bool
    ensures value { result ≡ same_rule a.now b.now }
    ensures equal { IsTrue result ↔ (a.now ≡ b.now) }
{
    a.priority == b.priority && same_selectors(a, b) && same_action(a.action, b.action)
}

/// Whether two verdicts are equal.
pub fn same_verdict(a: &Verdict, b: &Verdict) -> bool
    ensures value { result ≡ same_verdict a.now b.now }
    ensures equal { IsTrue result ↔ (a.now ≡ b.now) }
{
    match (*a, *b) {
        (
            Verdict::Out { link, gateway },
            Verdict::Out {
                link: other_link,
                gateway: other_gateway,
            },
        ) => link == other_link && same_gateway(gateway, other_gateway),
        (Verdict::Local, Verdict::Local)
        | (Verdict::Prohibited, Verdict::Prohibited)
        | (Verdict::Unreachable, Verdict::Unreachable) => true,
        (Verdict::Local | Verdict::Out { .. } | Verdict::Prohibited | Verdict::Unreachable, _) =>
            false,
    }
}
