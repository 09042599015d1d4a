ghost use Rattle.std.specs.Prelude.{◌≡◌, ◌+◌, ◌<◌, ◌≤◌, length, IsTrue, nat_lt, vec_len, vec_capacity};
ghost use Rattle.std.specs.List.{position_or_len, position};
ghost use Rattle.rule_law.specs.Rules.{placed, without};
ghost use Rattle.rule_match.specs.Rule.{same_rule};
ghost use Rattle.kernel_model.specs.Kind.{rule_kind};
ghost use Rattle.kernel_model.specs.State.{has_rule};

use rule_match::{Rule, same_rule};

fn first_behind(rules: &[Rule], priority: u32) -> Option<usize>
    ensures { result ≡ position (λ x. nat_lt priority x.priority) rules.now }
{
    rules.iter().position(|x| priority < x.priority)
}

fn place_for(rules: &[Rule], priority: u32) -> usize
    ensures within { result ≤ length rules.now }
    ensures place { result ≡ position_or_len (λ x. nat_lt priority x.priority) rules.now }
{
    first_behind(rules, priority).unwrap_or(rules.len())
}

/// Puts a rule after those whose priority isn't greater, in the room that is there.
pub fn insert_rule(rules: &mut Vec<Rule>, rule: Rule)
    requires { vec_len rules.old < vec_capacity rules.old }
    ensures items { rules.new.items ≡ placed rule_kind rule rules.old.items }
    ensures len { vec_len rules.new ≡ vec_len rules.old + 1 }
    ensures capacity { vec_capacity rules.new ≡ vec_capacity rules.old }
{
    let place = place_for(rules, rule.priority);
    let _ = rules.insert(place, rule);
}

fn find_rule(rules: &[Rule], rule: &Rule) -> Option<usize>
    ensures { result ≡ position (same_rule rule.now) rules.now }
{
    rules.iter().position(|x| same_rule(rule, x))
}

/// Takes a rule out of its list.
pub fn remove_rule(rules: &mut Vec<Rule>, rule: &Rule)
    requires { IsTrue (has_rule rule.now rules.old.items) }
    ensures items { rules.new.items ≡ without rule_kind rule.now rules.old.items }
    ensures len { vec_len rules.new + 1 ≡ vec_len rules.old }
    ensures capacity { vec_capacity rules.new ≡ vec_capacity rules.old }
{
    if let Some(place) = find_rule(rules, rule) {
        rules.remove(place);
    }
}
