//! The whole table: row by row, and in a row with ranks rank by rank.
ghost use Rattle.std.specs.Prelude.{◌≡◌, ◌==◌, ◌≤◌, ◌++◌, filter, flat_map, IfOk, OnOk};
ghost use Rattle.std.specs.Option.{option_map};
ghost use Rattle.rule_kinds.specs.Kind.{rule_kind};
ghost use Rattle.rule_law.specs.Rules.{HasEachOnce};
ghost use Rattle.policy_state.specs.Good.{IsGood};
ghost use Rattle.policy_state.specs.Rows.{default_of, numbers_from};
ghost use Rattle.policy_state.specs.Table.{in_order, rules_in, rule_table};
ghost use Rattle.rule_compile.specs.Shapes.{shape_net, unrouted};

use crate::change_parts::home_of;
use crate::rows::{nothing, push_each, push_networks};
use crate::rule::rule_of;
use crate::shape::Shape;
use policy_state::{OnePer, ROWS, Row, State};
use rule_match::Rule;
use std::alloc::{AllocError, Global};

/// How many ranks there are.
const RANKS: u32 = 100;

/// Appends those of the rules that have the priority.
fn push_at(rules: &mut Vec<Rule>, priority: u32, made: &[Rule]) -> Result<(), AllocError>
    ensures { IfOk result (λ _. rules.new.items ≡ rules.old.items ++
        filter (λ rule. rule.priority == priority) made.now) }
{
    for rule in made {
        if rule.priority == priority {
            rules.push(*rule)?;
        }
    }
    Ok(())
}

/// Appends those of the rules that have one of a hundred priorities, those of the lowest first.
fn push_by_rank(rules: &mut Vec<Rule>, base: u32, made: &[Rule]) -> Result<(), AllocError>
    requires few { base ≤ 0xffff }
    ensures { IfOk result (λ _. rules.new.items ≡ rules.old.items ++
        flat_map (λ priority. filter (λ rule. rule.priority == priority) made.now)
        (numbers_from base 100)) }
{
    for rank in 0..RANKS {
        push_at(rules, base + rank, made)?;
    }
    Ok(())
}

/// Appends the rules of a row, as its items come. It is lent the default network.
fn push_row(
    rules: &mut Vec<Rule>,
    row: &Row,
    state: &State,
    home: Option<Shape>,
) -> Result<(), AllocError>
    requires home { option_map shape_net home ≡ option_map unrouted (default_of state.now) }
    ensures { IfOk result (λ _. rules.new.items ≡ rules.old.items ++ rules_in state.now row.now) }
{
    match row.per {
        OnePer::Once => {
            rules.push(rule_of(row, &nothing()))?;
            Ok(())
        }
        OnePer::EachLockdown => push_each(rules, row, state.lockdown()),
        OnePer::EachPair => push_each(rules, row, state.pairs()),
        OnePer::EachOf(set, part) => {
            let networks = state.networks();
            push_networks(rules, row, set, part, state.default_net(), home, networks)
        }
    }
}

/// Appends the rules of a row in order of priority.
fn push_in_order(
    alloc: Global,
    rules: &mut Vec<Rule>,
    row: &Row,
    state: &State,
    home: Option<Shape>,
) -> Result<(), AllocError>
    requires good { IsGood state.now }
    requires home { option_map shape_net home ≡ option_map unrouted (default_of state.now) }
    ensures { IfOk result (λ _. rules.new.items ≡ rules.old.items ++
        in_order rule_kind (rules_in state.now row.now)) }
{
    if row.ranked {
        let mut made = Vec::new(alloc);
        push_row(&mut made, row, state, home)?;
        push_by_rank(rules, u32::from(row.base), &made)
    } else {
        push_row(rules, row, state, home)
    }
}

fn push_rows(
    alloc: Global,
    rules: &mut Vec<Rule>,
    rows: &[Row],
    state: &State,
    home: Option<Shape>,
) -> Result<(), AllocError>
    requires good { IsGood state.now }
    requires home { option_map shape_net home ≡ option_map unrouted (default_of state.now) }
    ensures { IfOk result (λ _. rules.new.items ≡ rules.old.items ++
        flat_map (λ row. in_order rule_kind (rules_in state.now row)) rows.now) }
{
    for row in rows {
        push_in_order(alloc, rules, row, state, home)?;
    }
    Ok(())
}

/// The rules that the kernel is to have in each family for this state, beside its own, in order.
pub fn rules(alloc: Global, state: &State) -> Result<Vec<Rule>, AllocError>
    ensures value { IfOk result (λ rules. rules.items ≡ rule_table state.now) }

    // no rule stands twice
    ensures once { OnOk result (HasEachOnce rule_kind (rule_table state.now)) }
{
    let home = home_of(state, state.default_net());
    let mut rules = Vec::new(alloc);
    push_rows(alloc, &mut rules, &ROWS, state, home)?;
    Ok(rules)
}
