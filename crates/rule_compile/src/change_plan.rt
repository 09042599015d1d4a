//! What a change asks of a kernel, made from the part of the state that it touches alone.
ghost use Rattle.std.specs.Prelude.{◌≡◌, IfOk};
ghost use Rattle.commands.specs.declared.command.Command.{Command};
ghost use Rattle.kernel_model.specs.Switch.{twins};
ghost use Rattle.policy_state.specs.Change.{turned, Fits};
ghost use Rattle.policy_state.specs.Good.{IsGood};
ghost use Rattle.policy_state.specs.Routed.{NamesRoutes};
ghost use Rattle.policy_state.specs.Step.{changed};
ghost use Rattle.policy_state.specs.Table.{in_order};
ghost use Rattle.rule_compile.specs.Asked.{asked};
ghost use Rattle.rule_compile.specs.Planned.{planned};
ghost use Rattle.rule_kinds.specs.Kind.{rule_kind};

use crate::change_routes::{routes_that_come, routes_that_go, routes_that_go_first};
use crate::change_rules::{rules_that_come, rules_that_go};
use crate::requests::twins;
use crate::touched::put_in_order;
use kernel_model::{Plan, Request};
use policy_state::{Change, State};
use rule_match::Rule;
use std::alloc::{AllocError, Global};

/// The rules in order of priority, each for IPv4 and then for IPv6.
fn requests_in_order(alloc: Global, rules: &mut Vec<Rule>) -> Result<Vec<Request>, AllocError>
    ensures { IfOk result (λ requests. requests.items ≡ twins (in_order rule_kind rules.old.items)) }
{
    put_in_order(rules)?;
    twins(alloc, rules)
}

/// The rules that come with the change, and then its route.
fn additions(alloc: Global, state: &State, change: &Change) -> Result<Vec<Request>, AllocError>
    ensures { IfOk result (λ adds. adds.items ≡ (planned state.now change.now).adds) }
{
    let mut coming = rules_that_come(alloc, state, change)?;
    let mut adds = requests_in_order(alloc, &mut coming)?;
    adds.extend_from_slice(&routes_that_come(alloc, state, change)?)?;
    Ok(adds)
}

/// The rules that go with it, the last one first, between the routes that go before them and after them.
fn deletions(alloc: Global, state: &State, change: &Change) -> Result<Vec<Request>, AllocError>
    ensures { IfOk result (λ deletes. deletes.items ≡ (planned state.now change.now).deletes) }
{
    let mut going = rules_that_go(alloc, state, change)?;
    let mut gone = requests_in_order(alloc, &mut going)?;
    gone.reverse();
    let mut deletes = routes_that_go_first(alloc, state, change)?;
    deletes.extend_from_slice(&gone)?;
    deletes.extend_from_slice(&routes_that_go(alloc, state, change)?)?;
    Ok(deletes)
}

/// The plan by the part of the state that the change touches.
fn planned(alloc: Global, state: &State, change: &Change) -> Result<Plan, AllocError>
    ensures { IfOk result (λ plan. plan ≡ planned state.now change.now) }
{
    let adds = additions(alloc, state, change)?;
    let deletes = deletions(alloc, state, change)?;
    Ok(Plan::of(adds, deletes))
}

fn goodness(state: &State)
    ensures { IsGood state.now }
{
    state.networks();
}

/// What a kernel that stands for the state is asked, in order, so that it stands for the state after the change. Neither the
/// state after it nor a whole table of rules is made.
pub fn plan_change(alloc: Global, state: &State, change: &Change) -> Result<Plan, AllocError>
    requires fits { Fits change.now state.now }
    requires good_after { IsGood (turned change.now state.now) }

    // the plan of any command that makes this change of the state
    ensures { (command : Command) → NamesRoutes change.now state.now command
        → turned change.now state.now ≡ changed state.now command
        → IfOk result (λ plan. plan ≡ asked state.now command) }
{
    goodness(state);
    planned(alloc, state, change)
}
