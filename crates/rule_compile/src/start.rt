ghost use Rattle.std.specs.Prelude.{◌≡◌, [], IfOk};
ghost use Rattle.policy_state.specs.Table.{start_rules};
ghost use Rattle.kernel_model.specs.Switch.{twins};

use crate::requests::twins;
use crate::table::rules;
use kernel_model::Plan;
use policy_state::State;
use std::alloc::{AllocError, Global};

/// What a starting kernel is asked, in order, so that it stands for the first state.
#[tactic(auto, unfolding(policy_state::specs::Table::rule_table))]
pub fn start_plan(alloc: Global) -> Result<Plan, AllocError>
    ensures { IfOk result (λ plan. plan ≡ record { adds = twins start_rules; deletes = [] }) }
{
    let state = State::start(alloc)?;
    let adds = twins(alloc, &rules(alloc, &state)?)?;
    Ok(Plan::of(adds, Vec::new(alloc)))
}
