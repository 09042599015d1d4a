// What the rule tables of states show, each law as the contract of a function with an empty body.
ghost use Rattle.std.specs.Prelude.{◌≡◌};
ghost use Rattle.policy_state.specs.Table.{rows, rule_table};
ghost use Rattle.policy_state.specs.View.{StateView};
ghost use Rattle.rule_kinds.specs.Kind.{rule_kind};
ghost use Rattle.rule_law.specs.Rules.{NoneBelow, Rises};

use crate::rows::ROWS;

/// The rows of the code are those of the table.
pub fn rows_are_those()
    ensures { ROWS ≡ rows }
{}

/// The rules of every state stand in order of rising priority, and none has the priority 0 of the kernel's own rule.
pub fn table_rises()
    ensures rises { (s : StateView) → Rises rule_kind (rule_table s) }
    ensures behind_own { (s : StateView) → NoneBelow rule_kind 1 (rule_table s) }
{}
