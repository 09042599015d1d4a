ghost use Rattle.number_text.specs.Appends.{Appends};
ghost use Rattle.kernel_model.specs.State.{rules_of};
ghost use Rattle.kernel_model.specs.View.{state_of};
ghost use Rattle.report_text.specs.RuleTexts.{rule_line, rules_text};
ghost use Rattle.std.specs.Prelude.{◌≡◌, ◌<◌, Some, flat_map, length, slice_get};

use crate::rule::write_rule;
use kernel_model::Kernel;
use number_text::{append_byte, append_bytes, write_decimal};
use policy_state::State;
use prefixes::Family;
use rule_match::Rule;
use std::alloc::AllocError;

fn write_line(state: &State, rule: &Rule, out: &mut Vec<u8>) -> Result<(), AllocError>
    ensures { Appends out.old out.new result (rule_line state.now rule.now) }
{
    append_bytes(b"  ", out)?;
    write_rule(state, rule, out)?;
    append_byte(b'\n', out)
}

fn rule_at<K: Kernel>(kernel: &K, family: Family, place: u64) -> Rule
    requires { place < length (rules_of (state_of (K.seen kernel.now)) family) }
    ensures { slice_get (rules_of (state_of (K.seen kernel.now)) family) place ≡ Some result }
{
    kernel.rule_at(family, place).unwrap()
}

fn write_lines<K: Kernel>(
    kernel: &K,
    state: &State,
    family: Family,
    out: &mut Vec<u8>,
) -> Result<(), AllocError>
    ensures { Appends out.old out.new result
        (flat_map (rule_line state.now) (rules_of (state_of (K.seen kernel.now)) family)) }
{
    for place in 0..kernel.rule_count(family) {
        let rule = rule_at(kernel, family, place);
        write_line(state, &rule, out)?;
    }
    Ok(())
}

/// Appends how many rules a family has, and each rule in its order.
pub fn write_rules<K: Kernel>(
    kernel: &K,
    state: &State,
    family: Family,
    out: &mut Vec<u8>,
) -> Result<(), AllocError>
    ensures { Appends out.old out.new result
        (rules_text state.now (rules_of (state_of (K.seen kernel.now)) family)) }
{
    write_decimal(kernel.rule_count(family), out)?;
    append_bytes(b" rules\n", out)?;
    write_lines(kernel, state, family, out)
}
