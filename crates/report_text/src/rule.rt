ghost use Rattle.number_text.specs.Appends.{Appends};
ghost use Rattle.report_text.specs.RuleTexts.{incoming_part, mark_part, masked_text, outgoing_part, rule_text, selectors_text, uids_part};

use crate::link::write_link;
use crate::trail::write_action;
use number_text::{append_byte, append_bytes};
use policy_state::State;
use rule_match::Rule;
use std::alloc::AllocError;
use uid_ranges::UidRange;
use word_text::{write_mark, write_number, write_range};

fn write_masked(mark: u32, mask: u32, out: &mut Vec<u8>) -> Result<(), AllocError>
    ensures { Appends out.old out.new result (masked_text mark mask) }
{
    write_mark(mark, out)?;
    append_byte(b'/', out)?;
    write_mark(mask, out)
}

fn write_mark_part(mark: u32, mask: u32, out: &mut Vec<u8>) -> Result<(), AllocError>
    ensures { Appends out.old out.new result (mark_part mark mask) }
{
    if mask == 0 {
        return Ok(());
    }
    append_bytes(b" fwmark ", out)?;
    write_masked(mark, mask, out)
}

fn write_incoming(state: &State, link: Option<u16>, out: &mut Vec<u8>) -> Result<(), AllocError>
    ensures { Appends out.old out.new result (incoming_part state.now link) }
{
    match link {
        None => Ok(()),
        Some(link) => {
            append_bytes(b" iif ", out)?;
            write_link(state, link, out)
        }
    }
}

fn write_outgoing(state: &State, link: Option<u16>, out: &mut Vec<u8>) -> Result<(), AllocError>
    ensures { Appends out.old out.new result (outgoing_part state.now link) }
{
    match link {
        None => Ok(()),
        Some(link) => {
            append_bytes(b" oif ", out)?;
            write_link(state, link, out)
        }
    }
}

fn write_uids(uids: Option<UidRange>, out: &mut Vec<u8>) -> Result<(), AllocError>
    ensures { Appends out.old out.new result (uids_part uids) }
{
    match uids {
        None => Ok(()),
        Some(range) => {
            append_bytes(b" uidrange ", out)?;
            write_range(range, out)
        }
    }
}

fn write_selectors(state: &State, rule: &Rule, out: &mut Vec<u8>) -> Result<(), AllocError>
    ensures { Appends out.old out.new result (selectors_text state.now rule.now) }
{
    write_mark_part(rule.mark, rule.mask, out)?;
    write_incoming(state, rule.incoming, out)?;
    write_outgoing(state, rule.outgoing, out)?;
    write_uids(rule.uids, out)
}

/// Appends a rule, without spaces before it and without a line feed.
pub fn write_rule(state: &State, rule: &Rule, out: &mut Vec<u8>) -> Result<(), AllocError>
    ensures { Appends out.old out.new result (rule_text state.now rule.now) }
{
    write_number(rule.priority, out)?;
    append_bytes(b": from all", out)?;
    write_selectors(state, rule, out)?;
    append_byte(b' ', out)?;
    write_action(rule.action, out)
}
