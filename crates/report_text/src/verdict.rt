ghost use Rattle.std.specs.Prelude.{◌+◌, ◌≤◌, vec_capacity, vec_len, length, IsOk, OnOk};
ghost use Rattle.number_text.specs.Appends.{Appends};
ghost use Rattle.report_text.specs.Verdicts.{gateway_text, verdict_text};
ghost use Rattle.rule_match.specs.declared.verdict.Verdict.TheVariants as verdict;

use crate::link::write_link;
use addr_text::write_addr;
use number_text::append_bytes;
use policy_state::State;
use prefixes::Addr;
use rule_match::Verdict;
use std::alloc::AllocError;

pub fn write_gateway(gateway: Option<Addr>, out: &mut Vec<u8>) -> Result<(), AllocError>
    ensures { Appends out.old out.new result (gateway_text gateway) }
{
    match gateway {
        None => Ok(()),
        Some(gateway) => {
            append_bytes(b" via ", out)?;
            write_addr(gateway, out)
        }
    }
}

fn write_out(
    state: &State,
    link: u16,
    gateway: Option<Addr>,
    out: &mut Vec<u8>,
) -> Result<(), AllocError>
    ensures text { Appends out.old out.new result
        (verdict_text state.now (verdict.Out link gateway)) }
    ensures short { OnOk result
        (length (verdict_text state.now (verdict.Out link gateway)) ≤ 64) }
    ensures room { vec_len out.old + 64 ≤ vec_capacity out.old → IsOk result }
{
    append_bytes(b"out ", out)?;
    write_link(state, link, out)?;
    write_gateway(gateway, out)
}

/// Appends where a packet goes, without a line feed.
pub fn write_verdict(state: &State, verdict: &Verdict, out: &mut Vec<u8>) -> Result<(), AllocError>
    ensures text { Appends out.old out.new result (verdict_text state.now verdict.now) }
    ensures short { OnOk result (length (verdict_text state.now verdict.now) ≤ 64) }
    ensures room { vec_len out.old + 64 ≤ vec_capacity out.old → IsOk result }
{
    match *verdict {
        Verdict::Local => append_bytes(b"loopback", out),
        Verdict::Out { link, gateway } => write_out(state, link, gateway, out),
        Verdict::Prohibited => append_bytes(b"prohibited", out),
        Verdict::Unreachable => append_bytes(b"unreachable", out),
    }
}
