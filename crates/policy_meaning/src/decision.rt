// The decision on a packet, point by point.
ghost use Rattle.std.specs.Prelude.{◌≡◌, ◌&&◌, ◌||◌, ◌==◌, not, true};
ghost use Rattle.fwmark.specs.Mark.{net_of, is_explicit, is_protected, has_system};
ghost use Rattle.networks.specs.Kinds.{is_free, is_secure, is_bypass};
ghost use Rattle.policy_meaning.specs.Asking.{first_of};
ghost use Rattle.policy_meaning.specs.Policy.{
  only_if,
  first_given,
  by_routes,
  may_choose,
  asks_named,
  asks_local,
  asks_default,
  names_virtual,
  is_usable,
  asks_holders,
  is_loopback,
  may_use_lo,
  is_to_device,
  is_locked_down,
  root_interface,
  held,
  chosen,
  rest,
  asks_pair,
  policy_made,
  policy_passed,
  policy,
};
ghost use Rattle.rule_match.specs.Packet.{is_made};
ghost use Rattle.uid_ranges.specs.Ranges.{any_holds};

use crate::asking::ask_link;
use crate::holders::{Holder, ask_holders};
use crate::named::{
    Naming, ask_bound, ask_default, ask_local, ask_named, ask_reached, names_virtual,
};
use crate::rights::{has_system, is_explicit, is_protected, is_root, names_none};
use policy_state::{State, TetherPair};
use prefixes::Addr;
use rule_match::{LOOPBACK, Packet, Verdict};
use uid_ranges::UidRange;

fn is_loopback(dest: Addr) -> bool
    ensures { result ≡ is_loopback dest }
{
    match dest {
        Addr::V4(value) => value >> 24 == 127,
        Addr::V6(value) => value == 1,
    }
}

fn may_use_lo(bound: Option<u16>) -> bool
    ensures { result ≡ may_use_lo bound }
{
    match bound {
        None => true,
        Some(link) => link == LOOPBACK,
    }
}

fn is_to_device(packet: &Packet) -> bool
    ensures { result ≡ is_to_device packet.now }
{
    is_loopback(packet.dest()) && may_use_lo(packet.outgoing())
}

fn any_holds(ranges: &[UidRange], packet: &Packet) -> bool
    ensures { result ≡ any_holds ranges.now packet.now.uid.number }
{
    ranges.iter().any(|range| range.holds(packet.uid()))
}

fn is_locked_down(state: &State, packet: &Packet) -> bool
    ensures { result ≡ is_locked_down state.now packet.now }
{
    !is_protected(packet) && any_holds(state.lockdown(), packet)
}

fn root_interface(state: &State, packet: &Packet) -> Option<Verdict>
    ensures { result ≡ root_interface (by_routes packet.now) state.now packet.now }
{
    if is_root(packet) {
        ask_reached(state, packet)
    } else {
        None
    }
}

fn ask_secure_with_system(state: &State, packet: &Packet) -> Option<Verdict>
    ensures { result ≡ only_if (asks_named (by_routes packet.now) state.now packet.now
        (λ n. is_secure n.kind)) (has_system packet.now.mark) }
{
    if has_system(packet) {
        ask_named(Naming::Secure, state, packet)
    } else {
        None
    }
}

fn ask_secure_holders(state: &State, packet: &Packet) -> Option<Verdict>
    ensures { result ≡ only_if (asks_holders (by_routes packet.now) state.now packet.now is_secure)
        (not (is_protected packet.now.mark)) }
{
    if is_protected(packet) {
        None
    } else {
        ask_holders(Holder::Secure, state, packet)
    }
}

fn ask_explicit(state: &State, packet: &Packet) -> Option<Verdict>
    ensures { result ≡ only_if (asks_named (by_routes packet.now) state.now packet.now
        (may_choose packet.now)) (is_explicit packet.now.mark) }
{
    if is_explicit(packet) {
        ask_named(Naming::Chosen, state, packet)
    } else {
        None
    }
}

fn ask_local_implied(state: &State, packet: &Packet) -> Option<Verdict>
    ensures { result ≡ only_if (asks_local (by_routes packet.now) state.now)
        (not (is_explicit packet.now.mark)) }
{
    if is_explicit(packet) {
        None
    } else {
        ask_local(state, packet)
    }
}

fn ask_free_implied(state: &State, packet: &Packet) -> Option<Verdict>
    ensures { result ≡ only_if (asks_named (by_routes packet.now) state.now packet.now
        (λ n. is_free n.kind)) (not (is_explicit packet.now.mark)) }
{
    if is_explicit(packet) {
        None
    } else {
        ask_named(Naming::Free, state, packet)
    }
}

fn ask_bypass_with_system(state: &State, packet: &Packet) -> Option<Verdict>
    ensures { result ≡ only_if (asks_named (by_routes packet.now) state.now packet.now
        (λ n. is_bypass n.kind)) (has_system packet.now.mark) }
{
    if has_system(packet) {
        ask_named(Naming::Bypassable, state, packet)
    } else {
        None
    }
}

fn ask_bypass_holders(state: &State, packet: &Packet) -> Option<Verdict>
    ensures { result ≡ only_if (asks_holders (by_routes packet.now) state.now packet.now is_bypass)
        (not (is_protected packet.now.mark) && not (is_explicit packet.now.mark)) }
{
    if is_protected(packet) || is_explicit(packet) {
        None
    } else {
        ask_holders(Holder::Bypass, state, packet)
    }
}

fn ask_preferred(state: &State, packet: &Packet) -> Option<Verdict>
    ensures { result ≡ only_if (asks_holders (by_routes packet.now) state.now packet.now
        (is_usable packet.now)) (net_of packet.now.mark == 0) }
{
    if names_none(packet) {
        ask_holders(Holder::Preferred, state, packet)
    } else {
        None
    }
}

// The default network, for what names no network, and in place of a VPN that isn't selected
// explicitly.
fn ask_fallback(state: &State, packet: &Packet) -> Option<Verdict>
    ensures { result ≡ only_if (asks_default (by_routes packet.now) state.now packet.now)
        ((net_of packet.now.mark == 0)
        || (names_virtual state.now packet.now && not (is_explicit packet.now.mark))) }
{
    if names_none(packet) || names_virtual(state, packet) && !is_explicit(packet) {
        ask_default(state, packet)
    } else {
        None
    }
}

fn ask_held(state: &State, packet: &Packet) -> Option<Verdict>
    ensures { result ≡ first_of (held (by_routes packet.now) state.now packet.now) }
{
    ask_secure_with_system(state, packet).or_else(|| ask_secure_holders(state, packet))
}

fn ask_chosen(state: &State, packet: &Packet) -> Option<Verdict>
    ensures { result ≡ first_of (chosen (by_routes packet.now) state.now packet.now) }
{
    ask_explicit(state, packet).or_else(|| ask_bound(state, packet))
}

fn ask_rest(state: &State, packet: &Packet) -> Option<Verdict>
    ensures { result ≡ first_of (rest (by_routes packet.now) state.now packet.now) }
{
    ask_local_implied(state, packet)
        .or_else(|| ask_free_implied(state, packet))
        .or_else(|| ask_bypass_with_system(state, packet))
        .or_else(|| ask_bypass_holders(state, packet))
        .or_else(|| ask_preferred(state, packet))
        .or_else(|| ask_fallback(state, packet))
}

fn decide_made(state: &State, packet: &Packet) -> Verdict
    requires { is_made packet.now ≡ true }
    ensures { result ≡ policy_made (by_routes packet.now) state.now packet.now }
{
    if is_to_device(packet) {
        return Verdict::Local;
    }
    let answer = root_interface(state, packet).or_else(|| ask_held(state, packet));
    if let Some(verdict) = answer {
        return verdict;
    }
    if is_locked_down(state, packet) {
        return Verdict::Prohibited;
    }
    ask_chosen(state, packet)
        .or_else(|| ask_rest(state, packet))
        .unwrap_or(Verdict::Unreachable)
}

// What the output of the pair says, where the packet came by its input.
fn ask_pair(state: &State, packet: &Packet, pair: TetherPair) -> Option<Verdict>
    ensures { result ≡ asks_pair (by_routes packet.now) state.now packet.now pair }
{
    if pair.input != packet.incoming() {
        return None;
    }
    let network = state.networks().network_of(pair.out)?;
    ask_link(network, pair.out, packet)
}

fn ask_pairs(state: &State, packet: &Packet) -> Option<Verdict>
    ensures { result ≡ first_given (asks_pair (by_routes packet.now) state.now packet.now)
        state.now.pairs }
{
    for pair in state.pairs() {
        let answer = ask_pair(state, packet, *pair);
        if answer.is_some() {
            return answer;
        }
    }
    None
}

fn decide_passed(state: &State, packet: &Packet) -> Verdict
    ensures { result ≡ policy_passed (by_routes packet.now) state.now packet.now }
{
    if is_loopback(packet.dest()) {
        return Verdict::Local;
    }
    ask_local(state, packet)
        .or_else(|| ask_pairs(state, packet))
        .unwrap_or(Verdict::Unreachable)
}

/// Where the packet is to go. Takes no memory.
#[tactic(auto, unfolding(crate::specs::Policy::policy))]
pub fn decide(state: &State, packet: &Packet) -> Verdict
    ensures { result ≡ policy state.now packet.now }
{
    if packet.is_made() {
        decide_made(state, packet)
    } else {
        decide_passed(state, packet)
    }
}
