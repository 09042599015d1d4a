ghost use Rattle.std.specs.Prelude.{◌≡◌, Option, None};
ghost use Rattle.std.specs.Option.{option_map};
ghost use Rattle.std.specs.List.{find};
ghost use Rattle.rule_match.specs.Rule.{same_rule};
ghost use Rattle.rule_index.specs.Spots.{below, flat, jump, spot_by};
ghost use Rattle.rule_index.specs.Sorted.{Rises, spots_by};
ghost use Rattle.rule_index.specs.Search.{fits, better, least, is_past, is_number_of, first_same, AreKeyed};
ghost use Rattle.rule_index.specs.declared.spot.Sorting.TheVariants.{ByKey};

use crate::sorted::{rest_from, skip};
use crate::spot::{Sorting, Spot, jump, spot_by};
use number_runs::{Rest, Runs};
use rule_match::{Packet, Rule, same_rule};

// Whether the rule of the spot matches, and isn't before this place in the list.
fn fits(rules: &[Rule], packet: &Packet, from: &Spot, spot: &Spot) -> bool
    ensures { result ≡ fits rules.now packet.now from.now spot.now }
{
    if spot.flat().is_below(from) {
        return false;
    }
    match rules.get(spot.number as usize) {
        Some(rule) => rule.matches(packet),
        None => false,
    }
}

// The earlier of what was found and of this spot, where it fits.
fn better(
    rules: &[Rule],
    packet: &Packet,
    from: &Spot,
    found: Option<Spot>,
    spot: &Spot,
) -> Option<Spot>
    ensures { result ≡ better rules.now packet.now from.now found spot.now }
{
    match found {
        None => if fits(rules, packet, from, spot) {
            Some(*spot)
        } else {
            None
        },
        Some(best) => if spot.flat().is_below(&best.flat()) && fits(rules, packet, from, spot) {
            Some(*spot)
        } else {
            Some(best)
        },
    }
}

fn is_past(found: Option<Spot>, spot: &Spot) -> bool
    ensures { result ≡ is_past found spot.now }
{
    match found {
        None => false,
        Some(best) => best.priority < spot.priority,
    }
}

/// The first rule of the list that matches, from a place on.
pub fn least(rules: &[Rule], keyed: &Runs, packet: &Packet, from: &Spot) -> Option<Spot>
    requires rises { Rises (spots_by ByKey rules.now keyed.now.numbers) }
    requires keys { AreKeyed rules.now (spots_by ByKey rules.now keyed.now.numbers) }
    ensures { result ≡ least rules.now packet.now from.now None
        (spots_by ByKey rules.now keyed.now.numbers) }
{
    let start = Spot {
        priority: from.priority,
        group: 0,
        value: 0,
        number: 0,
    };
    let mut rest = rest_from(rules, Sorting::ByKey, keyed, &start);
    let mut found = None;
    while let Some(number) = rest.next() {
        let spot = spot_by(rules, Sorting::ByKey, number);
        if is_past(found, &spot) {
            return found;
        }
        match jump(packet, &spot) {
            Some(target) => skip(rules, Sorting::ByKey, &mut rest, &target),
            None => found = better(rules, packet, from, found, &spot),
        }
    }
    found
}

fn is_number_of(rules: &[Rule], rule: &Rule, number: u32) -> bool
    ensures { result ≡ is_number_of rules.now rule.now number }
{
    match rules.get(number as usize) {
        Some(x) => same_rule(rule, x),
        None => false,
    }
}

// The first number whose rule is this one.
fn find_same(rules: &[Rule], rest: &mut Rest<'_>, rule: &Rule) -> Option<u32>
    ensures { result ≡ find (is_number_of rules.now rule.now) rest.old }
{
    while let Some(number) = rest.next() {
        if is_number_of(rules, rule, number) {
            return Some(number);
        }
    }
    None
}

/// The first number of the list whose rule is this one, looked for from a spot on.
pub fn first_same(rules: &[Rule], keyed: &Runs, rule: &Rule, start: &Spot) -> Option<u32>
    requires rises { Rises (spots_by ByKey rules.now keyed.now.numbers) }
    ensures { option_map (spot_by ByKey rules.now) result ≡
        first_same rules.now rule.now start.now (spots_by ByKey rules.now keyed.now.numbers) }
{
    let mut rest = rest_from(rules, Sorting::ByKey, keyed, start);
    find_same(rules, &mut rest, rule)
}
