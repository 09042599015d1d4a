ghost use Rattle.std.specs.Prelude.{◌≡◌, ◌<◌};
ghost use Rattle.rule_index.specs.Spots.{below, flat, size_of, level_of, group_of, value_of, keyed_of, standing_by, spot_by, outgoing_or, low_of, high_of, jump};

use kernel_model::OWN_RULE;
use rule_match::{Packet, Rule};

/// Where a rule stands: by priority, and of one priority by group and by value, and then by arrival. The number is that
/// of the rule's arrival, from 0.
#[derive(Clone, Copy, Debug, PartialEq, Eq)]
pub struct Spot {
    pub priority: u32,
    pub group: u8,
    pub value: u64,
    pub number: u32,
}

/// In which order the numbers of rules stand: by priority and arrival, or by priority, group, value and arrival.
#[derive(Clone, Copy, Debug, PartialEq, Eq)]
pub enum Sorting {
    ByArrival,
    ByKey,
}

/// The bits of a mark that hold the network.
const NETWORK: u32 = 0xffff;

/// The group of the rules that select one network. The groups 1 to 9 have those of the others that select UIDs, by the
/// size of their range.
const BY_NETWORK: u8 = 0;

/// Of the rest, those that select an outgoing link.
const BY_OUTGOING: u8 = 10;

/// And then those that select an incoming link.
const BY_INCOMING: u8 = 11;

/// All others.
const OTHERS: u8 = 12;

impl Spot {
    pub fn is_below(&self, other: &Spot) -> bool
        ensures { result ≡ below self.now other.now }
    {
        if self.priority != other.priority {
            return self.priority < other.priority;
        }
        if self.group != other.group {
            return self.group < other.group;
        }
        if self.value != other.value {
            return self.value < other.value;
        }
        self.number < other.number
    }

    /// The same, by priority and arrival alone.
    pub fn flat(&self) -> Spot
        ensures { result ≡ flat self.now }
    {
        Spot {
            priority: self.priority,
            group: 0,
            value: 0,
            number: self.number,
        }
    }
}

// The ranges of UIDs of a group reach less far than this.
fn size_of(group: u8) -> u64
    ensures value { result ≡ size_of group }
    ensures positive { 0 < result }
{
    if group == 1 {
        1
    } else if group == 2 {
        16
    } else if group == 3 {
        256
    } else if group == 4 {
        4096
    } else if group == 5 {
        65536
    } else if group == 6 {
        1048576
    } else if group == 7 {
        16777216
    } else if group == 8 {
        268435456
    } else {
        4294967296
    }
}

// The group of a range that reaches so far, from its first UID to its last.
fn level_of(reach: u32) -> u8
    ensures { result ≡ level_of reach }
{
    if reach < 1 {
        1
    } else if reach < 16 {
        2
    } else if reach < 256 {
        3
    } else if reach < 4096 {
        4
    } else if reach < 65536 {
        5
    } else if reach < 1048576 {
        6
    } else if reach < 16777216 {
        7
    } else if reach < 268435456 {
        8
    } else {
        9
    }
}

fn group_of(rule: &Rule) -> u8
    ensures { result ≡ group_of rule.now }
{
    if rule.mask & NETWORK == NETWORK {
        return BY_NETWORK;
    }
    if let Some(range) = rule.uids {
        return level_of(range.last.number - range.first.number);
    }
    if rule.outgoing.is_some() {
        return BY_OUTGOING;
    }
    if rule.incoming.is_some() {
        return BY_INCOMING;
    }
    OTHERS
}

fn value_of(rule: &Rule) -> u64
    ensures { result ≡ value_of rule.now }
{
    if rule.mask & NETWORK == NETWORK {
        return (rule.mark & NETWORK) as u64;
    }
    if let Some(range) = rule.uids {
        let size = size_of(level_of(range.last.number - range.first.number));
        return range.first.number as u64 / size;
    }
    if let Some(link) = rule.outgoing {
        return link as u64;
    }
    if let Some(link) = rule.incoming {
        return link as u64;
    }
    0
}

/// Where a rule stands that arrived with this number.
pub fn keyed_of(rule: &Rule, number: u32) -> Spot
    ensures { result ≡ keyed_of rule.now number }
{
    Spot {
        priority: rule.priority,
        group: group_of(rule),
        value: value_of(rule),
        number,
    }
}

// Where a rule of this number stands in such an order.
fn standing(rule: &Rule, sorting: Sorting, number: u32) -> Spot
    ensures { result ≡ standing_by sorting rule.now number }
{
    match sorting {
        Sorting::ByArrival => Spot {
            priority: rule.priority,
            group: 0,
            value: 0,
            number,
        },
        Sorting::ByKey => keyed_of(rule, number),
    }
}

/// Where the rule stands that arrived with this number.
pub fn spot_by(rules: &[Rule], sorting: Sorting, number: u32) -> Spot
    ensures { result ≡ spot_by sorting rules.now number }
{
    match rules.get(number as usize) {
        Some(rule) => standing(rule, sorting, number),
        None => standing(&OWN_RULE, sorting, number),
    }
}

// Whether a rule of this number stands below a spot. Most priorities differ, and then nothing else of the rule is looked at.
fn stands_below(rule: &Rule, sorting: Sorting, number: u32, target: &Spot) -> bool
    ensures { result ≡ below (standing_by sorting rule.now number) target.now }
{
    if rule.priority != target.priority {
        return rule.priority < target.priority;
    }
    standing(rule, sorting, number).is_below(target)
}

/// Whether the rule that arrived with this number stands below a spot.
pub fn is_below(rules: &[Rule], sorting: Sorting, number: u32, target: &Spot) -> bool
    ensures { result ≡ below (spot_by sorting rules.now number) target.now }
{
    match rules.get(number as usize) {
        Some(rule) => stands_below(rule, sorting, number, target),
        None => stands_below(&OWN_RULE, sorting, number, target),
    }
}

// The least value of the group's rules that can match the packet.
fn low_of(packet: &Packet, group: u8) -> u64
    ensures { result ≡ low_of packet.now group }
{
    if group == BY_NETWORK {
        (packet.mark & NETWORK) as u64
    } else if group == BY_OUTGOING {
        outgoing_or(packet, 1)
    } else if group == BY_INCOMING {
        packet.incoming as u64
    } else if group == OTHERS {
        0
    } else {
        (packet.uid.number as u64 / size_of(group)).saturating_sub(1)
    }
}

// The link that the packet is bound to.
fn outgoing_or(packet: &Packet, none: u64) -> u64
    ensures { result ≡ outgoing_or packet.now none }
{
    match packet.outgoing {
        Some(link) => link as u64,
        None => none,
    }
}

// The greatest value of the group's rules that can match the packet; none where it is below the least.
fn high_of(packet: &Packet, group: u8) -> u64
    ensures { result ≡ high_of packet.now group }
{
    if group == BY_NETWORK {
        (packet.mark & NETWORK) as u64
    } else if group == BY_OUTGOING {
        outgoing_or(packet, 0)
    } else if group == BY_INCOMING {
        packet.incoming as u64
    } else if group == OTHERS {
        0
    } else {
        packet.uid.number as u64 / size_of(group)
    }
}

/// Where a search goes on from a spot at which no rule can match the packet.
pub fn jump(packet: &Packet, spot: &Spot) -> Option<Spot>
    ensures { result ≡ jump packet.now spot.now }
{
    let low = low_of(packet, spot.group);
    if spot.value < low {
        return Some(Spot {
            priority: spot.priority,
            group: spot.group,
            value: low,
            number: 0,
        });
    }
    if high_of(packet, spot.group) < spot.value {
        return Some(Spot {
            priority: spot.priority,
            group: spot.group.saturating_add(1),
            value: 0,
            number: 0,
        });
    }
    None
}
