ghost use Rattle.std.specs.Prelude.{◌≡◌};
ghost use Rattle.std.specs.Option.{option_map};
ghost use Rattle.prefixes.specs.Best.{answer};
ghost use Rattle.kernel_model.specs.State.{routes_of};
ghost use Rattle.kernel_model.specs.View.{state_of};
ghost use Rattle.kernel_model.specs.Walk.{verdict_by, gives, walk};

use crate::kernel::Kernel;
use prefixes::Answer;
use rule_match::{Action, Packet, Rule, Verdict};

/// The table of the device's own addresses.
pub const DEVICE_TABLE: u32 = 255;

/// The rule that each family has from the start.
pub const OWN_RULE: Rule = Rule {
    priority: 0,
    mark: 0,
    mask: 0,
    incoming: None,
    outgoing: None,
    uids: None,
    action: Action::Table(DEVICE_TABLE),
};

/// The verdict of a table's answer. What this table sends out by a link is for the device itself.
pub fn verdict_by(table: u32, answer: Answer) -> Verdict
    ensures { result ≡ verdict_by table answer }
{
    match answer {
        Answer::Out { .. } if table == DEVICE_TABLE => Verdict::Local,
        Answer::Out { link, gateway } => Verdict::Out { link, gateway },
        Answer::Unreachable => Verdict::Unreachable,
    }
}

// What a table gives the packet.
fn answered<K: Kernel>(kernel: &K, table: u32, packet: &Packet) -> Option<Verdict>
    ensures { result ≡ option_map (verdict_by table)
        (answer (routes_of table (state_of (K.seen kernel.now)).tables) packet.now.dest
        packet.now.outgoing) }
{
    match kernel.lookup(table, packet.dest(), packet.outgoing()) {
        None => None,
        Some(route) => match route.out.answer() {
            None => None,
            Some(answer) => Some(verdict_by(table, answer)),
        },
    }
}

/// What an action gives the packet, if anything.
pub fn given<K: Kernel>(kernel: &K, action: Action, packet: &Packet) -> Option<Verdict>
    ensures { result ≡ gives (state_of (K.seen kernel.now)).tables action packet.now }
{
    match action {
        Action::Prohibit => Some(Verdict::Prohibited),
        Action::Unreachable => Some(Verdict::Unreachable),
        Action::Table(table) => answered(kernel, table, packet),
    }
}

/// Where a kernel sends a packet, from one rule that matches to the next.
pub(crate) fn walk_by_matches<K: Kernel>(kernel: &K, packet: &Packet) -> Verdict
    ensures { result ≡ walk (state_of (K.seen kernel.now)) packet.now }
{
    let count = kernel.rule_count(packet.family());
    let mut from = 0;
    while from < count {
        let Some(found) = kernel.next_match(packet, from) else {
            return Verdict::Unreachable;
        };
        if let Some(verdict) = given(kernel, found.rule.action, packet) {
            return verdict;
        }
        from = found.place + 1;
    }
    Verdict::Unreachable
}
