ghost use Rattle.std.specs.Prelude.{◌≡◌};
ghost use Rattle.kernel_model.specs.Next.{next_match};

use crate::found::FoundRule;
use rule_match::{Packet, Rule};

/// The first rule of the list, from this place on, that the packet matches.
pub fn next_in(rules: &[Rule], packet: &Packet, from: u64) -> Option<FoundRule>
    ensures { result ≡ next_match rules.now packet.now from }
{
    for place in from..rules.len() as u64 {
        let rule = rules[place as usize];
        if rule.matches(packet) {
            return Some(FoundRule { place, rule });
        }
    }
    None
}
