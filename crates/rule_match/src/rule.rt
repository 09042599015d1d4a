ghost use Rattle.std.specs.Prelude.{◌≡◌};
ghost use Rattle.rule_match.specs.Rule.{selects_link, selects_uid, matches};

use crate::packet::Packet;
use uid_ranges::{Uid, UidRange};

/// What a rule does with the packets that it matches: it looks in a table, or it ends the search.
#[derive(Clone, Copy, Debug, PartialEq, Eq)]
pub enum Action {
    Table(u32),
    Prohibit,
    Unreachable,
}

/// A rule: its priority, the lower the earlier; its selectors, of which `mark` is the value that a packet's mark has
/// under `mask`; and its action.
#[derive(Clone, Copy, Debug, PartialEq, Eq)]
pub struct Rule {
    pub priority: u32,
    pub mark: u32,
    pub mask: u32,
    pub incoming: Option<u16>,
    pub outgoing: Option<u16>,
    pub uids: Option<UidRange>,
    pub action: Action,
}

fn selects_link(stated: Option<u16>, link: Option<u16>) -> bool
    ensures { result ≡ selects_link stated link }
{
    match (stated, link) {
        (None, _) => true,
        (Some(_), None) => false,
        (Some(stated), Some(link)) => stated == link,
    }
}

fn selects_uid(stated: Option<UidRange>, uid: Uid) -> bool
    ensures { result ≡ selects_uid stated uid.number }
{
    match stated {
        None => true,
        Some(range) => range.holds(uid),
    }
}

impl Rule {
    /// Whether each selector holds of the packet.
    pub fn matches(&self, packet: &Packet) -> bool
        ensures { result ≡ matches self.now packet.now }
    {
        packet.mark & self.mask == self.mark
            && selects_link(self.incoming, Some(packet.incoming))
            && selects_link(self.outgoing, packet.outgoing)
            && selects_uid(self.uids, packet.uid)
    }
}
