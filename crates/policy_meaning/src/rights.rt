// What a packet's mark and its user say, and which networks it may use by them.
ghost use Rattle.std.specs.Prelude.{◌≡◌, ◌==◌};
ghost use Rattle.fwmark.specs.Mark.{net_of, is_explicit, is_protected, has_system};
ghost use Rattle.network_store.specs.Stored as stored;
ghost use Rattle.policy_meaning.specs.Policy.{
  may_use,
  is_usable,
  may_reach,
  may_bind,
  may_choose,
};
ghost use Rattle.uid_ranges.specs.Ranks.{holds_user};

use fwmark::{Mark, Permission, suffices};
use network_store::{StoredKind, StoredNetwork, StoredRanges};
use rule_match::Packet;

/// Whether the mark selects its network explicitly.
pub fn is_explicit(packet: &Packet) -> bool
    ensures { result ≡ is_explicit packet.now.mark }
{
    Mark::of_bits(packet.mark()).explicit
}

/// Whether the packet is protected from VPNs.
pub fn is_protected(packet: &Packet) -> bool
    ensures { result ≡ is_protected packet.now.mark }
{
    Mark::of_bits(packet.mark()).guarded
}

pub fn has_system(packet: &Packet) -> bool
    ensures { result ≡ has_system packet.now.mark }
{
    Mark::of_bits(packet.mark()).permission == Permission::System.bits()
}

/// Whether the mark names no network.
pub fn names_none(packet: &Packet) -> bool
    ensures { result ≡ (net_of packet.now.mark == 0) }
{
    Mark::of_bits(packet.mark()).net == 0
}

pub fn is_root(packet: &Packet) -> bool
    ensures { result ≡ (packet.now.uid.number == 0) }
{
    packet.uid().number() == 0
}

/// Whether the mark suffices for the permission that the network asks for.
pub fn may_use(packet: &Packet, kind: &StoredKind) -> bool
    ensures { result ≡ may_use packet.now (stored.kind_of kind.now) }
{
    suffices(Mark::of_bits(packet.mark()).permission, kind.permission())
}

// Whether the packet's user is one of these.
fn holds(users: &StoredRanges, packet: &Packet) -> bool
    ensures { result ≡ holds_user users.now.ranges packet.now.uid.number }
{
    users
        .as_slice()
        .iter()
        .any(|range| range.users.holds(packet.uid()))
}

/// Whether the network is physical, and the mark suffices for its permission.
pub fn is_usable(packet: &Packet, kind: &StoredKind) -> bool
    ensures { result ≡ is_usable packet.now (stored.kind_of kind.now) }
{
    match kind {
        StoredKind::Physical { .. } => may_use(packet, kind),
        StoredKind::Local | StoredKind::Virtual { .. } => false,
    }
}

/// Whether root may reach the network's interfaces even under lockdown.
pub fn may_reach(packet: &Packet, network: &StoredNetwork) -> bool
    ensures { result ≡ may_reach packet.now (stored.net_of network.now) }
{
    match &network.kind {
        StoredKind::Local => true,
        StoredKind::Physical { .. } => may_use(packet, &network.kind),
        StoredKind::Virtual { .. } => false,
    }
}

/// Whether the packet may go by the network's interface to which it is bound.
pub fn may_bind(packet: &Packet, network: &StoredNetwork) -> bool
    ensures { result ≡ may_bind packet.now (stored.net_of network.now) }
{
    match &network.kind {
        StoredKind::Local => true,
        StoredKind::Physical { .. } => may_use(packet, &network.kind),
        StoredKind::Virtual { users, .. } => holds(users, packet),
    }
}

/// Whether the packet may choose the network.
pub fn may_choose(packet: &Packet, network: &StoredNetwork) -> bool
    ensures { result ≡ may_choose packet.now (stored.net_of network.now) }
{
    match &network.kind {
        StoredKind::Local => true,
        StoredKind::Physical { .. } => may_use(packet, &network.kind),
        StoredKind::Virtual { users, .. } => {
            holds(users, packet) || is_root(packet) && has_system(packet)
        }
    }
}
