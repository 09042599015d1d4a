// The networks that a packet names or is bound to, and the two that stand by.
ghost use Rattle.std.specs.Prelude.{◌≡◌};
ghost use Rattle.std.specs.Option.{option_map};
ghost use Rattle.network_store.specs.Stored as stored;
ghost use Rattle.fwmark.specs.Mark.{net_of};
ghost use Rattle.networks.specs.Lists.{find_id};
ghost use Rattle.policy_meaning.specs.Policy.{
  by_routes,
  may_reach,
  may_bind,
  asks_named,
  asks_bound,
  asks_local,
  asks_default,
  names_virtual,
};
ghost use Rattle.policy_meaning.specs.Named.{is_asked};
ghost use Rattle.policy_state.specs.Rows.{default_of};

use crate::asking::{ask, ask_link};
use crate::rights::{may_bind, may_choose, may_reach, may_use};
use fwmark::Mark;
use network_store::StoredNetwork;
use networks::LOCAL_ID;
use policy_state::State;
use rule_match::{Packet, Verdict};

// The network that the mark names.
fn named<'a>(state: &'a State, packet: &Packet) -> Option<&'a StoredNetwork>
    ensures { option_map (λ n. stored.net_of n.now) result ≡ find_id (net_of packet.now.mark) state.now.networks }
{
    state.networks().get(Mark::of_bits(packet.mark()).net)
}

/// Whether the mark names a VPN.
pub fn names_virtual(state: &State, packet: &Packet) -> bool
    ensures { result ≡ names_virtual state.now packet.now }
{
    match named(state, packet) {
        Some(network) => network.kind.is_virtual(),
        None => false,
    }
}

// The default network.
fn default_network(state: &State) -> Option<&StoredNetwork>
    ensures { option_map (λ n. stored.net_of n.now) result ≡ default_of state.now }
{
    let id = state.default_net()?;
    state.networks().get(id)
}

/// Which networks a level asks of those that marks name.
#[derive(Clone, Copy)]
pub enum Naming {
    /// The secure VPNs.
    Secure,
    /// The networks that ask for no permission.
    Free,
    /// The bypassable VPNs.
    Bypassable,
    /// Those that the packet may choose.
    Chosen,
}

fn is_asked(naming: Naming, packet: &Packet, network: &StoredNetwork) -> bool
    ensures { result ≡ is_asked naming packet.now (stored.net_of network.now) }
{
    match naming {
        Naming::Secure => network.kind.is_secure(),
        Naming::Free => network.kind.is_free(),
        Naming::Bypassable => network.kind.is_bypass(),
        Naming::Chosen => may_choose(packet, network),
    }
}

/// What the network says that the mark names, where the level asks it.
pub fn ask_named(naming: Naming, state: &State, packet: &Packet) -> Option<Verdict>
    ensures { result ≡ asks_named (by_routes packet.now) state.now packet.now
        (is_asked naming packet.now) }
{
    let network = named(state, packet)?;
    if is_asked(naming, packet, network) {
        ask(network, packet)
    } else {
        None
    }
}

/// What the interface says to which root is bound, where it may reach it.
pub fn ask_reached(state: &State, packet: &Packet) -> Option<Verdict>
    ensures { result ≡ asks_bound (by_routes packet.now) state.now packet.now
        (may_reach packet.now) }
{
    let link = packet.outgoing()?;
    let network = state.networks().network_of(link)?;
    if may_reach(packet, network) {
        ask_link(network, link, packet)
    } else {
        None
    }
}

/// What the interface says to which the packet is bound, where it may go by it.
pub fn ask_bound(state: &State, packet: &Packet) -> Option<Verdict>
    ensures { result ≡ asks_bound (by_routes packet.now) state.now packet.now
        (may_bind packet.now) }
{
    let link = packet.outgoing()?;
    let network = state.networks().network_of(link)?;
    if may_bind(packet, network) {
        ask_link(network, link, packet)
    } else {
        None
    }
}

/// What the local network says.
pub fn ask_local(state: &State, packet: &Packet) -> Option<Verdict>
    ensures { result ≡ asks_local (by_routes packet.now) state.now }
{
    let network = state.networks().get(LOCAL_ID)?;
    ask(network, packet)
}

/// What the default network says, where the packet may use it.
pub fn ask_default(state: &State, packet: &Packet) -> Option<Verdict>
    ensures { result ≡ asks_default (by_routes packet.now) state.now packet.now }
{
    let network = default_network(state)?;
    if may_use(packet, &network.kind) {
        ask(network, packet)
    } else {
        None
    }
}
