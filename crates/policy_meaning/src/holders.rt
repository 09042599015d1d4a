// The networks that hold a packet's user, by rising rank.
ghost use Rattle.std.specs.Prelude.{◌≡◌, ◌&&◌};
ghost use Rattle.std.specs.Option.{option_map};
ghost use Rattle.network_store.specs.Stored as stored;
ghost use Rattle.network_store.specs.Store.{nets_of};
ghost use Rattle.policy_meaning.specs.Asking.{holder_at, is_meant};
ghost use Rattle.policy_meaning.specs.Policy.{
  only_if,
  first_given,
  asks,
  by_routes,
  holds_at,
  asks_holders,
};

use crate::asking::ask;
use crate::rights::is_usable;
use network_store::{StoredKind, StoredNetwork, StoredNetworks};
use policy_state::State;
use rule_match::{Packet, Verdict};

const RANKS: u8 = 100;

/// Which networks hold users.
#[derive(Clone, Copy)]
pub enum Holder {
    /// A secure VPN holds its users.
    Secure,
    /// A bypassable VPN holds its users.
    Bypass,
    /// A physical network holds the apps that prefer it, where they may use it.
    Preferred,
}

impl Holder {
    fn is_meant(self, packet: &Packet, kind: &StoredKind) -> bool
        ensures { result ≡ is_meant self packet.now (stored.kind_of kind.now) }
    {
        match self {
            Holder::Secure => kind.is_secure(),
            Holder::Bypass => kind.is_bypass(),
            Holder::Preferred => is_usable(packet, kind),
        }
    }

    // The network that holds the packet's user at this rank, or that the user's app prefers at it.
    fn at_rank<'a>(
        self,
        networks: &'a StoredNetworks,
        packet: &Packet,
        rank: u8,
    ) -> Option<&'a StoredNetwork>
        ensures { option_map (λ n. stored.net_of n.now) result ≡
            holder_at self packet.now.uid.number rank (nets_of networks.now) }
    {
        match self {
            Holder::Secure => networks.holder_at(true, rank, packet.uid()),
            Holder::Bypass => networks.holder_at(false, rank, packet.uid()),
            Holder::Preferred => networks.preferred_at(rank, packet.uid()),
        }
    }
}

fn ask_at_rank(holder: Holder, state: &State, packet: &Packet, rank: u8) -> Option<Verdict>
    ensures { result ≡ first_given (λ n. only_if (asks n packet.now)
        (is_meant holder packet.now n.kind && holds_at packet.now.uid.number rank n))
        state.now.networks }
{
    let network = holder.at_rank(state.networks(), packet, rank)?;
    if holder.is_meant(packet, &network.kind) {
        ask(network, packet)
    } else {
        None
    }
}

/// What the first of these networks says that says something.
pub fn ask_holders(holder: Holder, state: &State, packet: &Packet) -> Option<Verdict>
    ensures { result ≡ asks_holders (by_routes packet.now) state.now packet.now
        (is_meant holder packet.now) }
{
    for rank in 0..RANKS {
        let answer = ask_at_rank(holder, state, packet, rank);
        if answer.is_some() {
            return answer;
        }
    }
    None
}
