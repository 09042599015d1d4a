ghost use Rattle.std.specs.Prelude.{◌≡◌, true, false};
ghost use Rattle.mark_server.specs.Users.{holder, vpn_of, is_held, at_lowest, free_at, app_net, id_of, is_vpn_id};
ghost use Rattle.network_store.specs.Store.{nets_of};
ghost use Rattle.policy_state.specs.Good.{AreNetworks, IsGood};

use network_store::StoredNetworks;
use policy_state::State;
use uid_ranges::{LAST_RANK, Uid};

// The VPN of this kind whose range of the lowest rank holds the user.
fn holder(state: &State, secure: bool, uid: Uid) -> Option<u16>
    ensures network { result ≡ id_of (holder secure state.now uid) }
    ensures good { IsGood state.now }
{
    let networks = state.networks();
    for rank in 0..LAST_RANK + 1 {
        if let Some(network) = networks.holder_at(secure, rank, uid) {
            return Some(network.id);
        }
    }
    None
}

/// The bypassable VPN of the user.
pub(crate) fn bypass_of(state: &State, uid: Uid) -> Option<u16>
    ensures { result ≡ id_of (holder false state.now uid) }
{
    holder(state, false, uid)
}

/// Whether some secure VPN holds the user.
pub(crate) fn is_held(state: &State, uid: Uid) -> bool
    ensures { result ≡ is_held state.now uid }
{
    holder(state, true, uid).is_some()
}

/// The VPN of the user, of either kind.
pub(crate) fn vpn_of(state: &State, uid: Uid) -> Option<u16>
    ensures { result ≡ id_of (vpn_of state.now uid) }
{
    let Some(network) = state.networks().vpn_of(uid) else {
        return None;
    };
    Some(network.id)
}

// The physical network without a permission that the app prefers at this rank.
fn preferred_at(networks: &StoredNetworks, rank: u8, uid: Uid) -> Option<u16>
    requires { AreNetworks (nets_of networks.now) }
    ensures { result ≡ id_of (free_at rank uid.number (nets_of networks.now)) }
{
    let Some(network) = networks.preferred_at(rank, uid) else {
        return None;
    };
    if !network.kind.is_free() {
        return None;
    }
    Some(network.id)
}

// The one that it prefers at the lowest rank.
fn preferred(state: &State, uid: Uid) -> Option<u16>
    ensures { result ≡ id_of (at_lowest (λ rank. free_at rank uid.number state.now.networks)) }
{
    let networks = state.networks();
    for rank in 0..LAST_RANK + 1 {
        if let Some(net) = preferred_at(networks, rank, uid) {
            return Some(net);
        }
    }
    None
}

/// The default network of an app: the one that it prefers at the lowest rank, or else everyone's.
pub fn app_net(state: &State, uid: Uid) -> Option<u16>
    ensures { result ≡ app_net state.now uid }
{
    match preferred(state, uid) {
        Some(net) => Some(net),
        None => state.default_net(),
    }
}

/// Whether the network of this id is a VPN.
pub(crate) fn is_vpn(state: &State, net: u16) -> bool
    ensures { result ≡ is_vpn_id state.now net }
{
    match state.networks().get(net) {
        Some(network) => network.kind.is_virtual(),
        None => false,
    }
}
