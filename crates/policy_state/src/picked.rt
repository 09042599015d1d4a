//! Which networks a row has rules for.
ghost use Rattle.std.specs.Prelude.{◌≡◌};
ghost use Rattle.std.specs.Option.{option_map};
ghost use Rattle.network_store.specs.Store.{nets_of};
ghost use Rattle.network_store.specs.Stored.{net_of};
ghost use Rattle.policy_state.specs.Good.{AreNetworks};
ghost use Rattle.policy_state.specs.Rows.{is_default, default_among, picks};

use crate::row::NetworkSet;
use network_store::{StoredNetwork, StoredNetworks};

/// Whether this is the id of the default network.
pub(crate) fn is_default(default: Option<u16>, id: u16) -> bool
    ensures { result ≡ is_default default id }
{
    match default {
        None => false,
        Some(default) => default == id,
    }
}

/// Whether a row has rules for the network.
pub fn picks(set: NetworkSet, default: Option<u16>, network: &StoredNetwork) -> bool
    ensures { result ≡ picks set default (net_of network.now) }
{
    match set {
        NetworkSet::OfLocal => network.kind.is_local(),
        NetworkSet::OfPhysical => network.kind.is_physical(),
        NetworkSet::OfFree => network.kind.is_free(),
        NetworkSet::OfDefault => network.kind.is_physical() && is_default(default, network.id),
        NetworkSet::OfVirtual => network.kind.is_virtual(),
        NetworkSet::OfSecure => network.kind.is_secure(),
        NetworkSet::OfBypass => network.kind.is_bypass(),
    }
}

/// The default network.
pub fn default_network(networks: &StoredNetworks, default: Option<u16>) -> Option<&StoredNetwork>
    requires { AreNetworks (nets_of networks.now) }
    ensures { option_map (λ n. net_of n.now) result ≡ default_among (nets_of networks.now) default }
{
    let Some(id) = default else {
        return None;
    };
    let Some(network) = networks.get(id) else {
        return None;
    };
    if network.kind.is_physical() {
        Some(network)
    } else {
        None
    }
}
