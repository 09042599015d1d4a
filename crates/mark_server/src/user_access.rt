ghost use Rattle.std.specs.Prelude.{◌≡◌};
ghost use Rattle.std.specs.List.{list_any};
ghost use Rattle.mark_server.specs.Access.{access};
ghost use Rattle.networks.specs.Kinds.{ranges_of};
ghost use Rattle.network_store.specs.Stored.{kind_of};
ghost use Rattle.uid_ranges.specs.Ranks.{holds_user};

use crate::user_networks::is_held;
use crate::users::{has_system, user_bits};
use fwmark::suffices;
use net_names::Code;
use network_store::StoredKind;
use policy_state::State;
use uid_ranges::Uid;

// Whether one of the network's ranges holds the user.
fn holds(kind: &StoredKind, uid: Uid) -> bool
    ensures { result ≡ holds_user (ranges_of (kind_of kind.now)) uid.number }
{
    kind.ranges().iter().any(|range| range.users.holds(uid))
}

/// Whether the user may use the network of this id, or why it may not.
pub fn access(state: &State, uid: Uid, net: u16) -> Result<(), Code>
    ensures { result ≡ access state.now uid net }
{
    let Some(network) = state.networks().get(net) else {
        return Err(Code::NoNetwork);
    };
    if has_system(state, uid) {
        return Ok(());
    }
    if network.kind.is_virtual() {
        return if holds(&network.kind, uid) {
            Ok(())
        } else {
            Err(Code::NotPermitted)
        };
    }
    if is_held(state, uid) && !state.is_protectable(uid) {
        return Err(Code::NotPermitted);
    }
    if suffices(user_bits(state, uid), network.kind.permission()) {
        Ok(())
    } else {
        Err(Code::AccessDenied)
    }
}
