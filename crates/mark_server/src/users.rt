ghost use Rattle.std.specs.Prelude.{◌≡◌, ◌<◌};
ghost use Rattle.fwmark.specs.Permission.{bits_of};
ghost use Rattle.mark_server.specs.Users.{user_permission, has_system, may_protect};

use fwmark::Permission;
use policy_state::State;
use uid_ranges::Uid;

/// The first UID of an app. Those below are the system's own.
const FIRST_APP: u32 = 10000;

/// The permission that is stored for the user, or else the one that its UID gives.
pub fn user_permission(state: &State, uid: Uid) -> Permission
    ensures { result ≡ user_permission state.now uid }
{
    match state.permission_of(uid) {
        Some(permission) => permission,
        None if uid.number() < FIRST_APP => Permission::System,
        None => Permission::Nothing,
    }
}

/// Its two bits in a mark.
pub(crate) fn user_bits(state: &State, uid: Uid) -> u8
    ensures value { result ≡ bits_of (user_permission state.now uid) }
    ensures two_bits { result < 4 }
{
    user_permission(state, uid).bits()
}

/// Whether the user has the system's permission.
pub(crate) fn has_system(state: &State, uid: Uid) -> bool
    ensures { result ≡ has_system state.now uid }
{
    matches!(user_permission(state, uid), Permission::System)
}

/// Whether the user may protect sockets from VPNs.
pub fn may_protect(state: &State, uid: Uid) -> bool
    ensures { result ≡ may_protect state.now uid }
{
    has_system(state, uid) || state.is_protectable(uid)
}
