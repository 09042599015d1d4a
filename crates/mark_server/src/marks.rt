// What the calls make of a mark. Each reads its fields, and writes those that the call is about.
ghost use Rattle.std.specs.Prelude.{◌≡◌};
ghost use Rattle.mark_server.specs.Fields.{fields_of, word_of};
ghost use Rattle.mark_server.specs.Marks as marks;
ghost use Rattle.network_store.specs.Stored.{net_of};

use crate::user_networks::{app_net, bypass_of, is_vpn, vpn_of};
use crate::users::{may_protect, user_bits};
use fwmark::Mark;
use network_store::StoredNetwork;
use policy_state::State;
use uid_ranges::Uid;

// The app's default network, or 0 where there is none.
fn app_or_0(state: &State, uid: Uid) -> u16
    ensures { result ≡ marks.app_or_0 state.now uid }
{
    app_net(state, uid).unwrap_or(0)
}

fn connected_net(state: &State, uid: Uid, word: u32) -> u16
    ensures { result ≡ marks.connected_net state.now uid (fields_of word) }
{
    let mark = Mark::of_bits(word);
    if mark.explicit {
        return mark.net;
    }
    if !mark.guarded {
        return match bypass_of(state, uid) {
            Some(net) => net,
            None => app_or_0(state, uid),
        };
    }
    if is_vpn(state, mark.net) {
        return mark.net;
    }
    app_or_0(state, uid)
}

/// The mark after a connect.
pub(crate) fn connected(state: &State, uid: Uid, word: u32) -> u32
    ensures { result ≡ word_of (marks.connected state.now uid (fields_of word)) }
{
    let old = Mark::of_bits(word);
    let mark = Mark {
        net: connected_net(state, uid, word),
        explicit: old.explicit,
        guarded: old.guarded,
        permission: user_bits(state, uid),
        upper: old.upper,
    };
    mark.bits()
}

/// The first mark of a socket that came in by an interface of the network.
pub(crate) fn accepted(state: &State, uid: Uid, network: &StoredNetwork) -> u32
    ensures { result ≡ word_of (marks.accepted state.now uid (net_of network.now)) }
{
    let mark = Mark {
        net: network.id,
        explicit: true,
        guarded: true,
        permission: network.kind.permission().bits() | user_bits(state, uid),
        upper: 0,
    };
    mark.bits()
}

/// The mark after network 0 was selected.
pub(crate) fn cleared(word: u32) -> u32
    ensures { result ≡ word_of (marks.cleared (fields_of word)) }
{
    let old = Mark::of_bits(word);
    let mark = Mark {
        net: 0,
        explicit: false,
        guarded: false,
        permission: 0,
        upper: old.upper,
    };
    mark.bits()
}

/// The mark after the network was selected.
pub(crate) fn selected(state: &State, uid: Uid, net: u16, word: u32) -> u32
    ensures { result ≡ word_of (marks.selected state.now uid net (fields_of word)) }
{
    let old = Mark::of_bits(word);
    let mark = Mark {
        net,
        explicit: true,
        guarded: may_protect(state, uid),
        permission: user_bits(state, uid),
        upper: old.upper,
    };
    mark.bits()
}

fn protected_net(state: &State, uid: Uid, word: u32) -> u16
    ensures { result ≡ (marks.protected state.now uid (fields_of word)).net }
{
    let mark = Mark::of_bits(word);
    if !mark.explicit && is_vpn(state, mark.net) {
        app_or_0(state, uid)
    } else {
        mark.net
    }
}

/// The mark of a socket that was protected from VPNs.
pub(crate) fn protected(state: &State, uid: Uid, word: u32) -> u32
    ensures { result ≡ word_of (marks.protected state.now uid (fields_of word)) }
{
    let old = Mark::of_bits(word);
    let mark = Mark {
        net: protected_net(state, uid, word),
        explicit: old.explicit,
        guarded: true,
        permission: old.permission | user_bits(state, uid),
        upper: old.upper,
    };
    mark.bits()
}

fn net_for(state: &State, user: Uid) -> u16
    ensures { result ≡ marks.net_for state.now user }
{
    match vpn_of(state, user) {
        Some(net) => net,
        None => app_or_0(state, user),
    }
}

/// The mark after the network of another user was selected.
pub(crate) fn selected_for(state: &State, uid: Uid, user: Uid, word: u32) -> u32
    ensures { result ≡ word_of (marks.selected_for state.now uid user (fields_of word)) }
{
    let old = Mark::of_bits(word);
    let mark = Mark {
        net: net_for(state, user),
        explicit: old.explicit,
        guarded: true,
        permission: user_bits(state, uid),
        upper: old.upper,
    };
    mark.bits()
}
