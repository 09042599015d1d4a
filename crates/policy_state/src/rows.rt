//! The rows of the rule table, after netd's RouteController: its levels are named where a row has one of them.

use crate::row::{NetworkPart, NetworkSet, OnePer, OnlyUser, Row, Selector, Target};
use fwmark::Permission;

// What selects every packet.
const EVERY: Row = Row {
    base: 0,
    ranked: false,
    per: OnePer::Once,
    net: Selector::Unstated,
    explicit: None,
    guarded: None,
    needs: Selector::Unstated,
    incoming: Selector::Unstated,
    bound: false,
    users: Selector::Unstated,
    target: Target::ToLink,
};

// What selects every packet that the device made: it comes by link 1, `lo`.
const MADE: Row = Row {
    incoming: Selector::OfRow(1),
    ..EVERY
};

// RULE_PRIORITY_VPN_OVERRIDE_OIF: root's packets that are bound to an interface of a physical network, even under lockdown.
const ROOT_PHYSICAL: Row = Row {
    base: 10500,
    per: OnePer::EachOf(NetworkSet::OfPhysical, NetworkPart::EachInterface),
    needs: Selector::OfItem,
    bound: true,
    users: Selector::OfRow(OnlyUser::Root),
    ..MADE
};

// The same for an interface of the local network.
const ROOT_LOCAL: Row = Row {
    base: 10500,
    per: OnePer::EachOf(NetworkSet::OfLocal, NetworkPart::EachInterface),
    bound: true,
    users: Selector::OfRow(OnlyUser::Root),
    target: Target::ToLocal,
    ..MADE
};

// RULE_PRIORITY_VPN_OUTPUT_TO_LOCAL: what comes in by a VPN's interface goes to the local network.
const VIRTUAL_TO_LOCAL: Row = Row {
    base: 11000,
    per: OnePer::EachOf(NetworkSet::OfVirtual, NetworkPart::EachInterface),
    incoming: Selector::OfItem,
    target: Target::ToLocal,
    ..EVERY
};

// What names a secure VPN and has system. netd has no level of its own for it.
const SECURE_NAMED: Row = Row {
    base: 11900,
    per: OnePer::EachOf(NetworkSet::OfSecure, NetworkPart::EachInterface),
    net: Selector::OfItem,
    needs: Selector::OfRow(Permission::System),
    ..EVERY
};

// RULE_PRIORITY_SECURE_VPN: unprotected packets of a secure VPN's users.
const SECURE_USERS: Row = Row {
    base: 12000,
    ranked: true,
    per: OnePer::EachOf(NetworkSet::OfSecure, NetworkPart::EachRange),
    guarded: Some(false),
    users: Selector::OfItem,
    ..MADE
};

// RULE_PRIORITY_PROHIBIT_NON_VPN: unprotected packets of a range that is locked down.
const LOCKED_DOWN: Row = Row {
    base: 12500,
    per: OnePer::EachLockdown,
    guarded: Some(false),
    users: Selector::OfItem,
    target: Target::Prohibits,
    ..MADE
};

// RULE_PRIORITY_EXPLICIT_NETWORK: packets that select the network explicitly and have its permission.
const EXPLICIT_PHYSICAL: Row = Row {
    base: 13000,
    per: OnePer::EachOf(NetworkSet::OfPhysical, NetworkPart::EachInterface),
    net: Selector::OfItem,
    explicit: Some(true),
    needs: Selector::OfItem,
    ..MADE
};

// The same for the local network, which asks for none.
const EXPLICIT_LOCAL: Row = Row {
    base: 13000,
    per: OnePer::EachOf(NetworkSet::OfLocal, NetworkPart::Whole),
    net: Selector::OfItem,
    explicit: Some(true),
    target: Target::ToLocal,
    ..MADE
};

// The same for a VPN's users.
const EXPLICIT_VIRTUAL: Row = Row {
    base: 13000,
    per: OnePer::EachOf(NetworkSet::OfVirtual, NetworkPart::EachRange),
    net: Selector::OfItem,
    explicit: Some(true),
    users: Selector::OfItem,
    ..MADE
};

// Root's packets that select a VPN explicitly and have system. netd has no level of its own for it.
const EXPLICIT_ROOT: Row = Row {
    base: 13100,
    per: OnePer::EachOf(NetworkSet::OfVirtual, NetworkPart::EachInterface),
    net: Selector::OfItem,
    explicit: Some(true),
    needs: Selector::OfRow(Permission::System),
    users: Selector::OfRow(OnlyUser::Root),
    ..MADE
};

// RULE_PRIORITY_OUTPUT_INTERFACE: packets that are bound to the interface and have its network's permission.
const BOUND_PHYSICAL: Row = Row {
    base: 14000,
    per: OnePer::EachOf(NetworkSet::OfPhysical, NetworkPart::EachInterface),
    needs: Selector::OfItem,
    bound: true,
    ..MADE
};

// The same for the local network.
const BOUND_LOCAL: Row = Row {
    base: 14000,
    per: OnePer::EachOf(NetworkSet::OfLocal, NetworkPart::EachInterface),
    bound: true,
    target: Target::ToLocal,
    ..MADE
};

// The same for a VPN's users.
const BOUND_VIRTUAL: Row = Row {
    base: 14000,
    per: OnePer::EachOf(NetworkSet::OfVirtual, NetworkPart::EachRange),
    bound: true,
    users: Selector::OfItem,
    ..MADE
};

// RULE_PRIORITY_LOCAL_NETWORK: packets that select no network explicitly.
const LOCAL_LINKS: Row = Row {
    base: 17000,
    per: OnePer::Once,
    explicit: Some(false),
    target: Target::ToLocal,
    ..EVERY
};

// RULE_PRIORITY_TETHERING: what comes in by a pair's input goes by its output.
const TETHERED: Row = Row {
    base: 18000,
    per: OnePer::EachPair,
    incoming: Selector::OfItem,
    ..EVERY
};

// RULE_PRIORITY_IMPLICIT_NETWORK: packets that name the network without selecting it, where it asks for no permission.
const IMPLICIT: Row = Row {
    base: 19000,
    per: OnePer::EachOf(NetworkSet::OfFree, NetworkPart::EachInterface),
    net: Selector::OfItem,
    explicit: Some(false),
    ..MADE
};

// What names a bypassable VPN and has system. netd has no level of its own for it.
const BYPASS_NAMED: Row = Row {
    base: 19900,
    per: OnePer::EachOf(NetworkSet::OfBypass, NetworkPart::EachInterface),
    net: Selector::OfItem,
    needs: Selector::OfRow(Permission::System),
    ..EVERY
};

// RULE_PRIORITY_BYPASSABLE_VPN: unprotected packets of a bypassable VPN's users that select no network explicitly.
const BYPASS_USERS: Row = Row {
    base: 20000,
    ranked: true,
    per: OnePer::EachOf(NetworkSet::OfBypass, NetworkPart::EachRange),
    explicit: Some(false),
    guarded: Some(false),
    users: Selector::OfItem,
    ..MADE
};

// RULE_PRIORITY_VPN_FALLTHROUGH: what names a VPN without selecting it goes by the default network.
const SPLIT: Row = Row {
    base: 21000,
    per: OnePer::EachOf(NetworkSet::OfVirtual, NetworkPart::EachDefault),
    net: Selector::OfItem,
    explicit: Some(false),
    needs: Selector::OfItem,
    ..EVERY
};

// Packets of the apps that prefer a physical network and name none. netd has no level of its own for it.
const APP_USERS: Row = Row {
    base: 21500,
    ranked: true,
    per: OnePer::EachOf(NetworkSet::OfPhysical, NetworkPart::EachRange),
    net: Selector::OfRow(0),
    needs: Selector::OfItem,
    users: Selector::OfItem,
    ..MADE
};

// RULE_PRIORITY_DEFAULT_NETWORK: packets that name no network go by the default one.
const DEFAULT_LINKS: Row = Row {
    base: 22000,
    per: OnePer::EachOf(NetworkSet::OfDefault, NetworkPart::EachInterface),
    net: Selector::OfRow(0),
    needs: Selector::OfItem,
    ..MADE
};

// RULE_PRIORITY_UNREACHABLE: all packets.
const LAST: Row = Row {
    base: 32000,
    per: OnePer::Once,
    target: Target::Refuses,
    ..EVERY
};

/// All rows, by rising priority.
pub const ROWS: [Row; 22] = [
    ROOT_PHYSICAL,
    ROOT_LOCAL,
    VIRTUAL_TO_LOCAL,
    SECURE_NAMED,
    SECURE_USERS,
    LOCKED_DOWN,
    EXPLICIT_PHYSICAL,
    EXPLICIT_LOCAL,
    EXPLICIT_VIRTUAL,
    EXPLICIT_ROOT,
    BOUND_PHYSICAL,
    BOUND_LOCAL,
    BOUND_VIRTUAL,
    LOCAL_LINKS,
    TETHERED,
    IMPLICIT,
    BYPASS_NAMED,
    BYPASS_USERS,
    SPLIT,
    APP_USERS,
    DEFAULT_LINKS,
    LAST,
];
