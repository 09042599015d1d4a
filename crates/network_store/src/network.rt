ghost use Rattle.std.specs.Prelude.{◌≡◌, ◌≤◌, ◌<◌, ◌==◌, false, length, OnOk, IfOk};
ghost use Rattle.std.specs.List.{list_any};
ghost use Rattle.fwmark.specs.declared.permission.Permission.{Permission};
ghost use Rattle.networks.specs.Kinds.{permission_of, ranges_of, is_local, is_physical, is_virtual, is_free, is_secure, is_bypass};
ghost use Rattle.networks.specs.Network.{has_link, is_keyed_by};
ghost use Rattle.uid_ranges.specs.Ranges.{AreDisjoint, meets_any};
ghost use Rattle.uid_ranges.specs.Ranks.{last_rank, has_users, users_meet};
ghost use Rattle.network_store.specs.Holders.{is_vpn};
ghost use Rattle.network_store.specs.Stored as stored;

use crate::ranges::StoredRanges;
use arrayvec::ArrayVec;
use fwmark::Permission;
use networks::LinkRoute;
use prefixes::Route;
use route_store::RouteStore;
use std::alloc::{AllocError, Global};
use uid_ranges::{Ranked, UidRange};

/// The most interfaces of a network.
pub const MOST_INTERFACES: usize = 8;

/// What a network is for, as `networks::Kind`, with room for more ranges.
#[derive(Drop)]
pub enum StoredKind {
    Local,
    Physical {
        permission: Permission,
        apps: StoredRanges,
    },
    Virtual {
        secure: bool,
        users: StoredRanges,
    },
}

/// A network as `networks::Network`, with room for more routes and ranges.
#[derive(Drop)]
pub struct StoredNetwork {
    pub id: u16,
    pub kind: StoredKind,
    pub interfaces: ArrayVec<u16, MOST_INTERFACES>,
    pub routes: RouteStore,
}

fn has_link(interfaces: &[u16], link: u16) -> bool
    ensures { result ≡ list_any (λ other. other == link) interfaces.now }
{
    interfaces.iter().any(|other| *other == link)
}

fn has_users(ranges: &[Ranked], range: UidRange) -> bool
    ensures { result ≡ has_users ranges.now range }
{
    ranges.iter().any(|one| range.is_same(&one.users))
}

fn meets_any(one: &Ranked, list: &[UidRange]) -> bool
    ensures { result ≡ meets_any one.now.users list.now }
{
    list.iter().any(|other| one.users.meets(other))
}

fn users_meet(ranges: &[Ranked], list: &[UidRange]) -> bool
    ensures { result ≡ users_meet ranges.now list.now }
{
    ranges.iter().any(|one| meets_any(one, list))
}

impl StoredKind {
    /// The permission that the network asks for.
    pub fn permission(&self) -> Permission
        ensures { result ≡ permission_of (stored.kind_of self.now) }
    {
        match self {
            StoredKind::Physical { permission, .. } => *permission,
            StoredKind::Local | StoredKind::Virtual { .. } => Permission::Nothing,
        }
    }

    /// The apps that a physical network is preferred for, or the users of a VPN.
    pub fn ranges(&self) -> &[Ranked]
        ensures { result.now ≡ ranges_of (stored.kind_of self.now) }
    {
        match self {
            StoredKind::Local => &[],
            StoredKind::Physical { apps, .. } => apps.as_slice(),
            StoredKind::Virtual { users, .. } => users.as_slice(),
        }
    }

    pub fn is_local(&self) -> bool
        ensures { result ≡ is_local (stored.kind_of self.now) }
    {
        matches!(self, StoredKind::Local)
    }

    pub fn is_physical(&self) -> bool
        ensures { result ≡ is_physical (stored.kind_of self.now) }
    {
        matches!(self, StoredKind::Physical { .. })
    }

    pub fn is_virtual(&self) -> bool
        ensures { result ≡ is_virtual (stored.kind_of self.now) }
    {
        matches!(self, StoredKind::Virtual { .. })
    }

    /// Whether it is physical and asks for no permission.
    pub fn is_free(&self) -> bool
        ensures { result ≡ is_free (stored.kind_of self.now) }
    {
        match self {
            StoredKind::Physical { permission, .. } => *permission == Permission::Nothing,
            StoredKind::Local | StoredKind::Virtual { .. } => false,
        }
    }

    /// Whether it is a VPN that leaves its users no other way.
    pub fn is_secure(&self) -> bool
        ensures { result ≡ is_secure (stored.kind_of self.now) }
    {
        match self {
            StoredKind::Virtual { secure, .. } => *secure,
            StoredKind::Local | StoredKind::Physical { .. } => false,
        }
    }

    /// Whether it is a VPN that its users may pass by.
    pub fn is_bypass(&self) -> bool
        ensures { result ≡ is_bypass (stored.kind_of self.now) }
    {
        match self {
            StoredKind::Virtual { secure, .. } => !*secure,
            StoredKind::Local | StoredKind::Physical { .. } => false,
        }
    }

    /// Whether this very range stands among them, at whatever rank.
    pub fn has(&self, range: UidRange) -> bool
        ensures { result ≡ has_users (ranges_of (stored.kind_of self.now)) range }
    {
        has_users(self.ranges(), range)
    }

    /// Whether one of them meets one of these.
    pub fn meets(&self, list: &[UidRange]) -> bool
        ensures { result ≡ users_meet (ranges_of (stored.kind_of self.now)) list.now }
    {
        users_meet(self.ranges(), list)
    }

    /// Whether it is a VPN of this kind.
    pub(crate) fn is_vpn(&self, secure: bool) -> bool
        ensures { result ≡ is_vpn secure (stored.kind_of self.now) }
    {
        if secure {
            self.is_secure()
        } else {
            self.is_bypass()
        }
    }

    // The same kind, with no room for more.
    fn copy(&self) -> Result<StoredKind, AllocError>
        ensures { IfOk result (λ copy. stored.kind_of copy ≡ stored.kind_of self.now) }
    {
        match self {
            StoredKind::Local => Ok(StoredKind::Local),
            StoredKind::Physical { permission, apps } => Ok(StoredKind::Physical {
                permission: *permission,
                apps: apps.copy()?,
            }),
            StoredKind::Virtual { secure, users } => Ok(StoredKind::Virtual {
                secure: *secure,
                users: users.copy()?,
            }),
        }
    }

    fn reserve_ranges(&mut self, more: usize) -> Result<(), AllocError>
        ensures kind { stored.kind_of self.new ≡ stored.kind_of self.old }
        ensures room { OnOk result (stored.HasKindRoom more self.new) }
    {
        match self {
            StoredKind::Local => Ok(()),
            StoredKind::Physical { apps, .. } => apps.reserve(more),
            StoredKind::Virtual { users, .. } => users.reserve(more),
        }
    }

    fn add_ranges(&mut self, more: &[UidRange], rank: u8)
        requires room { stored.HasKindRoom (length more.now) self.old }
        requires in_range { rank ≤ last_rank }
        requires disjoint { AreDisjoint more.now }
        requires apart { users_meet (ranges_of (stored.kind_of self.old)) more.now ≡ false }
        ensures { stored.kind_of self.new ≡
            stored.kind_with rank more.now (stored.kind_of self.old) }
    {
        match self {
            StoredKind::Local => {}
            StoredKind::Physical { apps, .. } => apps.add_all(more, rank),
            StoredKind::Virtual { users, .. } => users.add_all(more, rank),
        }
    }

    fn remove_ranges(&mut self, gone: &[UidRange])
        ensures { stored.kind_of self.new ≡ stored.kind_without gone.now (stored.kind_of self.old) }
    {
        match self {
            StoredKind::Local => {}
            StoredKind::Physical { apps, .. } => apps.remove_all(gone),
            StoredKind::Virtual { users, .. } => users.remove_all(gone),
        }
    }

    fn set_permission(&mut self, needed: Permission)
        ensures { stored.kind_of self.new ≡ stored.kind_needing needed (stored.kind_of self.old) }
    {
        match self {
            StoredKind::Physical { permission, .. } => *permission = needed,
            StoredKind::Local | StoredKind::Virtual { .. } => {}
        }
    }
}

impl Clone for StoredNetwork {
    ghost use Rattle.std.specs.Prelude.{◌≡◌};
    ghost use Rattle.network_store.specs.Stored.{net_of};

    // with no room for more
    ghost is_clone = { λ one copy. net_of copy ≡ net_of one };

    fn clone(&self) -> Result<StoredNetwork, AllocError> {
        Ok(StoredNetwork {
            id: self.id,
            kind: self.kind.copy()?,
            interfaces: self.interfaces.clone()?,
            routes: self.routes.copy()?,
        })
    }
}

impl StoredNetwork {
    pub(crate) fn new(alloc: Global, id: u16, kind: StoredKind) -> StoredNetwork
        ensures net { stored.net_of result ≡ stored.bare_net id (stored.kind_of kind) }
        ensures id { result.id ≡ id }
    {
        StoredNetwork {
            id,
            kind,
            interfaces: ArrayVec::new(),
            routes: RouteStore::empty(alloc),
        }
    }

    /// Whether the link is an interface of the network.
    pub fn has_link(&self, link: u16) -> bool
        ensures { result ≡ has_link (stored.net_of self.now) link }
    {
        has_link(&self.interfaces, link)
    }

    pub(crate) fn set_permission(&mut self, permission: Permission)
        ensures net { stored.net_of self.new ≡
            stored.with_permission permission (stored.net_of self.old) }
        ensures same_id { self.new.id ≡ self.old.id }
    {
        self.kind.set_permission(permission);
    }

    pub(crate) fn add_interface(&mut self, link: u16)
        requires { length self.old.interfaces.items < 8 }
        ensures net { stored.net_of self.new ≡ stored.with_link link (stored.net_of self.old) }
        ensures same_id { self.new.id ≡ self.old.id }
    {
        self.interfaces.push(link);
    }

    pub(crate) fn remove_interface(&mut self, link: u16)
        ensures net { stored.net_of self.new ≡ stored.without_link link (stored.net_of self.old) }
        ensures same_id { self.new.id ≡ self.old.id }
    {
        self.interfaces.retain(|other| *other != link);
        self.routes.remove_link(link);
    }

    pub(crate) fn reserve_route(&mut self) -> Result<(), AllocError>
        ensures net { stored.net_of self.new ≡ stored.net_of self.old }
        ensures same_id { self.new.id ≡ self.old.id }
        ensures room { OnOk result (stored.HasRouteRoom self.new) }
    {
        self.routes.reserve(1)
    }

    pub(crate) fn add_route(&mut self, route: LinkRoute)
        requires room { stored.HasRouteRoom self.old }
        requires fresh { list_any (is_keyed_by route.link route.route)
            (stored.net_of self.old).routes ≡ false }
        ensures net { stored.net_of self.new ≡ stored.with_route route (stored.net_of self.old) }
        ensures same_id { self.new.id ≡ self.old.id }
    {
        self.routes.add(route);
    }

    pub(crate) fn remove_route(&mut self, link: u16, key: &Route)
        ensures net { stored.net_of self.new ≡
            stored.without_route link key.now (stored.net_of self.old) }
        ensures same_id { self.new.id ≡ self.old.id }
    {
        self.routes.remove(link, key);
    }

    pub(crate) fn reserve_ranges(&mut self, more: usize) -> Result<(), AllocError>
        ensures net { stored.net_of self.new ≡ stored.net_of self.old }
        ensures same_id { self.new.id ≡ self.old.id }
        ensures room { OnOk result (stored.HasRangeRoom more self.new) }
    {
        self.kind.reserve_ranges(more)
    }

    pub(crate) fn add_ranges(&mut self, more: &[UidRange], rank: u8)
        requires room { stored.HasRangeRoom (length more.now) self.old }
        requires in_range { rank ≤ last_rank }
        requires disjoint { AreDisjoint more.now }
        requires apart { users_meet (ranges_of (stored.net_of self.old).kind) more.now ≡ false }
        ensures net { stored.net_of self.new ≡
            stored.with_ranges rank more.now (stored.net_of self.old) }
        ensures same_id { self.new.id ≡ self.old.id }
    {
        self.kind.add_ranges(more, rank);
    }

    pub(crate) fn remove_ranges(&mut self, gone: &[UidRange])
        ensures net { stored.net_of self.new ≡
            stored.without_ranges gone.now (stored.net_of self.old) }
        ensures same_id { self.new.id ≡ self.old.id }
    {
        self.kind.remove_ranges(gone);
    }
}
