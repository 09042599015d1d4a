ghost use Rattle.std.specs.Prelude.{◌≡◌, ℕ, ◌==◌, ◌&&◌, ◌≤◌, ◌<◌, ◌++◌, ◌∷◌, [], None, Some, false, cond, length, nat_eq, slice_get, OnOk, IfOk, IfNone};
ghost use Rattle.std.specs.List.{list_any};
ghost use Rattle.std.specs.Map.{lookup};
ghost use Rattle.std.specs.Option.{option_map, IfSome};
ghost use Rattle.networks.specs.Kinds.{class_of, ranges_of};
ghost use Rattle.networks.specs.Lists.{find_id, find_link, drop_net, AreKeyed};
ghost use Rattle.networks.specs.Network.{has_link, is_keyed_by, local_network};
ghost use Rattle.networks.specs.declared.kind.Kind.TheVariants as kind;
ghost use Rattle.uid_ranges.specs.Ranges.{AreDisjoint};
ghost use Rattle.uid_ranges.specs.Ranks.{last_rank, users_meet, all_at};
ghost use Rattle.uid_ranges.specs.declared.ranked.Ranked.{Ranked};
ghost use Rattle.network_store.specs.Holders.{user_at, holder_at, preferred_at, IsVpnOf};
ghost use Rattle.network_store.specs.Kin.{kin_meet};
ghost use Rattle.network_store.specs.RankIndex.{any_meets, has_among, has_ranked, owner_of};
ghost use Rattle.network_store.specs.Stored as stored;
ghost use Rattle.network_store.specs.Store as store;

use crate::network::{StoredKind, StoredNetwork};
use crate::ranges::StoredRanges;
use crate::rank_index::RankIndex;
use fwmark::Permission;
use indexmap::IndexMap;
use networks::{LOCAL_ID, LinkRoute};
use prefixes::Route;
use std::alloc::{AllocError, Global};
use std::marker::Model;
use uid_ranges::{Uid, UidRange};

/// The networks in the order of their creation, found by id and by link without a search. Each change is made in room that was
/// made before, so that it can't fail.
#[derive(Drop)]
pub struct StoredNetworks {
    by_id: IndexMap<u16, StoredNetwork>,
    by_link: IndexMap<u16, u16>,
    users: RankIndex,
    apps: RankIndex,
}

impl Model for StoredNetworks {
    ghost use Rattle.std.specs.Map.{values_of};
    ghost use Rattle.indexmap.specs.IndexMap.{spare};
    ghost use Rattle.network_store.specs.Store.{StoreView, AreIndexed};

    ghost Value = { StoreView };

    ghost view = { λ n. record {
      list = values_of n.by_id.entries;
      more = spare n.by_id;
      more_links = spare n.by_link;
      more_users = n.users.room;
      more_apps = n.apps.room;
    } };

    ghost invariant = { λ n. AreIndexed n.by_id.entries n.by_link.entries n.users.ranges
        n.apps.ranges };
}

fn forget_links(by_link: &mut IndexMap<u16, u16>, links: &[u16])
    ensures { (q : ℕ) → lookup (nat_eq q) by_link.new.entries ≡
        cond (list_any (λ link. link == q) links.now) None (lookup (nat_eq q) by_link.old.entries) }
{
    for link in links {
        by_link.swap_remove(link);
    }
}

// Enters the ranges of a network of this kind.
fn enter(
    users: &mut RankIndex,
    apps: &mut RankIndex,
    kind: &StoredKind,
    more: &[UidRange],
    rank: u8,
    id: u16,
)
    requires user_room { length more.now ≤ users.old.room }
    requires app_room { length more.now ≤ apps.old.room }
    requires low { rank ≤ last_rank }
    requires disjoint { AreDisjoint more.now }
    requires users_apart { class_of (stored.kind_of kind.now) ≡ 2 →
        any_meets rank more.now users.old.ranges ≡ false }
    requires apps_apart { class_of (stored.kind_of kind.now) ≡ 1 →
        any_meets rank more.now apps.old.ranges ≡ false }
    ensures users { (r : Ranked) → owner_of users.new.ranges r ≡
        cond ((class_of (stored.kind_of kind.now) == 2) && has_ranked (all_at rank more.now) r)
        (Some id) (owner_of users.old.ranges r) }
    ensures apps { (r : Ranked) → owner_of apps.new.ranges r ≡
        cond ((class_of (stored.kind_of kind.now) == 1) && has_ranked (all_at rank more.now) r)
        (Some id) (owner_of apps.old.ranges r) }
{
    match kind {
        StoredKind::Local => {}
        StoredKind::Physical { .. } => apps.insert_all(more, rank, id),
        StoredKind::Virtual { .. } => users.insert_all(more, rank, id),
    }
}

// Whether a range of this rank, of a network of this kind's class, meets one of these.
fn meets_kin(
    users: &RankIndex,
    apps: &RankIndex,
    kind: &StoredKind,
    more: &[UidRange],
    rank: u8,
) -> bool
    ensures local { class_of (stored.kind_of kind.now) ≡ 0 → result ≡ false }
    ensures apps { class_of (stored.kind_of kind.now) ≡ 1 →
        result ≡ any_meets rank more.now apps.now.ranges }
    ensures users { class_of (stored.kind_of kind.now) ≡ 2 →
        result ≡ any_meets rank more.now users.now.ranges }
{
    match kind {
        StoredKind::Local => false,
        StoredKind::Physical { .. } => apps.meets_at(more, rank),
        StoredKind::Virtual { .. } => users.meets_at(more, rank),
    }
}

// Takes those ranges of a network of this kind out that are among these.
fn leave(users: &mut RankIndex, apps: &mut RankIndex, kind: &StoredKind, gone: &[UidRange])
    ensures users { (r : Ranked) → owner_of users.new.ranges r ≡
        cond ((class_of (stored.kind_of kind.now) == 2) &&
        has_among gone.now (ranges_of (stored.kind_of kind.now)) r)
        None (owner_of users.old.ranges r) }
    ensures apps { (r : Ranked) → owner_of apps.new.ranges r ≡
        cond ((class_of (stored.kind_of kind.now) == 1) &&
        has_among gone.now (ranges_of (stored.kind_of kind.now)) r)
        None (owner_of apps.old.ranges r) }
{
    match kind {
        StoredKind::Local => {}
        StoredKind::Physical { apps: list, .. } => apps.remove_among(list.as_slice(), gone),
        StoredKind::Virtual { users: list, .. } => users.remove_among(list.as_slice(), gone),
    }
}

// Takes all ranges of a network of this kind out.
fn leave_all(users: &mut RankIndex, apps: &mut RankIndex, kind: &StoredKind)
    ensures users { (r : Ranked) → owner_of users.new.ranges r ≡
        cond ((class_of (stored.kind_of kind.now) == 2) &&
        has_ranked (ranges_of (stored.kind_of kind.now)) r)
        None (owner_of users.old.ranges r) }
    ensures apps { (r : Ranked) → owner_of apps.new.ranges r ≡
        cond ((class_of (stored.kind_of kind.now) == 1) &&
        has_ranked (ranges_of (stored.kind_of kind.now)) r)
        None (owner_of apps.old.ranges r) }
{
    match kind {
        StoredKind::Local => {}
        StoredKind::Physical { apps: list, .. } => apps.remove_all(list.as_slice()),
        StoredKind::Virtual { users: list, .. } => users.remove_all(list.as_slice()),
    }
}

impl StoredNetworks {
    /// The local network alone.
    pub fn start(alloc: Global) -> Result<StoredNetworks, AllocError>
        ensures { IfOk result (λ networks. store.nets_of networks ≡ local_network ∷ []) }
    {
        let mut by_id = IndexMap::new(alloc);
        let local = StoredNetwork::new(alloc, LOCAL_ID, StoredKind::Local);
        by_id.insert(LOCAL_ID, local)?;
        Ok(StoredNetworks {
            by_id,
            by_link: IndexMap::new(alloc),
            users: RankIndex::empty(alloc),
            apps: RankIndex::empty(alloc),
        })
    }

    /// The same networks.
    pub fn copy(&self) -> Result<StoredNetworks, AllocError>
        ensures { IfOk result (λ copy. store.nets_of copy ≡ store.nets_of self.now) }
    {
        Ok(StoredNetworks {
            by_id: self.by_id.clone()?,
            by_link: self.by_link.clone()?,
            users: self.users.copy()?,
            apps: self.apps.copy()?,
        })
    }

    /// How many networks there are.
    pub fn len(&self) -> usize
        ensures count { result ≡ length (store.nets_of self.now) }
        ensures keyed { AreKeyed (store.nets_of self.now) }
    {
        self.by_id.len()
    }

    /// The network at a place, from 0.
    pub fn at(&self, place: usize) -> Option<&StoredNetwork>
        ensures { option_map (λ n. stored.net_of n.now) result ≡
            slice_get (store.nets_of self.now) place }
    {
        match self.by_id.get_index(place) {
            Some((_, network)) => Some(network),
            None => None,
        }
    }

    /// The network of this id.
    pub fn get(&self, id: u16) -> Option<&StoredNetwork>
        ensures { option_map (λ n. stored.net_of n.now) result ≡
            find_id id (store.nets_of self.now) }
    {
        self.by_id.get(&id)
    }

    /// The network of which the link is an interface.
    pub fn network_of(&self, link: u16) -> Option<&StoredNetwork>
        ensures { option_map (λ n. stored.net_of n.now) result ≡
            find_link link (store.nets_of self.now) }
    {
        match self.by_link.get(&link) {
            Some(id) => self.by_id.get(id),
            None => None,
        }
    }

    /// The virtual network, of either kind, that has a range of this rank which holds the UID.
    pub fn user_at(&self, rank: u8, uid: Uid) -> Option<&StoredNetwork>
        ensures { option_map (λ n. stored.net_of n.now) result ≡
            user_at rank uid.number (store.nets_of self.now) }
    {
        match self.users.owner_at(rank, uid) {
            Some(id) => self.by_id.get(&id),
            None => None,
        }
    }

    /// The virtual network of this kind that has a range of this rank which holds the UID.
    pub fn holder_at(&self, secure: bool, rank: u8, uid: Uid) -> Option<&StoredNetwork>
        ensures { option_map (λ n. stored.net_of n.now) result ≡
            holder_at secure rank uid.number (store.nets_of self.now) }
    {
        let Some(id) = self.users.owner_at(rank, uid) else {
            return None;
        };
        let Some(network) = self.by_id.get(&id) else {
            return None;
        };
        if !network.kind.is_vpn(secure) {
            return None;
        }
        Some(network)
    }

    /// The virtual network, of either kind, whose range of the lowest rank holds the UID.
    pub fn vpn_of(&self, uid: Uid) -> Option<&StoredNetwork>
        ensures vpn { IfSome result (λ n.
            IsVpnOf uid.number (store.nets_of self.now) (stored.net_of n.now)) }
        ensures none { IfNone result ((rank : ℕ) →
            user_at rank uid.number (store.nets_of self.now) ≡ None) }
    {
        match self.users.first_owner(uid) {
            Some(id) => self.by_id.get(&id),
            None => None,
        }
    }

    /// The physical network that has an app range of this rank which holds the UID.
    pub fn preferred_at(&self, rank: u8, uid: Uid) -> Option<&StoredNetwork>
        ensures { option_map (λ n. stored.net_of n.now) result ≡
            preferred_at rank uid.number (store.nets_of self.now) }
    {
        match self.apps.owner_at(rank, uid) {
            Some(id) => self.by_id.get(&id),
            None => None,
        }
    }

    /// Makes room for one network more. The networks stay.
    pub fn reserve_network(&mut self) -> Result<(), AllocError>
        ensures nets { store.nets_of self.new ≡ store.nets_of self.old }
        ensures room { OnOk result (0 < self.new.more) }
    {
        self.by_id.reserve(1)
    }

    fn create(&mut self, id: u16, kind: StoredKind)
        requires room { 0 < self.old.more }
        requires fresh { find_id id (store.nets_of self.old) ≡ None }
        requires bare { ranges_of (stored.kind_of kind) ≡ [] }
        ensures { store.nets_of self.new ≡
            store.nets_of self.old ++ stored.bare_net id (stored.kind_of kind) ∷ [] }
    {
        let alloc = *self.by_id.allocator();
        let network = StoredNetwork::new(alloc, id, kind);
        let _ = self.by_id.insert(id, network);
    }

    /// Puts a physical network without interfaces and app ranges after the others, in the room that is there.
    pub fn create_physical(&mut self, id: u16, permission: Permission)
        requires room { 0 < self.old.more }
        requires fresh { find_id id (store.nets_of self.old) ≡ None }
        ensures { store.nets_of self.new ≡
            store.nets_of self.old ++ stored.bare_net id (kind.Physical permission []) ∷ [] }
    {
        let apps = StoredRanges::empty(*self.by_id.allocator());
        self.create(id, StoredKind::Physical { permission, apps });
    }

    /// Puts a virtual network without interfaces and users after the others, in the room that is there.
    pub fn create_virtual(&mut self, id: u16, secure: bool)
        requires room { 0 < self.old.more }
        requires fresh { find_id id (store.nets_of self.old) ≡ None }
        ensures { store.nets_of self.new ≡
            store.nets_of self.old ++ stored.bare_net id (kind.Virtual secure []) ∷ [] }
    {
        let users = StoredRanges::empty(*self.by_id.allocator());
        self.create(id, StoredKind::Virtual { secure, users });
    }

    /// Takes the network of this id out. The others keep their order.
    pub fn destroy(&mut self, id: u16)
        ensures { store.nets_of self.new ≡ drop_net id (store.nets_of self.old) }
    {
        let Some(network) = self.by_id.shift_remove(&id) else {
            return;
        };
        forget_links(&mut self.by_link, network.interfaces.as_slice());
        leave_all(&mut self.users, &mut self.apps, &network.kind);
    }

    /// Replaces the permission of the physical network of this id.
    pub fn set_permission(&mut self, id: u16, permission: Permission)
        ensures { store.nets_of self.new ≡
            store.with_net id (stored.with_permission permission) (store.nets_of self.old) }
    {
        let Some(network) = self.by_id.get_mut(&id) else {
            return;
        };
        network.set_permission(permission);
    }

    /// Makes room for one interface more, of any network. The networks stay.
    pub fn reserve_interface(&mut self) -> Result<(), AllocError>
        ensures nets { store.nets_of self.new ≡ store.nets_of self.old }
        ensures room { OnOk result (0 < self.new.more_links) }
    {
        self.by_link.reserve(1)
    }

    /// Gives the network of this id the link as its last interface, in the room that is there.
    pub fn add_interface(&mut self, id: u16, link: u16)
        requires room { 0 < self.old.more_links }
        requires few { IfSome (find_id id (store.nets_of self.old)) (λ n. length n.interfaces < 8) }
        requires fresh { find_link link (store.nets_of self.old) ≡ None }
        ensures { store.nets_of self.new ≡
            store.with_net id (stored.with_link link) (store.nets_of self.old) }
    {
        let Some(network) = self.by_id.get_mut(&id) else {
            return;
        };
        network.add_interface(link);
        let _ = self.by_link.insert(link, id);
    }

    /// Takes the interface of this link out of the network of this id, and its routes.
    pub fn remove_interface(&mut self, id: u16, link: u16)
        requires { option_map (λ n. n.id) (find_link link (store.nets_of self.old)) ≡ Some id }
        ensures { store.nets_of self.new ≡
            store.with_net id (stored.without_link link) (store.nets_of self.old) }
    {
        let Some(network) = self.by_id.get_mut(&id) else {
            return;
        };
        network.remove_interface(link);
        self.by_link.swap_remove(&link);
    }

    /// Makes room for one route more in the network of this id. The networks stay.
    pub fn reserve_route(&mut self, id: u16) -> Result<(), AllocError>
        ensures nets { store.nets_of self.new ≡ store.nets_of self.old }
        ensures room { OnOk result (store.HasRoomAt id stored.HasRouteRoom self.new) }
    {
        let Some(network) = self.by_id.get_mut(&id) else {
            return Ok(());
        };
        network.reserve_route()
    }

    /// Puts a route after the others of the network of this id, in the room that is there.
    pub fn add_route(&mut self, id: u16, route: LinkRoute)
        requires room { store.HasRoomAt id stored.HasRouteRoom self.old }
        requires fresh { IfSome (find_id id (store.nets_of self.old))
            (λ n. list_any (is_keyed_by route.link route.route) n.routes ≡ false) }
        ensures { store.nets_of self.new ≡
            store.with_net id (stored.with_route route) (store.nets_of self.old) }
    {
        let Some(network) = self.by_id.get_mut(&id) else {
            return;
        };
        network.add_route(route);
    }

    /// Takes the link's route of this one's key out of the network of this id.
    pub fn remove_route(&mut self, id: u16, link: u16, key: &Route)
        ensures { store.nets_of self.new ≡
            store.with_net id (stored.without_route link key.now) (store.nets_of self.old) }
    {
        let Some(network) = self.by_id.get_mut(&id) else {
            return;
        };
        network.remove_route(link, key);
    }

    /// Whether a network of this one's class, physical or virtual, has a range of this rank that meets one of these.
    pub fn kin_meet(&self, id: u16, more: &[UidRange], rank: u8) -> bool
        ensures known { IfSome (find_id id (store.nets_of self.now)) (λ n.
            result ≡ kin_meet rank more.now n (store.nets_of self.now)) }
        ensures unknown { find_id id (store.nets_of self.now) ≡ None → result ≡ false }
    {
        let Some(network) = self.by_id.get(&id) else {
            return false;
        };
        meets_kin(&self.users, &self.apps, &network.kind, more, rank)
    }

    /// Makes room for so many ranges more in the network of this id. The networks stay.
    pub fn reserve_ranges(&mut self, id: u16, more: usize) -> Result<(), AllocError>
        ensures nets { store.nets_of self.new ≡ store.nets_of self.old }
        ensures room { OnOk result (store.HasRangesRoom id more self.new) }
    {
        self.users.reserve(more)?;
        self.apps.reserve(more)?;
        let Some(network) = self.by_id.get_mut(&id) else {
            return Ok(());
        };
        network.reserve_ranges(more)
    }

    /// Gives the network of this id these ranges with this rank, in the room that is there: apps to a physical network, users to
    /// a VPN. The local network takes none.
    pub fn add_ranges(&mut self, id: u16, more: &[UidRange], rank: u8)
        requires room { store.HasRangesRoom id (length more.now) self.old }
        requires in_range { rank ≤ last_rank }
        requires disjoint { AreDisjoint more.now }
        requires apart { IfSome (find_id id (store.nets_of self.old))
            (λ n. users_meet (ranges_of n.kind) more.now ≡ false) }
        requires ranks_apart { IfSome (find_id id (store.nets_of self.old))
            (λ n. kin_meet rank more.now n (store.nets_of self.old) ≡ false) }
        ensures { store.nets_of self.new ≡
            store.with_net id (stored.with_ranges rank more.now) (store.nets_of self.old) }
    {
        let Some(network) = self.by_id.get_mut(&id) else {
            return;
        };
        enter(
            &mut self.users,
            &mut self.apps,
            &network.kind,
            more,
            rank,
            id,
        );
        network.add_ranges(more, rank);
    }

    /// Takes these ranges out of the network of this id, at whatever rank.
    pub fn remove_ranges(&mut self, id: u16, gone: &[UidRange])
        ensures { store.nets_of self.new ≡
            store.with_net id (stored.without_ranges gone.now) (store.nets_of self.old) }
    {
        let Some(network) = self.by_id.get_mut(&id) else {
            return;
        };
        leave(&mut self.users, &mut self.apps, &network.kind, gone);
        network.remove_ranges(gone);
    }
}
