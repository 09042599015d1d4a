ghost use Rattle.std.specs.Prelude.{◌≡◌, ◌≤◌, ◌<◌, ◌+◌, ◌++◌, ◌∷◌, ◌==◌, [], true, false, filter, not, length, nat_eq, unwrap_or, find, OnOk, IfOk};
ghost use Rattle.std.specs.List.{list_any};
ghost use Rattle.networks.specs.Network.{is_keyed_by, routes_by};
ghost use Rattle.route_store.specs.Keys.{are_apart};
ghost use Rattle.route_store.specs.Counts.{count_in};

use crate::key::RouteKey;
use crate::slots::{Iter, RouteSlots};
use indexmap::IndexMap;
use networks::LinkRoute;
use prefixes::Route;
use std::alloc::{AllocError, Global};
use std::marker::Model;

/// The routes of a network in the order of their addition, found by interface and key without a search. No two routes of one
/// interface have one key. A route is added in room that was made before, so that the addition can't fail; one that is taken out
/// moves no other.
#[derive(Drop)]
pub struct RouteStore {
    routes: RouteSlots,
    counts: IndexMap<u16, usize>,
}

impl Model for RouteStore {
    ghost use Rattle.std.specs.Prelude.{min};
    ghost use Rattle.indexmap.specs.IndexMap.{spare};
    ghost use Rattle.route_store.specs.Slots.{RoutesView};
    ghost use Rattle.route_store.specs.Counts.{IsCounted};

    ghost Value = { RoutesView };

    ghost view = { λ s. record {
      routes = s.routes.routes;
      room = min s.routes.room (spare s.counts);
    } };

    ghost invariant = { λ s. IsCounted s.routes.routes s.counts.entries };
}

fn count_in(counts: &IndexMap<u16, usize>, link: u16) -> usize
    ensures { result ≡ count_in link counts.now.entries }
{
    counts.get(&link).copied().unwrap_or(0)
}

impl RouteStore {
    /// No routes. It takes no memory.
    pub fn empty(alloc: Global) -> RouteStore
        ensures { result.routes ≡ [] }
    {
        RouteStore {
            routes: RouteSlots::empty(alloc),
            counts: IndexMap::new(alloc),
        }
    }

    /// The same routes.
    pub fn copy(&self) -> Result<RouteStore, AllocError>
        ensures { IfOk result (λ store. store.routes ≡ self.now.routes) }
    {
        Ok(RouteStore {
            routes: self.routes.copy()?,
            counts: self.counts.clone()?,
        })
    }

    /// The routes of all interfaces, in the order of their addition.
    pub fn iter(&self) -> Iter<'_>
        ensures routes { result ≡ self.now.routes }
        ensures apart { are_apart self.now.routes ≡ true }
    {
        self.routes.iter()
    }

    /// Whether the interface has a route of this one's key.
    pub fn has_key(&self, link: u16, key: &Route) -> bool
        ensures { result ≡ list_any (is_keyed_by link key.now) self.now.routes }
    {
        self.routes.has(&RouteKey::new(link, key))
    }

    /// The interface's route of this one's key.
    pub fn find(&self, link: u16, key: &Route) -> Option<LinkRoute>
        ensures { result ≡ find (is_keyed_by link key.now) self.now.routes }
    {
        self.routes.find(&RouteKey::new(link, key))
    }

    /// How many routes the interface has.
    pub fn count_of(&self, link: u16) -> usize
        ensures { result ≡ length (routes_by link self.now.routes) }
    {
        count_in(&self.counts, link)
    }

    /// Makes room for so many routes more. The routes stay.
    pub fn reserve(&mut self, more: usize) -> Result<(), AllocError>
        ensures routes { self.new.routes ≡ self.old.routes }
        ensures room { OnOk result (more ≤ self.new.room) }
    {
        self.counts.reserve(more)?;
        self.routes.reserve(more)
    }

    /// Puts a route after the others, in the room that is there.
    pub fn add(&mut self, route: LinkRoute)
        requires room { 0 < self.old.room }
        requires fresh { list_any (is_keyed_by route.link route.route) self.old.routes ≡ false }
        ensures routes { self.new.routes ≡ self.old.routes ++ route ∷ [] }
        ensures room { self.old.room ≤ self.new.room + 1 }
    {
        let link = route.link;
        self.routes.add(route);
        let count = count_in(&self.counts, link);
        let _ = self.counts.insert(link, count + 1);
    }

    /// Takes the interface's route of this one's key out. The others keep their order.
    pub fn remove(&mut self, link: u16, key: &Route)
        ensures { self.new.routes ≡ filter (λ r. not (is_keyed_by link key.now r)) self.old.routes }
    {
        let key = RouteKey::new(link, key);
        if !self.routes.has(&key) {
            return;
        }
        self.routes.remove(&key);
        let count = count_in(&self.counts, link);
        let _ = self.counts.insert(link, count - 1);
    }

    /// Takes all routes of the interface out. The others keep their order.
    pub fn remove_link(&mut self, link: u16)
        ensures { self.new.routes ≡ filter (λ r. not (r.link == link)) self.old.routes }
    {
        self.routes.remove_link(link);
        self.counts.swap_remove(&link);
    }
}
