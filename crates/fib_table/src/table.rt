ghost use Rattle.std.specs.Prelude.{◌≡◌, ◌+◌, ◌<◌, ◌≤◌, ◌↔◌, [], ◌∷◌, ◌++◌, Some, length, slice_get, OnOk, IsTrue, IsFalse, vec_len, vec_capacity};
ghost use Rattle.prefixes.specs.Best.{IsBest, best};
ghost use Rattle.prefixes.specs.declared.route.Route.{Route};
ghost use Rattle.fib_table.specs.Table.{has_key, has_route, without_route, are_keys_distinct};

use prefixes::{Addr, Route, best_route, same_key, same_route};
use std::alloc::{AllocError, Global};
use std::marker::Model;

/// Routes in the order of their addition, no two of one key.
#[derive(Drop)]
pub struct Table {
    routes: Vec<Route>,
}

impl Model for Table {
    ghost use Rattle.std.specs.Prelude.{◌-◌, vec_len, vec_capacity, IsTrue};
    ghost use Rattle.fib_table.specs.Table.{TableView, are_keys_distinct};

    ghost Value = { TableView };

    ghost view = { λ t. record {
      routes = t.routes.items;
      room = vec_capacity t.routes - vec_len t.routes;
    } };

    ghost invariant = { λ t. IsTrue (are_keys_distinct t.routes.items) };
}

fn any_has_key(routes: &[Route], route: &Route) -> bool
    ensures { result ≡ has_key routes.now route.now }
{
    routes.iter().any(|other| same_key(other, route))
}

fn push_in_room(routes: &mut Vec<Route>, route: Route)
    requires { vec_len routes.old < vec_capacity routes.old }
    ensures items { routes.new.items ≡ routes.old.items ++ route ∷ [] }
    ensures len { vec_len routes.new ≡ vec_len routes.old + 1 }
    ensures capacity { vec_capacity routes.new ≡ vec_capacity routes.old }
{
    let _ = routes.insert(routes.len(), route);
}

impl Table {
    /// No routes, and no room.
    pub fn new(alloc: Global) -> Table
        ensures { result.routes ≡ [] }
    {
        Table {
            routes: Vec::new(alloc),
        }
    }

    /// How many routes there are.
    pub fn len(&self) -> usize
        ensures len { result ≡ length self.now.routes }
        ensures distinct { IsTrue (are_keys_distinct self.now.routes) }
    {
        self.routes.len()
    }

    /// The route at a place.
    pub fn at(&self, place: usize) -> Option<Route>
        ensures { result ≡ slice_get self.now.routes place }
    {
        self.routes.get(place).copied()
    }

    /// Whether a route of this one's key is there.
    pub fn has_key(&self, route: &Route) -> bool
        ensures { result ≡ has_key self.now.routes route.now }
    {
        any_has_key(&self.routes, route)
    }

    /// Makes room for so many routes more. Running out of memory leaves the routes as they are.
    pub fn reserve(&mut self, more: usize) -> Result<(), AllocError>
        ensures routes { self.new.routes ≡ self.old.routes }
        ensures ok { OnOk result (more ≤ self.new.room) }
        ensures no_less { self.old.room ≤ self.new.room }
    {
        self.routes.reserve(more)
    }

    /// Puts the route last, in the room that is there.
    pub fn add(&mut self, route: Route)
        requires absent { IsFalse (has_key self.old.routes route) }
        requires room { 0 < self.old.room }
        ensures routes { self.new.routes ≡ self.old.routes ++ route ∷ [] }
        ensures room { self.new.room + 1 ≡ self.old.room }
    {
        push_in_room(&mut self.routes, route);
    }

    /// Takes the route out.
    pub fn remove(&mut self, route: &Route)
        requires { IsTrue (has_route self.old.routes route.now) }
        ensures routes { self.new.routes ≡ without_route self.old.routes route.now }
        ensures room { self.old.room ≤ self.new.room }
    {
        self.routes.retain(|other| !same_route(other, route));
    }

    /// The best route for this destination and binding. A throw is given as a route.
    pub fn lookup(&self, addr: Addr, bound: Option<u16>) -> Option<Route>
        ensures value { result ≡ best self.now.routes addr bound }
        ensures exactly { (r : Route) → (result ≡ Some r) ↔ IsBest self.now.routes addr bound r }
    {
        best_route(&self.routes, addr, bound)
    }
}
