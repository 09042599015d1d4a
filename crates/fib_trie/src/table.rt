ghost use Rattle.std.specs.Prelude.{◌≡◌, ◌+◌, ◌<◌, ◌≤◌, ◌↔◌, [], ◌∷◌, ◌++◌, Some, length, slice_get, IfOk, OnOk, IsTrue, IsFalse};
ghost use Rattle.prefixes.specs.Best.{IsBest, best};
ghost use Rattle.prefixes.specs.declared.route.Route.{Route};
ghost use Rattle.fib_table.specs.Table.{has_key, has_route, without_route, are_keys_distinct};
ghost use Rattle.std.specs.Prelude.{vec_len, vec_capacity};
ghost use Rattle.std.specs.Option.{option_map};
ghost use Rattle.fib_search.specs.Node.{node_at, view_of};
ghost use Rattle.fib_search.specs.Trie.{IsTrie};
ghost use Rattle.fib_trie.specs.Branches.{nodes_of};
ghost use Rattle.fib_trie.specs.Reached.{AreFiled, AreReached};
ghost use Rattle.fib_trie.specs.Chained.{routes_of};

use crate::branch::Branch;
use crate::place::{find_place, make_place};
use crate::prune::prune;
use crate::reader::NodeReader;
use crate::roots::ensure_roots;
use fib_search::{NodeView, lookup_counted};
use prefixes::{Addr, Route};
use route_chains::{RouteChains, held};
use std::alloc::{AllocError, Global};
use std::marker::Model;

// No table has room for more routes.
const MOST: usize = 1 << 56;

/// Routes in the order of their addition, no two of one key, and the trie of their prefixes.
#[derive(Drop)]
pub struct TrieTable {
    branches: Vec<Option<Branch>>,
    /// A chain for each place of a node, and all routes in order.
    chains: RouteChains,
    spare: usize,
    /// How many routes were taken out.
    gone: usize,
}

impl Model for TrieTable {
    ghost use Rattle.fib_trie.specs.Table.{TrieView};

    ghost Value = { TrieView };

    ghost use Rattle.fib_trie.specs.Branches.{nodes_of};
    ghost use Rattle.fib_trie.specs.Chained.{routes_of};
    ghost use Rattle.fib_trie.specs.Table.{IsKept};

    ghost view = { λ t. record {
      routes = routes_of t.chains.entries;
      room = t.spare;
      nodes = nodes_of (routes_of t.chains.entries) t.branches.items;
    } };

    ghost invariant = { IsKept };
}

impl TrieTable {
    /// No routes, and no room.
    pub fn new(alloc: Global) -> TrieTable
        ensures { result.routes ≡ [] }
    {
        TrieTable {
            branches: Vec::new(alloc),
            chains: RouteChains::new(alloc),
            spare: 0,
            gone: 0,
        }
    }

    /// Makes room for so many routes more. Out of memory leaves the routes as they are. Where more routes were taken out than
    /// are there, the table is made anew, without the places of those.
    pub fn reserve(&mut self, more: usize) -> Result<(), AllocError>
        ensures routes { self.new.routes ≡ self.old.routes }
        ensures ok { OnOk result (more ≤ self.new.room) }
        ensures no_less { self.old.room ≤ self.new.room }
    {
        if more <= self.spare {
            return Ok(());
        }
        if self.gone <= self.chains.len() {
            return self.make_room(more);
        }
        let alloc = *self.branches.allocator();
        let routes = self.chains.routes(alloc)?;
        match rebuilt(alloc, &routes, more) {
            Ok(table) => {
                *self = table;
                Ok(())
            }
            Err(err) => Err(err),
        }
    }

    // Makes room for so many routes more beside those that are there.
    fn make_room(&mut self, more: usize) -> Result<(), AllocError>
        ensures routes { self.new.routes ≡ self.old.routes }
        ensures ok { OnOk result (more ≤ self.new.room) }
        ensures no_less { self.old.room ≤ self.new.room }
    {
        if more <= self.spare {
            return Ok(());
        }
        if more > MOST {
            return Err(AllocError);
        }
        match self.branches.reserve(2 * more + 2) {
            Ok(()) => {}
            Err(err) => return Err(err),
        }
        match self
            .chains
            .reserve(more, self.branches.len() + 2 * more + 2)
        {
            Ok(()) => {}
            Err(err) => return Err(err),
        }
        self.spare = more;
        Ok(())
    }

    /// Puts the route last, in the room that is there.
    pub fn add(&mut self, route: Route)
        requires absent { IsFalse (has_key self.old.routes route) }
        requires room { 0 < self.old.room }
        ensures routes { self.new.routes ≡ self.old.routes ++ route ∷ [] }
        ensures room { self.new.room + 1 ≡ self.old.room }
    {
        ensure_roots(&mut self.branches);
        let place = make_place(&mut self.branches, route.prefix);
        self.chains.push(place, route);
        self.spare -= 1;
    }

    /// How many routes there are.
    pub fn len(&self) -> usize
        ensures len { result ≡ length self.now.routes }
        ensures distinct { IsTrue (are_keys_distinct self.now.routes) }
    {
        self.chains.len()
    }

    /// The route at a place, in the order of addition.
    pub fn at(&self, place: usize) -> Option<Route>
        ensures { result ≡ slice_get self.now.routes place }
    {
        self.chains.at(place)
    }

    /// Whether a route of this one's key is there.
    pub fn has_key(&self, route: &Route) -> bool
        ensures { result ≡ has_key self.now.routes route.now }
    {
        match find_place(&self.branches, route.prefix) {
            Some(place) => self.chains.has_key(place, route),
            None => false,
        }
    }

    /// Takes the route out.
    pub fn remove(&mut self, route: &Route)
        requires { IsTrue (has_route self.old.routes route.now) }
        ensures routes { self.new.routes ≡ without_route self.old.routes route.now }
        ensures room { self.old.room ≤ self.new.room }
    {
        let Some(place) = find_place(&self.branches, route.prefix) else {
            return;
        };
        self.chains.remove(place, route);
        prune(&mut self.branches, &self.chains, route.prefix);
        self.gone = self.gone.saturating_add(1);
    }

    /// The best route for this destination and binding. A throw is given as a route.
    pub fn lookup(&self, addr: Addr, bound: Option<u16>) -> Option<Route>
        ensures value { result ≡ best self.now.routes addr bound }
        ensures exactly { (r : Route) → (result ≡ Some r) ↔ IsBest self.now.routes addr bound r }
    {
        let mut reader = NodeReader::new(self);
        lookup_counted(&mut reader, addr, bound)
    }

    /// The trie's invariant, for a reader.
    pub(crate) fn is_trie(&self)
        ensures { ∥ IsTrie self.now.nodes self.now.routes ∥₁ }
    {
        let _ = &self.branches;
    }

    pub(crate) fn node(&self, place: usize, bound: Option<u16>) -> Option<NodeView>
        ensures { result ≡ option_map (view_of bound) (node_at self.now.nodes place) }
    {
        view_at(&self.branches, &self.chains, place, bound)
    }
}

// A table of the same routes, with room for more.
fn rebuilt(alloc: Global, routes: &[Route], more: usize) -> Result<TrieTable, AllocError>
    requires { IsTrue (are_keys_distinct routes.now) }
    ensures routes { IfOk result (λ table. table.routes ≡ routes.now) }
    ensures room { IfOk result (λ table. more ≤ table.room) }
{
    let Some(all) = routes.len().checked_add(more) else {
        return Err(AllocError);
    };
    let mut table = TrieTable::new(alloc);
    match table.make_room(all) {
        Ok(()) => {}
        Err(err) => return Err(err),
    }
    for route in routes {
        table.add(*route);
    }
    Ok(table)
}

fn view_at(
    branches: &[Option<Branch>],
    chains: &RouteChains,
    place: usize,
    bound: Option<u16>,
) -> Option<NodeView>
    requires filed { AreFiled branches.now chains.now.entries }
    requires reached { AreReached branches.now }
    requires chains { length branches.now ≤ chains.now.chains }
    ensures { result ≡ option_map (view_of bound)
        (node_at (nodes_of (routes_of chains.now.entries) branches.now) place) }
{
    match held(branches, place) {
        Some(branch) => Some(NodeView {
            prefix: branch.prefix,
            zero: branch.zero,
            one: branch.one,
            first: chains.first(place, bound),
        }),
        None => None,
    }
}
