ghost use Rattle.std.specs.Prelude.{◌≡◌, [], ◌∷◌, ◌++◌, ◌+◌, ◌<◌, ◌≤◌, OnOk, IsTrue, IsFalse, length, slice_get};
ghost use Rattle.prefixes.specs.Best.{best};
ghost use Rattle.fib_table.specs.Table.{has_key, has_route, without_route};

use fib_trie::TrieTable;
use prefixes::{Addr, Route};
use std::alloc::{AllocError, Global};
use std::marker::Model;

/// A table with its number.
#[derive(Drop)]
pub struct NumberedTable {
    number: u32,
    table: TrieTable,
}

impl Model for NumberedTable {
    ghost use Rattle.kernel_ledger.specs.Tables.{RoomyTable};

    ghost Value = { RoomyTable };

    ghost view = { λ t. record {
      number = t.number;
      routes = t.table.routes;
      room = t.table.room;
    } };
}

impl NumberedTable {
    /// No routes, and no room.
    pub fn new(alloc: Global, number: u32) -> Self
        ensures number { result.number ≡ number }
        ensures routes { result.routes ≡ [] }
    {
        NumberedTable {
            number,
            table: TrieTable::new(alloc),
        }
    }

    pub fn number(&self) -> u32
        ensures { result ≡ self.now.number }
    {
        self.number
    }

    pub fn len(&self) -> usize
        ensures { result ≡ length self.now.routes }
    {
        self.table.len()
    }

    pub fn at(&self, place: usize) -> Option<Route>
        ensures { result ≡ slice_get self.now.routes place }
    {
        self.table.at(place)
    }

    pub fn lookup(&self, dest: Addr, bound: Option<u16>) -> Option<Route>
        ensures { result ≡ best self.now.routes dest bound }
    {
        self.table.lookup(dest, bound)
    }

    /// Makes room for one route more.
    pub fn reserve_one(&mut self) -> Result<(), AllocError>
        ensures number { self.new.number ≡ self.old.number }
        ensures routes { self.new.routes ≡ self.old.routes }
        ensures ok { OnOk result (0 < self.new.room) }
    {
        self.table.reserve(1)
    }

    pub fn add(&mut self, route: Route)
        requires absent { IsFalse (has_key self.old.routes route) }
        requires room { 0 < self.old.room }
        ensures number { self.new.number ≡ self.old.number }
        ensures routes { self.new.routes ≡ self.old.routes ++ route ∷ [] }
        ensures room { self.new.room + 1 ≡ self.old.room }
    {
        self.table.add(route);
    }

    pub fn remove(&mut self, route: &Route)
        requires { IsTrue (has_route self.old.routes route.now) }
        ensures number { self.new.number ≡ self.old.number }
        ensures routes { self.new.routes ≡ without_route self.old.routes route.now }
        ensures room { self.old.room ≤ self.new.room }
    {
        self.table.remove(route);
    }
}
