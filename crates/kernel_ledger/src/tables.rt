ghost use Rattle.std.specs.Prelude.{◌≡◌, ◌==◌, [], ◌∷◌, ◌++◌, ◌+◌, ◌-◌, Some, None, IfOk, OnOk, IsTrue, IsFalse, length, ◌<◌, ◌≤◌, MatchOption, get_or, set, slice_get, map, vec_len, vec_capacity};
ghost use Rattle.std.specs.List.{position};
ghost use Rattle.prefixes.specs.Best.{best};
ghost use Rattle.fib_table.specs.Table.{has_key, has_route, without_route};
ghost use Rattle.kernel_model.specs.State.{device_table, start, loopback4, loopback6, loopback, put_route, cut_route, routes_of};
ghost use Rattle.kernel_ledger.specs.Tables.{RoomyTable, table_of, place_of, empty, route_total};
ghost use Rattle.kernel_ledger.specs.Room.{IsAside};

use crate::numbered::NumberedTable;
use kernel_model::DEVICE_TABLE;
use prefixes::{Addr, Out, Prefix, Route};
use std::alloc::{AllocError, Global};
use std::marker::Model;

/// Tables of routes, with room for one route in the table that is ready.
#[derive(Drop)]
pub struct Tables {
    alloc: Global,
    tables: Vec<NumberedTable>,
    /// An empty table that `add` puts last, where the ready one isn't there.
    fresh: Option<NumberedTable>,
    ready: Option<u32>,
    /// The number of the routes of all tables.
    total: u64,
}

impl Model for Tables {
    ghost use Rattle.kernel_ledger.specs.Tables.{TablesView};

    ghost Value = { TablesView };

    ghost use Rattle.std.specs.Prelude.{map, ◌-◌, vec_len, vec_capacity};
    ghost use Rattle.kernel_ledger.specs.Tables.{table_of};
    ghost use Rattle.kernel_ledger.specs.Room.{AreKept};

    ghost view = { λ a. record { tables = map table_of a.tables.items; ready = a.ready } };

    ghost invariant = { λ a. AreKept a.ready a.tables.items
        (vec_capacity a.tables - vec_len a.tables) a.fresh a.total };
}

/// By the link `lo`.
const LOOPBACK: Out = Out::Dev {
    link: rule_match::LOOPBACK,
    gateway: None,
};

// 127.0.0.0/8
fn loopback4() -> Route
    ensures { result ≡ loopback4 }
{
    Route {
        prefix: Prefix {
            base: Addr::V4(0x7f00_0000),
            len: 8,
        },
        out: LOOPBACK,
    }
}

// ::1/128
fn loopback6() -> Route
    ensures { result ≡ loopback6 }
{
    Route {
        prefix: Prefix {
            base: Addr::V6(1),
            len: 128,
        },
        out: LOOPBACK,
    }
}

// The device table of the starting kernel.
fn own_table(alloc: Global) -> Result<NumberedTable, AllocError>
    ensures { IfOk result (λ t. (t.number ≡ device_table) × (t.routes ≡ loopback)) }
{
    let mut table = NumberedTable::new(alloc, DEVICE_TABLE);
    table.reserve_one()?;
    table.add(loopback4());
    table.reserve_one()?;
    table.add(loopback6());
    Ok(table)
}

fn position_of(tables: &[NumberedTable], number: u32) -> Option<usize>
    ensures { result ≡ position (λ t. t.number == number) tables.now }
{
    tables.iter().position(|t| t.number() == number)
}

// The place of a table, if it is there.
fn find_table(tables: &[NumberedTable], number: u32) -> Option<usize>
    ensures { MatchOption result (length tables.now ≤ place_of number tables.now) (λ i.
        (i ≡ place_of number tables.now) × (place_of number tables.now < length tables.now)) }
{
    position_of(tables, number)
}

// Puts a route into the table at a place.
fn add_at(tables: &mut Vec<NumberedTable>, place: usize, route: Route)
    requires within { place < length tables.old.items }
    requires absent { IsFalse (has_key (get_or tables.old.items place empty).routes route) }
    requires room { 0 < (get_or tables.old.items place empty).room }
    ensures { (w : RoomyTable) × (tables.new.items ≡ set tables.old.items place w) ×
        (w.number ≡ (get_or tables.old.items place empty).number)
        × (w.routes ≡ (get_or tables.old.items place empty).routes ++ route ∷ []) }
{
    let there = &mut tables[place];
    there.add(route);
}

// Puts the table that stands aside last, with one route.
fn add_last(
    tables: &mut Vec<NumberedTable>,
    aside: Option<NumberedTable>,
    number: u32,
    route: Route,
)
    requires aside { IsAside number aside }
    requires room { vec_len tables.old < vec_capacity tables.old }
    ensures { (w : RoomyTable) × (tables.new.items ≡ tables.old.items ++ w ∷ []) ×
        (w.number ≡ number) × (w.routes ≡ route ∷ []) }
{
    let mut table = aside.unwrap();
    table.add(route);
    let _ = tables.push(table);
}

// Takes a route out of the table at a place, and tells how many routes it has less.
fn delete_at(tables: &mut Vec<NumberedTable>, place: usize, route: &Route) -> u64
    requires within { place < length tables.old.items }
    requires there { IsTrue (has_route (get_or tables.old.items place empty).routes route.now) }
    ensures cut { (w : RoomyTable) × (tables.new.items ≡ set tables.old.items place w) ×
        (w.number ≡ (get_or tables.old.items place empty).number)
        × (w.routes ≡ without_route (get_or tables.old.items place empty).routes route.now) ×
        ((get_or tables.old.items place empty).room ≤ w.room) }
    ensures gone { route_total (map table_of tables.new.items) + result ≡
        route_total (map table_of tables.old.items) }
    ensures capacity { vec_capacity tables.new - vec_len tables.new ≡
        vec_capacity tables.old - vec_len tables.old }
{
    let there = &mut tables[place];
    let before = there.len();
    there.remove(route);
    (before - there.len()) as u64
}

// Makes room in the table at a place.
fn reserve_at(tables: &mut Vec<NumberedTable>, place: usize) -> Result<(), AllocError>
    requires { place < length tables.old.items }
    ensures same { map table_of tables.new.items ≡ map table_of tables.old.items }
    ensures room { (w : RoomyTable) × (tables.new.items ≡ set tables.old.items place w) ×
        (w.number ≡ (get_or tables.old.items place empty).number)
        × OnOk result (0 < w.room) }
{
    let there = &mut tables[place];
    there.reserve_one()
}

impl Tables {
    /// The tables of the starting kernel.
    pub fn start(alloc: Global) -> Result<Self, AllocError>
        ensures { IfOk result (λ tables. (tables.tables ≡ start.tables) × (tables.ready ≡ None)) }
    {
        let mut tables = Vec::new(alloc);
        tables.push(own_table(alloc)?)?;
        Ok(Tables {
            alloc,
            tables,
            fresh: None,
            ready: None,
            total: 2,
        })
    }

    /// Makes room for one route in a table.
    pub fn prepare(&mut self, table: u32) -> Result<(), AllocError>
        ensures tables { self.new.tables ≡ self.old.tables }
        ensures ok { OnOk result (self.new.ready ≡ Some table) }
    {
        self.ready = None;
        match find_table(&self.tables, table) {
            Some(place) => {
                reserve_at(&mut self.tables, place)?;
                self.ready = Some(table);
                Ok(())
            }
            None => {
                let mut fresh = NumberedTable::new(self.alloc, table);
                fresh.reserve_one()?;
                self.tables.reserve(1)?;
                self.fresh = Some(fresh);
                self.ready = Some(table);
                Ok(())
            }
        }
    }

    /// Gives the room up.
    pub fn use_up(&mut self)
        ensures tables { self.new.tables ≡ self.old.tables }
        ensures ready { self.new.ready ≡ None }
    {
        self.ready = None;
    }

    /// Puts a route last in the table that is ready, in the room there.
    pub fn add(&mut self, table: u32, route: Route)
        requires absent { IsFalse (has_key (routes_of table self.old.tables) route) }
        requires ready { self.old.ready ≡ Some table }
        requires total { route_total self.old.tables < u64.MAX }
        ensures tables { self.new.tables ≡ put_route table route self.old.tables }
        ensures ready { self.new.ready ≡ None }
    {
        self.ready = None;
        self.total += 1;
        match find_table(&self.tables, table) {
            Some(place) => add_at(&mut self.tables, place, route),
            None => add_last(&mut self.tables, self.fresh.take(), table, route),
        }
    }

    /// Takes a route out of its table.
    pub fn delete(&mut self, table: u32, route: &Route)
        requires { IsTrue (has_route (routes_of table self.old.tables) route.now) }
        ensures tables { self.new.tables ≡ cut_route table route.now self.old.tables }
        ensures ready { self.new.ready ≡ self.old.ready }
    {
        if let Some(place) = find_table(&self.tables, table) {
            self.total -= delete_at(&mut self.tables, place, route);
        }
    }

    /// The number of the routes of all tables.
    pub fn total(&self) -> u64
        ensures { result ≡ route_total self.now.tables }
    {
        self.total
    }

    pub fn route_count(&self, table: u32) -> usize
        ensures { result ≡ length (routes_of table self.now.tables) }
    {
        match find_table(&self.tables, table) {
            Some(place) => self.tables[place].len(),
            None => 0,
        }
    }

    pub fn route_at(&self, table: u32, place: usize) -> Option<Route>
        ensures { result ≡ slice_get (routes_of table self.now.tables) place }
    {
        match find_table(&self.tables, table) {
            Some(found) => self.tables[found].at(place),
            None => None,
        }
    }

    /// The best route of a table.
    pub fn lookup(&self, table: u32, dest: Addr, bound: Option<u16>) -> Option<Route>
        ensures { result ≡ best (routes_of table self.now.tables) dest bound }
    {
        match find_table(&self.tables, table) {
            Some(place) => self.tables[place].lookup(dest, bound),
            None => None,
        }
    }
}
