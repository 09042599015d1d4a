ghost use Rattle.std.specs.Prelude.{◌≡◌, ℕ, ◌+◌, ◌-◌, ◌<◌, ◌≤◌, ◌&&◌, [], ◌∷◌, ◌++◌, IfOk, OnOk, IsTrue, find, slice_get, is_ok, nat_lt, if◌then◌else◌, None, Some, length, replicate, slice_set, vec_len, vec_capacity};
ghost use Rattle.std.specs.List.{list_any};
ghost use Rattle.std.specs.Option.{option_map};
ghost use Rattle.prefixes.specs.Route.{link_of, suits, same_key, same_route};
ghost use Rattle.route_chains.specs.Chains.{chain_of, routes_of, TakesOut};
ghost use Rattle.route_chains.specs.Found.{route_at};
ghost use Rattle.route_chains.specs.Links.{AreChains, entries_of, with_next, relinked, reheaded};
ghost use Rattle.route_chains.specs.Places.{held};

use crate::places::{held, push_held, put};
use crate::search::search;
use crate::slot::Slot;
use crate::test::{HasKey, IsRoute, Nothing, Suits};
use prefixes::Route;
use std::alloc::{AllocError, Global};
use std::marker::Model;

/// Routes in the order of their addition, each in a chain. The chains are numbered from 0.
#[derive(Drop)]
pub struct RouteChains {
    slots: Vec<Option<Slot>>,
    heads: Vec<Option<usize>>,
    spare: usize,
    /// How many slots are empty.
    gaps: usize,
}

impl Model for RouteChains {
    ghost use Rattle.std.specs.Prelude.{vec_len};
    ghost use Rattle.route_chains.specs.Chains.{ChainsView};
    ghost use Rattle.route_chains.specs.Links.{entries_of};
    ghost use Rattle.route_chains.specs.Kept.{IsKept};

    ghost Value = { ChainsView };

    ghost view = { λ t. record {
      entries = entries_of t.slots.items;
      chains = vec_len t.heads;
      room = t.spare;
    } };

    ghost invariant = { IsKept };
}

// Has at least so many chains, the new ones empty.
fn open(heads: &mut Vec<Option<usize>>, chains: usize) -> Result<(), AllocError>
    ensures heads { heads.new.items ≡ (if is_ok result && nat_lt (vec_len heads.old) chains
        then heads.old.items ++ replicate (chains - vec_len heads.old) None else heads.old.items) }
    ensures len { OnOk result (chains ≤ vec_len heads.new) }
    ensures no_less { vec_len heads.old ≤ vec_len heads.new }
{
    if heads.len() < chains {
        heads.resize(chains, None)
    } else {
        Ok(())
    }
}

fn with_next(slot: Slot, next: Option<usize>) -> Slot
    ensures { result ≡ with_next next slot }
{
    Slot {
        chain: slot.chain,
        route: slot.route,
        next,
    }
}

fn relinked_slot(slots: &[Option<Slot>], place: usize, next: Option<usize>) -> Option<Slot>
    ensures { result ≡ option_map (with_next next) (held slots.now place) }
{
    match held(slots, place) {
        Some(slot) => Some(with_next(slot, next)),
        None => None,
    }
}

fn set_head(heads: &mut Vec<Option<usize>>, chain: usize, next: Option<usize>)
    requires { chain < vec_len heads.old }
    ensures items { heads.new.items ≡ slice_set heads.old.items chain next }
    ensures len { vec_len heads.new ≡ vec_len heads.old }
{
    heads[chain] = next;
}

// Links what a search ended after to another place.
fn link(
    slots: &mut Vec<Option<Slot>>,
    heads: &mut Vec<Option<usize>>,
    chain: usize,
    before: Option<usize>,
    next: Option<usize>,
)
    requires chain { chain < vec_len heads.old }
    requires before { (b : ℕ) → before ≡ Some b → b < vec_len slots.old }
    ensures slots { slots.new.items ≡ relinked slots.old.items before next }
    ensures heads { heads.new.items ≡ reheaded heads.old.items chain before next }
    ensures len { vec_len slots.new ≡ vec_len slots.old }
    ensures capacity { vec_capacity slots.new ≡ vec_capacity slots.old }
    ensures chains { vec_len heads.new ≡ vec_len heads.old }
{
    match before {
        None => set_head(heads, chain, next),
        Some(place) => {
            let slot = relinked_slot(slots, place, next);
            put(slots, place, slot);
        }
    }
}

fn route_at(slots: &[Option<Slot>], place: Option<usize>) -> Option<Route>
    ensures { result ≡ route_at slots.now place }
{
    match place {
        None => None,
        Some(place) => match held(slots, place) {
            Some(slot) => Some(slot.route),
            None => None,
        },
    }
}

// The route of the full slot that has so many full ones before it.
fn nth_route(slots: &[Option<Slot>], place: usize) -> Option<Route>
    ensures { result ≡ slice_get (routes_of (entries_of slots.now)) place }
{
    let mut left = place;
    for slot in slots {
        if let Some(slot) = slot {
            if left == 0 {
                return Some(slot.route);
            }
            left -= 1;
        }
    }
    None
}

fn routes_in(alloc: Global, slots: &[Option<Slot>]) -> Result<Vec<Route>, AllocError>
    ensures { IfOk result (λ routes. routes.items ≡ routes_of (entries_of slots.now)) }
{
    let mut routes = Vec::new(alloc);
    for slot in slots {
        if let Some(slot) = slot {
            routes.push(slot.route)?;
        }
    }
    Ok(routes)
}

// Puts a slot last in its chain.
fn add_slot(
    slots: &mut Vec<Option<Slot>>,
    heads: &mut Vec<Option<usize>>,
    chain: usize,
    route: Route,
)
    requires there { chain < length heads.old.items }
    requires chains { AreChains slots.old.items heads.old.items }
    requires room { vec_len slots.old < vec_capacity slots.old }
    ensures chains { AreChains slots.new.items heads.new.items }
    ensures entries { entries_of slots.new.items
        ≡ entries_of slots.old.items ++ record { chain = chain; route = route } ∷ [] }
    ensures len { vec_len slots.new ≡ vec_len slots.old + 1 }
    ensures capacity { vec_capacity slots.new ≡ vec_capacity slots.old }
    ensures heads { vec_len heads.new ≡ vec_len heads.old }
{
    let found = search(slots, heads, chain, &Nothing);
    let place = slots.len();
    link(slots, heads, chain, found.before, Some(place));
    push_held(
        slots,
        Slot {
            chain,
            route,
            next: None,
        },
    );
}

// Takes the first slot of this route out of its chain.
fn cut_slot(
    slots: &mut Vec<Option<Slot>>,
    heads: &mut Vec<Option<usize>>,
    chain: usize,
    route: Route,
)
    requires there { chain < length heads.old.items }
    requires chains { AreChains slots.old.items heads.old.items }
    requires has { IsTrue (list_any (λ other. same_route other route)
        (chain_of chain (entries_of slots.old.items))) }
    ensures chains { AreChains slots.new.items heads.new.items }
    ensures entries { TakesOut (entries_of slots.old.items) (entries_of slots.new.items)
        (record { chain = chain; route = route }) }
    ensures len { vec_len slots.new ≡ vec_len slots.old }
    ensures capacity { vec_capacity slots.new ≡ vec_capacity slots.old }
    ensures heads { vec_len heads.new ≡ vec_len heads.old }
{
    let found = search(slots, heads, chain, &IsRoute { route });
    let Some(place) = found.at else {
        return;
    };
    let Some(slot) = held(slots, place) else {
        return;
    };
    link(slots, heads, chain, found.before, slot.next);
    put(slots, place, None);
}

impl RouteChains {
    /// No routes, no chains and no room.
    pub fn new(alloc: Global) -> RouteChains
        ensures entries { result.entries ≡ [] }
        ensures chains { result.chains ≡ 0 }
        ensures room { result.room ≡ 0 }
    {
        RouteChains {
            slots: Vec::new(alloc),
            heads: Vec::new(alloc),
            spare: 0,
            gaps: 0,
        }
    }

    /// Makes room for so many routes more, and has so many chains at least. Out of memory leaves the routes as they are.
    pub fn reserve(&mut self, more: usize, chains: usize) -> Result<(), AllocError>
        ensures entries { self.new.entries ≡ self.old.entries }
        ensures room { OnOk result (more ≤ self.new.room) }
        ensures chains { OnOk result (chains ≤ self.new.chains) }
        ensures no_less_room { self.old.room ≤ self.new.room }
        ensures no_less_chains { self.old.chains ≤ self.new.chains }
    {
        match open(&mut self.heads, chains) {
            Ok(()) => {}
            Err(err) => return Err(err),
        }
        if more <= self.spare {
            return Ok(());
        }
        match self.slots.reserve(more) {
            Ok(()) => {}
            Err(err) => return Err(err),
        }
        self.spare = more;
        Ok(())
    }

    /// Puts a route last, in the room that is there.
    pub fn push(&mut self, chain: usize, route: Route)
        requires there { chain < self.old.chains }
        requires room { 0 < self.old.room }
        ensures entries { self.new.entries
            ≡ self.old.entries ++ record { chain = chain; route = route } ∷ [] }
        ensures chains { self.new.chains ≡ self.old.chains }
        ensures room { self.new.room + 1 ≡ self.old.room }
    {
        add_slot(&mut self.slots, &mut self.heads, chain, route);
        self.spare -= 1;
    }

    /// Takes a route out of a chain.
    pub fn remove(&mut self, chain: usize, route: &Route)
        requires there { chain < self.old.chains }
        requires has { IsTrue (list_any (λ other. same_route other route.now)
            (chain_of chain self.old.entries)) }
        ensures entries { TakesOut self.old.entries self.new.entries
            (record { chain = chain; route = route.now }) }
        ensures chains { self.new.chains ≡ self.old.chains }
        ensures room { self.new.room ≡ self.old.room }
    {
        cut_slot(&mut self.slots, &mut self.heads, chain, *route);
        self.gaps += 1;
    }

    /// How many routes there are.
    pub fn len(&self) -> usize
        ensures { result ≡ length self.now.entries }
    {
        self.slots.len() - self.gaps
    }

    /// The route at a place, in the order of addition. It is found at once where no route was taken out since the slots
    /// were made, and else along them.
    pub fn at(&self, place: usize) -> Option<Route>
        ensures { result ≡ slice_get (routes_of self.now.entries) place }
    {
        if self.gaps == 0 {
            route_at(&self.slots, Some(place))
        } else {
            nth_route(&self.slots, place)
        }
    }

    /// The routes, in the order of their addition.
    pub fn routes(&self, alloc: Global) -> Result<Vec<Route>, AllocError>
        ensures { IfOk result (λ routes. routes.items ≡ routes_of self.now.entries) }
    {
        routes_in(alloc, &self.slots)
    }

    /// The first route of a chain that suits a packet with this binding.
    pub fn first(&self, chain: usize, bound: Option<u16>) -> Option<Route>
        requires { chain < self.now.chains }
        ensures { result ≡ find (λ r. suits (link_of r.out) bound)
            (chain_of chain self.now.entries) }
    {
        let found = search(&self.slots, &self.heads, chain, &Suits { bound });
        route_at(&self.slots, found.at)
    }

    /// Whether a route of this one's key is in a chain.
    pub fn has_key(&self, chain: usize, route: &Route) -> bool
        requires { chain < self.now.chains }
        ensures { result ≡ list_any (λ other. same_key other route.now)
            (chain_of chain self.now.entries) }
    {
        let found = search(&self.slots, &self.heads, chain, &HasKey { route: *route });
        route_at(&self.slots, found.at).is_some()
    }
}
