ghost use Rattle.std.specs.Prelude.{◌≡◌, ◌≤◌, ◌<◌, ◌+◌, ◌++◌, ◌∷◌, ◌==◌, [], true, false, None, Some, filter, not, length, map, slice_get, slice_set, slice_index_or, vec_len, OnOk, IfOk, find, ◌^◌};
ghost use Rattle.std.specs.List.{list_any};
ghost use Rattle.route_store.specs.Keys.{same_route_key, key_of, are_apart};
ghost use Rattle.route_store.specs.Slots.{present, unlinked, IsPlaced};

use crate::key::RouteKey;
use indexmap::IndexMap;
use networks::LinkRoute;
use std::alloc::{AllocError, Global};
use std::marker::Model;

// Routes in the order of their addition, each found by its key. A route that is taken out leaves an empty slot, so that no other
// moves; where more than half of the slots are empty, the next call that makes room packs them.
#[derive(Drop)]
pub(crate) struct RouteSlots {
    slots: Vec<Option<LinkRoute>>,
    places: IndexMap<RouteKey, usize>,
}

impl Model for RouteSlots {
    ghost use Rattle.route_store.specs.Slots.{RoutesView, present, room_of, IsPlaced};

    ghost Value = { RoutesView };

    ghost view = { λ r. record {
      routes = present r.slots.items;
      room = room_of r.slots r.places;
    } };

    ghost invariant = { λ r. IsPlaced r.slots.items r.places.entries };
}

/// The routes that are left, in the order of their addition.
#[derive(Drop)]
pub struct Iter<'a> {
    slots: &'a [Option<LinkRoute>],
}

impl<'a> Model for Iter<'a> {
    ghost use Rattle.std.specs.Prelude.{List};
    ghost use Rattle.networks.specs.declared.network.LinkRoute.{LinkRoute};
    ghost use Rattle.route_store.specs.Slots.{present};

    ghost Value = { List LinkRoute };

    ghost view = { λ iter. present iter.slots.now };
}

impl<'a> Iterator for Iter<'a> {
    ghost use Rattle.std.specs.Iterator.{YieldsFirstBy, item_count};

    type Item = LinkRoute;

    ghost next_gives = { YieldsFirstBy (λ route. route) (λ rest. rest) };

    ghost remaining = { item_count (λ rest. rest) };

    fn next(&mut self) -> Option<LinkRoute> {
        while let Some((slot, rest)) = self.slots.split_first() {
            self.slots = rest;
            if let Some(route) = slot {
                return Some(*route);
            }
        }
        None
    }
}

// Empties the slot of a route.
fn clear_slot(
    slots: &mut Vec<Option<LinkRoute>>,
    places: &mut IndexMap<RouteKey, usize>,
    place: usize,
    key: &RouteKey,
)
    requires placed { IsPlaced slots.old.items places.old.entries }
    requires there { (route : LinkRoute) ×
        (slice_get slots.old.items place ≡ Some (Some route)) × (key.now ≡ key_of route) }
    ensures placed { IsPlaced slots.new.items places.new.entries }
    ensures slots { slots.new.items ≡ slice_set slots.old.items place None }
{
    places.swap_remove(key);
    slots[place] = None;
}

// Empties a slot where it holds a route of this link.
fn clear_if_linked(
    slots: &mut Vec<Option<LinkRoute>>,
    places: &mut IndexMap<RouteKey, usize>,
    place: usize,
    link: u16,
)
    requires placed { IsPlaced slots.old.items places.old.entries }
    requires within { place < vec_len slots.old }
    ensures placed { IsPlaced slots.new.items places.new.entries }
    ensures slots { slots.new.items ≡ slice_set slots.old.items place
        (unlinked link (slice_index_or slots.old.items place None)) }
{
    match slots[place] {
        Some(route) if route.link == link => {
            clear_slot(slots, places, place, &RouteKey::of(&route));
        }
        Some(_) | None => {}
    }
}

// Empties the slots of all routes of this link.
fn clear_linked(
    slots: &mut Vec<Option<LinkRoute>>,
    places: &mut IndexMap<RouteKey, usize>,
    link: u16,
)
    requires { IsPlaced slots.old.items places.old.entries }
    ensures placed { IsPlaced slots.new.items places.new.entries }
    ensures slots { slots.new.items ≡ map (unlinked link) slots.old.items }
{
    for place in 0..slots.len() {
        clear_if_linked(slots, places, place, link);
    }
}

impl RouteSlots {
    pub(crate) fn empty(alloc: Global) -> RouteSlots
        ensures { result.routes ≡ [] }
    {
        RouteSlots {
            slots: Vec::new(alloc),
            places: IndexMap::new(alloc),
        }
    }

    // The same routes, in the same slots.
    pub(crate) fn copy(&self) -> Result<RouteSlots, AllocError>
        ensures { IfOk result (λ copy. copy.routes ≡ self.now.routes) }
    {
        Ok(RouteSlots {
            slots: Vec::from_slice(*self.slots.allocator(), self.slots.as_slice())?,
            places: self.places.clone()?,
        })
    }

    // The routes, in the order of their addition.
    pub(crate) fn iter(&self) -> Iter<'_>
        ensures routes { result ≡ self.now.routes }
        ensures apart { are_apart self.now.routes ≡ true }
    {
        Iter {
            slots: self.slots.as_slice(),
        }
    }

    pub(crate) fn has(&self, key: &RouteKey) -> bool
        ensures there { result ≡ list_any (λ r. same_route_key (key_of r) key.now) self.now.routes }
        ensures apart { are_apart self.now.routes ≡ true }
    {
        self.places.contains_key(key)
    }

    pub(crate) fn find(&self, key: &RouteKey) -> Option<LinkRoute>
        ensures { result ≡ find (λ r. same_route_key (key_of r) key.now) self.now.routes }
    {
        let Some(place) = self.places.get(key) else {
            return None;
        };
        self.slots[*place]
    }

    fn is_sparse(&self) -> bool {
        self.slots.len() / 2 > self.places.len()
    }

    // Room in the slots that are there.
    fn extend_room(&mut self, more: usize) -> Result<(), AllocError>
        ensures routes { self.new.routes ≡ self.old.routes }
        ensures room { OnOk result (more ≤ self.new.room) }
    {
        self.slots.reserve(more)?;
        self.places.reserve(more)
    }

    // The same routes without an empty slot, with room for so many more.
    fn packed(&self, more: usize) -> Result<RouteSlots, AllocError>
        ensures { IfOk result (λ packed. (packed.routes ≡ self.now.routes) × (more ≤ packed.room)) }
    {
        let Some(room) = self.slots.len().checked_add(more) else {
            return Err(AllocError);
        };
        let mut packed = RouteSlots::empty(*self.slots.allocator());
        packed.extend_room(room)?;
        for route in self.iter() {
            packed.add(route);
        }
        Ok(packed)
    }

    // Makes room for so many routes more, and packs the slots where more than half are empty.
    pub(crate) fn reserve(&mut self, more: usize) -> Result<(), AllocError>
        ensures routes { self.new.routes ≡ self.old.routes }
        ensures room { OnOk result (more ≤ self.new.room) }
    {
        if !self.is_sparse() {
            return self.extend_room(more);
        }
        *self = self.packed(more)?;
        Ok(())
    }

    // Puts a route after the others, in the room that is there.
    pub(crate) fn add(&mut self, route: LinkRoute)
        requires room { 0 < self.old.room }
        requires fresh { list_any (λ r. same_route_key (key_of r) (key_of route))
            self.old.routes ≡ false }
        ensures routes { self.new.routes ≡ self.old.routes ++ route ∷ [] }
        ensures room { self.old.room ≤ self.new.room + 1 }
        ensures small { length self.new.routes < 2 ^ 63 }
    {
        let place = self.slots.len();
        let _ = self.places.insert(RouteKey::of(&route), place);
        let _ = self.slots.push(Some(route));
    }

    // Takes the route of this key out.
    pub(crate) fn remove(&mut self, key: &RouteKey)
        ensures { self.new.routes ≡
            filter (λ r. not (same_route_key (key_of r) key.now)) self.old.routes }
    {
        let Some(place) = self.places.get(key).copied() else {
            return;
        };
        clear_slot(&mut self.slots, &mut self.places, place, key);
    }

    // Takes all routes of this link out.
    pub(crate) fn remove_link(&mut self, link: u16)
        ensures { self.new.routes ≡ filter (λ r. not (r.link == link)) self.old.routes }
    {
        clear_linked(&mut self.slots, &mut self.places, link);
    }
}
