ghost use Rattle.std.specs.Prelude.{◌≡◌, ◌≤◌, ◌<◌, ◌+◌, ◌++◌, ◌∷◌, ◌||◌, ◌==◌, [], true, false, filter, not, length, OnOk, IfOk};
ghost use Rattle.std.specs.List.{list_any};
ghost use Rattle.std.specs.Str.{bytes_eq};
ghost use Rattle.link_table.specs.Links.{index_of, name_of, is_taken, are_apart, lo_alone};

use crate::link::Link;
use indexmap::IndexMap;
use net_names::Name;
use std::alloc::{AllocError, Global};
use std::marker::Model;

/// The index of `lo`, the first link of a device.
const LO_INDEX: u16 = 1;

/// The links of a device in the order of their addition, found by name and by index without a search. No two have one name or
/// one index. A link is added in room that was made before, so that the addition can't fail.
#[derive(Drop)]
pub struct LinkTable {
    links: Vec<Link>,
    by_name: IndexMap<Name, u16>,
    by_index: IndexMap<u16, Name>,
}

impl Model for LinkTable {
    ghost use Rattle.link_table.specs.Table.{LinkTableView, room_of, AreIndexed};

    ghost Value = { LinkTableView };

    ghost view = { λ t. record {
      links = t.links.items;
      room = room_of t.links t.by_name t.by_index;
    } };

    ghost invariant = { λ t. AreIndexed t.links.items t.by_name.entries t.by_index.entries };
}

impl LinkTable {
    fn empty(alloc: Global) -> LinkTable
        ensures { result.links ≡ [] }
    {
        LinkTable {
            links: Vec::new(alloc),
            by_name: IndexMap::new(alloc),
            by_index: IndexMap::new(alloc),
        }
    }

    /// The one link `lo`.
    pub fn start(alloc: Global) -> Result<LinkTable, AllocError>
        ensures { IfOk result (λ table. table.links ≡ lo_alone) }
    {
        let Some(name) = Name::from_bytes(b"lo") else {
            return Err(AllocError);
        };
        let mut table = LinkTable::empty(alloc);
        table.reserve(1)?;
        table.add(Link {
            name,
            index: LO_INDEX,
        });
        Ok(table)
    }

    /// The same links.
    pub fn copy(&self) -> Result<LinkTable, AllocError>
        ensures { IfOk result (λ table. table.links ≡ self.now.links) }
    {
        Ok(LinkTable {
            links: Vec::from_slice(*self.links.allocator(), self.links.as_slice())?,
            by_name: self.by_name.clone()?,
            by_index: self.by_index.clone()?,
        })
    }

    /// How many links there are.
    pub fn len(&self) -> usize
        ensures count { result ≡ length self.now.links }
        ensures apart { are_apart self.now.links ≡ true }
    {
        self.links.len()
    }

    pub fn as_slice(&self) -> &[Link]
        ensures { result.now ≡ self.now.links }
    {
        self.links.as_slice()
    }

    /// The index of the link of this name.
    pub fn index_of(&self, name: &Name) -> Option<u16>
        ensures { result ≡ index_of name.now self.now.links }
    {
        self.by_name.get(name).copied()
    }

    /// The name of the link of this index.
    pub fn name_of(&self, index: u16) -> Option<Name>
        ensures { result ≡ name_of index self.now.links }
    {
        self.by_index.get(&index).copied()
    }

    fn has_name(&self, name: &Name) -> bool
        ensures { result ≡ list_any (λ l. bytes_eq l.name name.now) self.now.links }
    {
        self.by_name.contains_key(name)
    }

    fn has_index(&self, index: u16) -> bool
        ensures { result ≡ list_any (λ l. l.index == index) self.now.links }
    {
        self.by_index.contains_key(&index)
    }

    /// Whether a link has this name or this index.
    pub fn is_taken(&self, name: &Name, index: u16) -> bool
        ensures { result ≡ is_taken name.now index self.now.links }
    {
        self.has_name(name) || self.has_index(index)
    }

    /// Makes room for so many links more. The links stay.
    pub fn reserve(&mut self, more: usize) -> Result<(), AllocError>
        ensures links { self.new.links ≡ self.old.links }
        ensures room { OnOk result (more ≤ self.new.room) }
    {
        self.links.reserve(more)?;
        self.by_name.reserve(more)?;
        self.by_index.reserve(more)
    }

    /// Puts a link after the others, in the room that is there.
    pub fn add(&mut self, link: Link)
        requires room { 0 < self.old.room }
        requires fresh { is_taken link.name link.index self.old.links ≡ false }
        ensures links { self.new.links ≡ self.old.links ++ link ∷ [] }
        ensures room { self.old.room ≤ self.new.room + 1 }
    {
        let name = link.name;
        let index = link.index;
        let _ = self.by_name.insert(name, index);
        let _ = self.by_index.insert(index, name);
        let _ = self.links.push(Link { name, index });
    }

    /// Takes the link of this name out. The others keep their order.
    pub fn remove(&mut self, name: &Name)
        ensures { self.new.links ≡ filter (λ l. not (bytes_eq l.name name.now)) self.old.links }
    {
        let Some(index) = self.by_name.swap_remove(name) else {
            return;
        };
        self.by_index.swap_remove(&index);
        self.links.retain(|link| link.name != *name);
    }
}
