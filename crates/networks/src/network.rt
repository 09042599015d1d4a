ghost use Rattle.std.specs.Prelude.{◌≡◌, ◌++◌, ◌∷◌, [], filter, not, IfOk};
ghost use Rattle.networks.specs.Network.{has_link, is_keyed_by};

use crate::kind::Kind;
use prefixes::{Route, same_key};
use std::alloc::{AllocError, Global};
use std::marker::Model;

/// The indices of links, in the order of their addition.
#[derive(Clone, Debug, Drop)]
pub struct Links {
    items: Vec<u16>,
}

impl Model for Links {
    ghost use Rattle.std.specs.Prelude.{List, ℕ};

    ghost Value = { List ℕ };

    ghost view = { λ links. links.items.items };
}

impl Links {
    /// No links. It takes no memory.
    pub fn empty(alloc: Global) -> Links
        ensures { result ≡ [] }
    {
        Links {
            items: Vec::new(alloc),
        }
    }

    pub fn as_slice(&self) -> &[u16]
        ensures { result.now ≡ self.now }
    {
        self.items.as_slice()
    }

    /// The list with this link after it.
    pub fn with(&self, link: u16) -> Result<Links, AllocError>
        ensures { IfOk result (λ links. links ≡ self.now ++ link ∷ []) }
    {
        let alloc = *self.items.allocator();
        let mut items = Vec::from_slice(alloc, self.items.as_slice())?;
        items.push(link)?;
        Ok(Links { items })
    }
}

/// A route, and the interface to which it belongs: a special route belongs to one, too.
#[derive(Clone, Copy, Debug, PartialEq, Eq)]
pub struct LinkRoute {
    pub link: u16,
    pub route: Route,
}

impl LinkRoute {
    /// Whether the route is the link's and has this one's key.
    pub fn is_keyed_by(&self, link: u16, key: &Route) -> bool
        ensures { result ≡ is_keyed_by link key.now self.now }
    {
        self.link == link && same_key(&self.route, key)
    }
}

/// The routes of a network, in the order of their addition.
#[derive(Debug, Drop)]
pub struct LinkRoutes {
    items: Vec<LinkRoute>,
}

impl Model for LinkRoutes {
    ghost use Rattle.std.specs.Prelude.{List};
    ghost use Rattle.networks.specs.declared.network.LinkRoute.{LinkRoute};

    ghost Value = { List LinkRoute };

    ghost view = { λ routes. routes.items.items };
}

impl Clone for LinkRoutes {
    ghost use Rattle.std.specs.Prelude.{◌≡◌};

    ghost is_clone = { λ routes copy. copy ≡ routes };

    fn clone(&self) -> Result<LinkRoutes, AllocError> {
        let alloc = *self.items.allocator();
        let items = Vec::from_slice(alloc, self.items.as_slice())?;
        Ok(LinkRoutes { items })
    }
}

impl LinkRoutes {
    /// No routes. It takes no memory.
    pub fn empty(alloc: Global) -> LinkRoutes
        ensures { result ≡ [] }
    {
        LinkRoutes {
            items: Vec::new(alloc),
        }
    }

    pub fn as_slice(&self) -> &[LinkRoute]
        ensures { result.now ≡ self.now }
    {
        self.items.as_slice()
    }

    /// The list with this route after it.
    pub fn with(&self, route: LinkRoute) -> Result<LinkRoutes, AllocError>
        ensures { IfOk result (λ routes. routes ≡ self.now ++ route ∷ []) }
    {
        let alloc = *self.items.allocator();
        let mut items = Vec::from_slice(alloc, self.items.as_slice())?;
        items.push(route)?;
        Ok(LinkRoutes { items })
    }

    /// The list without the link's routes of this one's key, in its order.
    pub fn without(&self, link: u16, key: &Route) -> Result<LinkRoutes, AllocError>
        ensures { IfOk result (λ routes. routes ≡
            filter (λ r. not (is_keyed_by link key.now r)) self.now) }
    {
        let alloc = *self.items.allocator();
        let items = self
            .items
            .iter()
            .copied()
            .filter(|route| !route.is_keyed_by(link, key))
            .collect(alloc)?;
        Ok(LinkRoutes { items })
    }
}

/// A network.
#[derive(Clone, Debug, Drop)]
pub struct Network {
    pub id: u16,
    pub kind: Kind,
    pub interfaces: Links,
    pub routes: LinkRoutes,
}

impl Network {
    /// Whether the link is an interface of the network.
    pub fn has_link(&self, link: u16) -> bool
        ensures { result ≡ has_link self.now link }
    {
        self.interfaces
            .as_slice()
            .iter()
            .any(|other| *other == link)
    }
}
