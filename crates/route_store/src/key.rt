ghost use Rattle.std.specs.Prelude.{◌≡◌};
ghost use Rattle.prefixes.specs.Addr.{value_of};
ghost use Rattle.std.specs.Option.{option_eq};

use networks::LinkRoute;
use prefixes::{Prefix, Route, same_prefix};
use std::hash::{Hash, Hasher};

/// By what a network tells its routes apart: the interface to which a route belongs, the prefix, and the link that it goes out
/// by, which a special route lacks.
#[derive(Clone, Copy, Debug)]
pub struct RouteKey {
    pub link: u16,
    pub prefix: Prefix,
    pub out: Option<u16>,
}

impl PartialEq for RouteKey {
    ghost use Rattle.std.specs.Cmp.{partial_equiv_from_equiv, decided};
    ghost use Rattle.route_store.specs.Keys.{same_route_key, same_route_key-Decides};

    ghost eq = { same_route_key };

    ghost laws = { partial_equiv_from_equiv (decided same_route_key same_route_key-Decides) };

    fn eq(&self, other: &RouteKey) -> bool {
        self.link == other.link && same_prefix(&self.prefix, &other.prefix) && self.out == other.out
    }
}

impl Eq for RouteKey {
    ghost use Rattle.std.specs.Cmp.{decided};
    ghost use Rattle.route_store.specs.Keys.{same_route_key, same_route_key-Decides};

    ghost laws = { decided same_route_key same_route_key-Decides };
}

impl Hash for RouteKey {
    ghost use Rattle.std.specs.Hash.{same_Alike};
    ghost use Rattle.route_store.specs.Keys.{same_route_key-Decides, fed_by};

    ghost hash_input = { fed_by };

    ghost respects_eq = { (same_Alike fed_by same_route_key-Decides).fed };

    fn hash<H: Hasher>(&self, state: &mut H) {
        self.link.hash(state);
        self.prefix.base().value().hash(state);
        self.prefix.len().hash(state);
        self.out.hash(state);
    }
}

impl RouteKey {
    ghost use Rattle.route_store.specs.Keys.{key_by, key_of};

    /// The key of such a route at the interface of this link.
    pub fn new(link: u16, route: &Route) -> RouteKey
        ensures { result ≡ key_by link route.now }
    {
        RouteKey {
            link,
            prefix: route.prefix,
            out: route.out.link(),
        }
    }

    /// The key of a route.
    pub fn of(route: &LinkRoute) -> RouteKey
        ensures { result ≡ key_of route.now }
    {
        RouteKey::new(route.link, &route.route)
    }
}
