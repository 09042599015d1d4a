// What a route of a chain is looked for by.
ghost use Rattle.std.specs.Prelude.{◌≡◌, Bool, false};
ghost use Rattle.prefixes.specs.Route.{link_of, suits, same_key, same_route};
ghost use Rattle.prefixes.specs.declared.route.Route.{Route};

use prefixes::{Route, same_key, same_route};

/// A test of routes.
pub trait Test {
    ghost passes: { Self → Route → Bool };

    fn passes(&self, route: &Route) -> bool
        ensures { result ≡ passes self.now route.now };
}

/// By a binding to a link, or to none.
#[derive(Clone, Copy)]
pub struct Suits {
    pub bound: Option<u16>,
}

impl Test for Suits {
    ghost passes = { λ test route. suits (link_of route.out) test.bound };

    fn passes(&self, route: &Route) -> bool {
        match (route.out.link(), self.bound) {
            (Some(link), Some(bound)) => link == bound,
            (None, _) | (Some(_), None) => true,
        }
    }
}

/// By the key of a route.
#[derive(Clone, Copy)]
pub struct HasKey {
    pub route: Route,
}

impl Test for HasKey {
    ghost passes = { λ test route. same_key route test.route };

    fn passes(&self, route: &Route) -> bool {
        same_key(route, &self.route)
    }
}

/// By a route.
#[derive(Clone, Copy)]
pub struct IsRoute {
    pub route: Route,
}

impl Test for IsRoute {
    ghost passes = { λ test route. same_route route test.route };

    fn passes(&self, route: &Route) -> bool {
        same_route(route, &self.route)
    }
}

/// By nothing, which leads to a chain's end.
#[derive(Clone, Copy)]
pub struct Nothing;

impl Test for Nothing {
    ghost passes = { λ test route. false };

    fn passes(&self, _route: &Route) -> bool {
        false
    }
}
