ghost use Rattle.std.specs.Prelude.{◌≡◌, ◌↔◌, Some, None, All, IsFalse};
ghost use Rattle.prefixes.specs.Route.{fits};
ghost use Rattle.prefixes.specs.Best.{IsBest, longer_of, best};
ghost use Rattle.prefixes.specs.declared.route.Route.{Route};

use crate::addr::Addr;
use crate::route::Route;

/// The longer of two routes, the former where they are equally long.
pub fn longer_of(former: Option<Route>, latter: Option<Route>) -> Option<Route>
    ensures { result ≡ longer_of former latter }
{
    match (former, latter) {
        (None, latter) => latter,
        (Some(route), None) => Some(route),
        (Some(route), Some(other)) if route.prefix.len < other.prefix.len => Some(other),
        (Some(route), Some(_)) => Some(route),
    }
}

/// The best route of a list for this destination and binding. A throw is given as a route.
pub fn best_route(routes: &[Route], dest: Addr, bound: Option<u16>) -> Option<Route>
    ensures { result ≡ best routes.now dest bound }
{
    let mut found = None;
    for route in routes {
        if route.fits(dest, bound) {
            found = longer_of(found, Some(*route));
        }
    }
    found
}

/// The function that finds the best route and the relation are one. There is at most one best route, and none exactly
/// where no route fits.
pub fn best_laws(routes: &[Route], dest: Addr, bound: Option<u16>)
    ensures exactly { (r : Route) → (best routes.now dest bound ≡ Some r) ↔
        IsBest routes.now dest bound r }
    ensures one { (r s : Route) → IsBest routes.now dest bound r → IsBest routes.now dest bound s →
        r ≡ s }
    ensures none { (best routes.now dest bound ≡ None) ↔
        All (λ r. IsFalse (fits r dest bound)) routes.now }
{}
