//! The routes that go with the interfaces that leave their network, as requests: the shortest prefix first, so that the best
//! route of a packet goes after every other one of the interface, and those of one length in the order of their addition.
ghost use Rattle.std.specs.Prelude.{◌≡◌, ◌++◌, IfOk, OnOk, map, flat_map};
ghost use Rattle.kernel_model.specs.Switch.{requests_of};
ghost use Rattle.network_store.specs.Stored.{net_of};
ghost use Rattle.networks.specs.Network.{routes_by};
ghost use Rattle.rule_compile.specs.Asked.{leaving_by, shortest_first};

use crate::rule::table_of;
use kernel_model::Request;
use network_store::StoredNetwork;
use prefixes::Route;
use route_store::RouteStore;
use std::alloc::{AllocError, Global};

/// The routes that belong to the link, in order.
fn routes_by(alloc: Global, routes: &RouteStore, link: u16) -> Result<Vec<Route>, AllocError>
    ensures { IfOk result (λ of_link. of_link.items ≡ routes_by link routes.now.routes) }
{
    let mut of_link = Vec::new(alloc);
    for route in routes.iter() {
        if route.link == link {
            of_link.push(route.route)?;
        }
    }
    Ok(of_link)
}

/// Puts the shortest prefix first. Routes of one length keep their order.
fn put_shortest_first(routes: &mut Vec<Route>) -> Result<(), AllocError>
    ensures { OnOk result (routes.new.items ≡ shortest_first routes.old.items) }
{
    routes.sort_by_key(|route| route.prefix.len)
}

/// Appends what asks for routes of this table.
fn push_all(requests: &mut Vec<Request>, table: u32, routes: &[Route]) -> Result<(), AllocError>
    ensures { IfOk result (λ _. requests.new.items ≡ requests.old.items ++
        requests_of (map (λ route. (table, route)) routes.now)) }
{
    for route in routes {
        requests.push(Request::Route {
            table,
            route: *route,
        })?;
    }
    Ok(())
}

/// Appends what asks for the routes of a network's interface.
pub(crate) fn push_leaving(
    alloc: Global,
    requests: &mut Vec<Request>,
    network: &StoredNetwork,
    link: u16,
) -> Result<(), AllocError>
    ensures { IfOk result (λ _. requests.new.items ≡ requests.old.items ++
        requests_of (leaving_by (net_of network.now) link)) }
{
    let table = table_of(&network.kind, link);
    let mut routes = routes_by(alloc, &network.routes, link)?;
    put_shortest_first(&mut routes)?;
    push_all(requests, table, &routes)
}

/// What asks for the routes of all of a network's interfaces, interface by interface.
pub(crate) fn network_routes(
    alloc: Global,
    network: &StoredNetwork,
) -> Result<Vec<Request>, AllocError>
    ensures { IfOk result (λ requests. requests.items ≡ requests_of
        (flat_map (leaving_by (net_of network.now)) (net_of network.now).interfaces)) }
{
    let mut requests = Vec::new(alloc);
    for link in network.interfaces.as_slice() {
        push_leaving(alloc, &mut requests, network, *link)?;
    }
    Ok(requests)
}
