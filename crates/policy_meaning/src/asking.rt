// What networks say of a packet.
ghost use Rattle.std.specs.Prelude.{◌≡◌, map};
ghost use Rattle.policy_meaning.specs.Asking.{fitting, is_at, routes_at};
ghost use Rattle.policy_meaning.specs.Policy.{first_given, asks_routes, asks_link, asks};
ghost use Rattle.network_store.specs.Stored as stored;
ghost use Rattle.prefixes.specs.Best.{best};

use network_store::{StoredKind, StoredNetwork};
use networks::LinkRoute;
use prefixes::{Route, longer_of};
use route_store::RouteStore;
use rule_match::{Packet, Verdict};

fn is_at(route: &LinkRoute, link: Option<u16>) -> bool
    ensures { result ≡ is_at link route.now }
{
    match link {
        None => true,
        Some(link) => route.link == link,
    }
}

// The route, where it belongs to the interface and fits the packet.
fn fitting(route: &LinkRoute, link: Option<u16>, packet: &Packet) -> Option<Route>
    ensures { result ≡ fitting link packet.now.dest packet.now.outgoing route.now }
{
    if is_at(route, link) && route.route.fits(packet.dest(), packet.outgoing()) {
        Some(route.route)
    } else {
        None
    }
}

fn best_at(routes: &RouteStore, link: Option<u16>, packet: &Packet) -> Option<Route>
    ensures { result ≡ best (routes_at link routes.now.routes) packet.now.dest packet.now.outgoing }
{
    let mut found = None;
    for route in routes.iter() {
        found = longer_of(found, fitting(&route, link, packet));
    }
    found
}

fn ask_routes(routes: &RouteStore, link: Option<u16>, packet: &Packet) -> Option<Verdict>
    ensures { result ≡ asks_routes (routes_at link routes.now.routes) packet.now }
{
    let route = best_at(routes, link, packet)?;
    let answer = route.out.answer()?;
    Some(Verdict::of(answer))
}

/// What the network says of the packet by its routes at this interface.
pub fn ask_link(network: &StoredNetwork, link: u16, packet: &Packet) -> Option<Verdict>
    ensures { result ≡ asks_link (stored.net_of network.now) link packet.now }
{
    ask_routes(&network.routes, Some(link), packet)
}

fn ask_interfaces(network: &StoredNetwork, packet: &Packet) -> Option<Verdict>
    ensures { result ≡ first_given (λ link. asks_link (stored.net_of network.now) link packet.now)
        network.now.interfaces.items }
{
    for link in network.interfaces.as_slice() {
        let answer = ask_link(network, *link, packet);
        if answer.is_some() {
            return answer;
        }
    }
    None
}

/// What the network says of the packet.
pub fn ask(network: &StoredNetwork, packet: &Packet) -> Option<Verdict>
    ensures { result ≡ asks (stored.net_of network.now) packet.now }
{
    match &network.kind {
        StoredKind::Local => ask_routes(&network.routes, None, packet),
        StoredKind::Physical { .. } | StoredKind::Virtual { .. } => ask_interfaces(network, packet),
    }
}
