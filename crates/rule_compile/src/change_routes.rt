//! The routes that come and go with a change, as requests.
ghost use Rattle.std.specs.Prelude.{◌≡◌, ◌∷◌, [], true, if◌then◌else◌, IfOk, flat_map};
ghost use Rattle.kernel_model.specs.Switch.{requests_of};
ghost use Rattle.networks.specs.Kinds.{is_local};
ghost use Rattle.policy_state.specs.Table.{table_of};
ghost use Rattle.rule_compile.specs.Asked.{keyed_in, leaving_by};
ghost use Rattle.rule_compile.specs.Planned.{routes_of_net, change_comes, change_goes, change_goes_first};

use crate::going_routes::{network_routes, push_leaving};
use crate::routes::requests_by;
use crate::rule::table_of;
use kernel_model::Request;
use policy_state::{Change, State};
use prefixes::Route;
use std::alloc::{AllocError, Global};

fn route_comes(
    alloc: Global,
    state: &State,
    net: u16,
    link: u16,
    route: Route,
) -> Result<Vec<Request>, AllocError>
    ensures { IfOk result (λ requests. requests.items ≡ requests_of
        (routes_of_net state.now net (λ n. (table_of n.kind link, route) ∷ []))) }
{
    let mut requests = Vec::new(alloc);
    let Some(network) = state.networks().get(net) else {
        return Ok(requests);
    };
    requests.push(Request::Route {
        table: table_of(&network.kind, link),
        route,
    })?;
    Ok(requests)
}

fn route_goes(
    alloc: Global,
    state: &State,
    net: u16,
    link: u16,
    key: &Route,
) -> Result<Vec<Request>, AllocError>
    ensures { IfOk result (λ requests. requests.items ≡ requests_of
        (routes_of_net state.now net (λ n. keyed_in n link key.now))) }
{
    let Some(network) = state.networks().get(net) else {
        return Ok(Vec::new(alloc));
    };
    requests_by(alloc, network, link, key)
}

/// The routes of a network's interface, where the network is the local one or isn't, as it is asked for.
fn interface_goes(
    alloc: Global,
    state: &State,
    net: u16,
    link: u16,
    local: bool,
) -> Result<Vec<Request>, AllocError>
    ensures { IfOk result (λ requests. requests.items ≡ requests_of (routes_of_net state.now net
        (λ n. if is_local n.kind then (if local then leaving_by n link else [])
        else (if local then [] else leaving_by n link)))) }
{
    let mut requests = Vec::new(alloc);
    let Some(network) = state.networks().get(net) else {
        return Ok(requests);
    };
    if network.kind.is_local() == local {
        push_leaving(alloc, &mut requests, network, link)?;
    }
    Ok(requests)
}

fn network_goes(alloc: Global, state: &State, net: u16) -> Result<Vec<Request>, AllocError>
    ensures { IfOk result (λ requests. requests.items ≡ requests_of
        (routes_of_net state.now net (λ n. flat_map (leaving_by n) n.interfaces))) }
{
    let Some(network) = state.networks().get(net) else {
        return Ok(Vec::new(alloc));
    };
    network_routes(alloc, network)
}

/// The route that comes.
pub(crate) fn routes_that_come(
    alloc: Global,
    state: &State,
    change: &Change,
) -> Result<Vec<Request>, AllocError>
    ensures { IfOk result (λ requests. requests.items ≡
        requests_of (change_comes state.now change.now)) }
{
    match *change {
        Change::RouteComes { net, link, route } => route_comes(alloc, state, net, link, route),
        _ => Ok(Vec::new(alloc)),
    }
}

/// The routes that go after the rules.
pub(crate) fn routes_that_go(
    alloc: Global,
    state: &State,
    change: &Change,
) -> Result<Vec<Request>, AllocError>
    ensures { IfOk result (λ requests. requests.items ≡
        requests_of (change_goes state.now change.now)) }
{
    match *change {
        Change::RouteGoes { net, link, key } => route_goes(alloc, state, net, link, &key),
        Change::InterfaceGoes { net, link } => interface_goes(alloc, state, net, link, false),
        Change::NetworkGoes { net } => network_goes(alloc, state, net),
        _ => Ok(Vec::new(alloc)),
    }
}

/// And before them: those of an interface of the local network, whose other interfaces have routes in the same table.
pub(crate) fn routes_that_go_first(
    alloc: Global,
    state: &State,
    change: &Change,
) -> Result<Vec<Request>, AllocError>
    ensures { IfOk result (λ requests. requests.items ≡
        requests_of (change_goes_first state.now change.now)) }
{
    match *change {
        Change::InterfaceGoes { net, link } => interface_goes(alloc, state, net, link, true),
        _ => Ok(Vec::new(alloc)),
    }
}
