//! A network's route, as requests.
ghost use Rattle.std.specs.Prelude.{◌≡◌, true, IfOk};
ghost use Rattle.kernel_model.specs.Switch.{requests_of};
ghost use Rattle.network_store.specs.Stored.{net_of};
ghost use Rattle.networks.specs.Network.{routes_by};
ghost use Rattle.fib_table.specs.Table.{are_keys_distinct};
ghost use Rattle.rule_compile.specs.Asked.{keyed_in};

use crate::rule::table_of;
use kernel_model::Request;
use network_store::StoredNetwork;
use prefixes::Route;
use std::alloc::{AllocError, Global};

/// What asks for the network's route that belongs to the link and has the key.
pub(crate) fn requests_by(
    alloc: Global,
    network: &StoredNetwork,
    link: u16,
    key: &Route,
) -> Result<Vec<Request>, AllocError>
    requires once { are_keys_distinct (routes_by link (net_of network.now).routes) ≡ true }
    ensures { IfOk result (λ requests. requests.items ≡
        requests_of (keyed_in (net_of network.now) link key.now)) }
{
    let mut requests = Vec::new(alloc);
    let Some(route) = network.routes.find(link, key) else {
        return Ok(requests);
    };
    requests.push(Request::Route {
        table: table_of(&network.kind, link),
        route: route.route,
    })?;
    Ok(requests)
}
