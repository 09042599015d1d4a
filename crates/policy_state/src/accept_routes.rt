// Whether a route may come or go.
ghost use Rattle.std.specs.Prelude.{◌≡◌, ◌≤◌, None, Some, length, IfErr, IfOk, OnOk};
ghost use Rattle.std.specs.List.{list_any};
ghost use Rattle.std.specs.Result.{result_err};
ghost use Rattle.fib_table.specs.Table as table;
ghost use Rattle.network_store.specs.Stored.{net_of};
ghost use Rattle.networks.specs.Lists.{find_id};
ghost use Rattle.networks.specs.Network.{is_keyed_by, routes_by};
ghost use Rattle.commands.specs.declared.command.Command.TheVariants as command;
ghost use Rattle.policy_state.specs.Accept.{Makes};
ghost use Rattle.policy_state.specs.Good.{IsGood, IsNetwork};
ghost use Rattle.policy_state.specs.Parts.{view_of};
ghost use Rattle.policy_state.specs.Step as step;
ghost use Rattle.policy_state.specs.View.{link_named};

use crate::change::Change;
use crate::parts::Parts;
use crate::routes::{is_special, is_way_of_other_family, key_of, route_of};
use commands::Way;
use net_names::{Code, Name};
use network_store::StoredNetwork;
use prefixes::{Prefix, Route};

/// The most routes of a table.
const MOST_ROUTES: usize = 16384;

// Whether the interface has a route of this one's key.
fn has_key(network: &StoredNetwork, link: u16, key: &Route) -> bool
    ensures by_link { result ≡ table.has_key
        (routes_by link (net_of network.now).routes) key.now }
    ensures keyed { result ≡ list_any (is_keyed_by link key.now) (net_of network.now).routes }
{
    network.routes.has_key(link, key)
}

// How many routes all interfaces have.
fn count_all(network: &StoredNetwork) -> usize
    requires { IsNetwork (net_of network.now) }
    ensures { result ≡ length (net_of network.now).routes }
{
    let mut count = 0;
    for link in network.interfaces.as_slice() {
        count += network.routes.count_of(*link);
    }
    count
}

// How many routes the table has in which the interface's routes stand.
fn count_in_table(network: &StoredNetwork, link: u16) -> usize
    requires { IsNetwork (net_of network.now) }
    ensures { result ≡ length (step.table_routes_of (net_of network.now) link) }
{
    if network.kind.is_local() {
        count_all(network)
    } else {
        network.routes.count_of(link)
    }
}

impl Parts {
    // The network and the link of a route, or why there is none.
    fn route_place(&self, net: u16, name: &Name) -> Result<(&StoredNetwork, u16), Code>
        ensures code { result_err result ≡ step.first_that_holds
            (step.route_reasons (view_of self.now) net name.now) }
        ensures network { IfOk result (λ place.
            find_id net (view_of self.now).networks ≡ Some (net_of place.0.now)) }
        ensures link { IfOk result (λ place.
            link_named (view_of self.now) name.now ≡ Some place.1) }
    {
        let Some(network) = self.networks.get(net) else {
            return Err(Code::NoNetwork);
        };
        let Some(link) = self.links.index_of(name) else {
            return Err(Code::NoDevice);
        };
        if !self.is_in_any(link) {
            return Err(Code::NoDevice);
        }
        if !network.has_link(link) {
            return Err(Code::NoEntry);
        }
        Ok((network, link))
    }

    pub(crate) fn route_comes(
        &self,
        net: u16,
        name: &Name,
        prefix: Prefix,
        way: Way,
    ) -> Result<Change<'static>, Code>
        requires { IsGood (view_of self.now) }
        ensures code { result_err result ≡ step.first_that_holds
            (step.reasons (view_of self.now) (command.RouteAdd net name.now prefix way)) }
        ensures makes { IfOk result
            (Makes (view_of self.now) (command.RouteAdd net name.now prefix way)) }
    {
        let (network, link) = match self.route_place(net, name) {
            Ok(place) => place,
            Err(code) => return Err(code),
        };
        if is_special(way) && network.kind.is_local() || is_way_of_other_family(prefix, way) {
            return Err(Code::Invalid);
        }
        let route = route_of(link, prefix, way);
        if has_key(network, link, &route) {
            return Err(Code::Exists);
        }
        if count_in_table(network, link) >= MOST_ROUTES {
            return Err(Code::NoSpace);
        }
        Ok(Change::RouteComes { net, link, route })
    }

    pub(crate) fn route_goes(
        &self,
        net: u16,
        name: &Name,
        prefix: Prefix,
        special: bool,
    ) -> Result<Change<'static>, Code>
        ensures code { result_err result ≡ step.first_that_holds
            (step.reasons (view_of self.now) (command.RouteRemove net name.now prefix special)) }
        ensures makes { IfOk result
            (Makes (view_of self.now) (command.RouteRemove net name.now prefix special)) }
    {
        let (network, link) = match self.route_place(net, name) {
            Ok(place) => place,
            Err(code) => return Err(code),
        };
        let key = key_of(link, prefix, special);
        if !has_key(network, link, &key) {
            return Err(Code::NoRoute);
        }
        Ok(Change::RouteGoes { net, link, key })
    }
}
