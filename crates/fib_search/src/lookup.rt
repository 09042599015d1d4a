ghost use Rattle.std.specs.Prelude.{◌≡◌, ◌≤◌, ◌<◌, ◌+◌, ◌↔◌, Some, IsTrue};
ghost use Rattle.prefixes.specs.Addr.{width_of, family_of};
ghost use Rattle.prefixes.specs.Best.{IsBest, best};
ghost use Rattle.prefixes.specs.declared.route.Route.{Route};
ghost use Rattle.fib_search.specs.Node.{bit_at, pick, root_of, onward, or_else};

use crate::node::{NodeView, Nodes};
use prefixes::{Addr, Family, Route};

pub fn root_of(family: Family) -> usize
    ensures { result ≡ root_of family }
{
    match family {
        Family::V4 => 0,
        Family::V6 => 1,
    }
}

pub fn bit_at(addr: Addr, place: u8) -> bool
    requires { place < width_of addr }
    ensures { result ≡ bit_at addr place }
{
    let down = addr.width() - (place + 1);
    (addr.value() >> down) % 2 == 1
}

fn onward(node: &NodeView, addr: Addr) -> Option<usize>
    ensures { result ≡ onward node.now addr }
{
    if node.prefix.len() < addr.width() {
        if bit_at(addr, node.prefix.len()) {
            node.one
        } else {
            node.zero
        }
    } else {
        None
    }
}

fn or_else(first: Option<Route>, other: Option<Route>) -> Option<Route>
    ensures { result ≡ or_else first other }
{
    match first {
        Some(route) => Some(route),
        None => other,
    }
}

/// The best route for this destination and binding among those of the nodes, by a read for each node on the way down. A
/// throw is given as a route.
pub fn lookup_counted<N: Nodes>(nodes: &mut N, addr: Addr, bound: Option<u16>) -> Option<Route>
    requires { N.reads nodes.old ≤ 1000000 }
    ensures value { result ≡ best (N.routes nodes.old) addr bound }
    ensures exactly { (r : Route) → (result ≡ Some r) ↔ IsBest (N.routes nodes.old) addr bound r }
    ensures count { N.reads nodes.new ≤ N.reads nodes.old + (width_of addr + 1) }
    ensures nodes { N.nodes nodes.new ≡ N.nodes nodes.old }
    ensures routes { N.routes nodes.new ≡ N.routes nodes.old }
{
    let mut found = None;
    let mut place = root_of(addr.family());
    loop {
        let Some(node) = nodes.read(place, bound) else {
            return found;
        };
        if !node.prefix.covers(addr) {
            return found;
        }
        found = or_else(node.first, found);
        let Some(next) = onward(&node, addr) else {
            return found;
        };
        place = next;
    }
}
