// The routes that commands name.
ghost use Rattle.std.specs.Prelude.{◌≡◌};
ghost use Rattle.policy_state.specs.Step as step;

use commands::Way;
use prefixes::{Out, Prefix, Route, same_family};

// Where a route by this link goes.
fn out_of(link: u16, way: Way) -> Out
    ensures { result ≡ step.out_of link way }
{
    match way {
        Way::Direct => Out::Dev {
            link,
            gateway: None,
        },
        Way::Via(gateway) => Out::Dev {
            link,
            gateway: Some(gateway),
        },
        Way::Unreachable => Out::Unreachable,
        Way::Throw => Out::Throw,
    }
}

/// The route that an addition names, by this link.
pub fn route_of(link: u16, prefix: Prefix, way: Way) -> Route
    ensures { result ≡ step.route_of link prefix way }
{
    Route {
        prefix,
        out: out_of(link, way),
    }
}

/// A route of the key that a removal names, by this link.
pub fn key_of(link: u16, prefix: Prefix, special: bool) -> Route
    ensures { result ≡ step.key_of link prefix special }
{
    let way = if special {
        Way::Unreachable
    } else {
        Way::Direct
    };
    route_of(link, prefix, way)
}

// Whether the route is unreachable or throw.
pub(crate) fn is_special(way: Way) -> bool
    ensures { result ≡ step.is_special way }
{
    match way {
        Way::Direct | Way::Via(_) => false,
        Way::Unreachable | Way::Throw => true,
    }
}

// Whether a gateway is of another family than the prefix.
pub(crate) fn is_way_of_other_family(prefix: Prefix, way: Way) -> bool
    ensures { result ≡ step.is_way_of_other_family prefix way }
{
    match way {
        Way::Via(gateway) => !same_family(gateway.family(), prefix.family()),
        Way::Direct | Way::Unreachable | Way::Throw => false,
    }
}
