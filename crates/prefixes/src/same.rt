// When two values are equal.
ghost use Rattle.std.specs.Prelude.{◌≡◌, ◌↔◌, ◌==◌, IsTrue};
ghost use Rattle.std.specs.Option.{option_eq};
ghost use Rattle.prefixes.specs.Addr.{same_family, same_addr};
ghost use Rattle.prefixes.specs.Prefix.{same_prefix};
ghost use Rattle.prefixes.specs.Route.{link_of, same_out, same_route, same_key};

use crate::addr::{Addr, Family};
use crate::prefix::Prefix;
use crate::route::{Out, Route};

/// Whether two families are equal.
pub fn same_family(a: Family, b: Family) -> bool
    ensures value { result ≡ same_family a b }
    ensures equal { IsTrue result ↔ (a ≡ b) }
{
    match (a, b) {
        (Family::V4, Family::V4) | (Family::V6, Family::V6) => true,
        (Family::V4, Family::V6) | (Family::V6, Family::V4) => false,
    }
}

/// Whether two addresses are equal.
pub fn same_addr(a: Addr, b: Addr) -> bool
    ensures value { result ≡ same_addr a b }
    ensures equal { IsTrue result ↔ (a ≡ b) }
{
    match (a, b) {
        (Addr::V4(a), Addr::V4(b)) => a == b,
        (Addr::V6(a), Addr::V6(b)) => a == b,
        (Addr::V4(_), Addr::V6(_)) | (Addr::V6(_), Addr::V4(_)) => false,
    }
}

/// Whether two prefixes are equal.
pub fn same_prefix(a: &Prefix, b: &Prefix) -> bool
    ensures value { result ≡ same_prefix a.now b.now }
    ensures equal { IsTrue result ↔ (a.now ≡ b.now) }
{
    same_addr(a.base, b.base) && a.len == b.len
}

/// Whether two gateways are equal, or none twice.
pub fn same_gateway(a: Option<Addr>, b: Option<Addr>) -> bool
    ensures { result ≡ option_eq same_addr a b }
{
    match (a, b) {
        (None, None) => true,
        (Some(a), Some(b)) => same_addr(a, b),
        (Some(_), None) | (None, Some(_)) => false,
    }
}

/// Whether two links are equal, or none twice.
pub fn same_link(a: Option<u16>, b: Option<u16>) -> bool
    ensures { result ≡ option_eq ◌==◌ a b }
{
    match (a, b) {
        (None, None) => true,
        (Some(a), Some(b)) => a == b,
        (Some(_), None) | (None, Some(_)) => false,
    }
}

/// Whether two routes go the same way.
pub fn same_out(a: &Out, b: &Out) -> bool
    ensures value { result ≡ same_out a.now b.now }
    ensures equal { IsTrue result ↔ (a.now ≡ b.now) }
{
    match (*a, *b) {
        (
            Out::Dev { link, gateway },
            Out::Dev {
                link: other_link,
                gateway: other_gateway,
            },
        ) => link == other_link && same_gateway(gateway, other_gateway),
        (Out::Unreachable, Out::Unreachable) | (Out::Throw, Out::Throw) => true,
        (Out::Dev { .. } | Out::Unreachable | Out::Throw, _) => false,
    }
}

/// Whether two routes are equal.
pub fn same_route(a: &Route, b: &Route) -> bool
    ensures value { result ≡ same_route a.now b.now }
    ensures equal { IsTrue result ↔ (a.now ≡ b.now) }
{
    same_prefix(&a.prefix, &b.prefix) && same_out(&a.out, &b.out)
}

/// Whether a table may hold only one of the two routes.
pub fn same_key(a: &Route, b: &Route) -> bool
    ensures value { result ≡ same_key a.now b.now }
    ensures equal { IsTrue result ↔ ((a.now.prefix ≡ b.now.prefix) ×
        (link_of a.now.out ≡ link_of b.now.out)) }
{
    same_prefix(&a.prefix, &b.prefix) && same_link(a.out.link(), b.out.link())
}
